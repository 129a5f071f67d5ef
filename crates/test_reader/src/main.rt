// Reads blobs in bulk, and writes what the reader answers and leaves: docs/REPLAY.md has the list's format.
#![tactic(auto)]

mod desk;

use desk::Desk;
use std::io;
use std::io::{BufWriter, Write};
use text_lines::{lists, said};

// Reads the list and runs it. As in test_replay, except the desk: a function that takes its `run` as a closure would be no shorter.
fn run(rt: &HostRuntime) -> io::Result<()> {
    let mut out = BufWriter::new(rt.alloc(), io::writer(rt))?;
    if let Some(list) = lists::read(rt, &mut out)? {
        let mut desk = Desk::new(rt.alloc())?;
        for line in list.split_inclusive(|b| *b == b'\n') {
            desk.run(&mut out, line.strip_suffix(b"\n").unwrap_or(line))?;
        }
    }
    out.flush()
}

fn main(rt: HostRuntime) -> io::Result<()> {
    said::ended(run(&rt))
}

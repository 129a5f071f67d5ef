// Runs the leaves on the cases in the file `stdin`, and writes each case with its answer.
#![tactic(auto)]

mod buffers;
mod cases;
mod strings;

use std::io;
use std::io::{BufWriter, Write};
use text_lines::said;

// How many bytes of the cases are read.
const MOST: usize = 65_536;

// Runs each case.
fn run(rt: &HostRuntime) -> io::Result<()> {
    let input = text_words::input::front(rt, MOST)?;
    let mut out = BufWriter::new(rt.alloc(), io::writer(rt))?;
    cases::each(rt.alloc(), &mut out, &input)?;
    out.flush()
}

fn main(rt: HostRuntime) -> io::Result<()> {
    said::ended(run(&rt))
}

// Reads a blob from standard input and writes its tree, as dtc prints it, or with the argument `entries` the reader's entries.
// If the blob is refused, one line on standard error says why, and where.
#![tactic(auto)]

mod cause;
mod entries;
mod failure;
mod tree;

use cause::Cause;
use entries::{Entries, NUMBERS};
use failure::Failure;
use std::env::Env;
use std::fmt::Display;
use text_words::input;
use tree::Tree;

// How many bytes are too many for a blob.
const TOO_LONG: usize = 1_048_577;

// Reads the blob and writes what it holds.
fn main(rt: HostRuntime) {
    let done = match input::read(&rt, TOO_LONG) {
        Ok(blob) => read(&rt, &blob, entries_asked(&rt)),
        Err(refused) => Err(Failure::Unread(refused)),
    };
    report(&rt, done);
}

// Says what went wrong.
fn report(rt: &impl Eprint, done: Result<(), Failure>) {
    if let Err(failure) = done {
        let _ = rt.eprintln(failure);
    }
}

// Whether the entries are asked for. The argument is read as bytes: `env::args` refuses all where any is not UTF-8.
fn entries_asked(rt: &impl Env) -> bool {
    let mut word = [0; 8];
    match rt.arg(1, &mut word) {
        Ok(n) => &word[..n] == b"entries".as_slice(),
        Err(_) => false,
    }
}

// Writes a text.
fn show<D: Display + Drop>(rt: &impl Print, text: D) -> Result<(), Failure> {
    rt.print(text).map_err(|_| Failure::Unwritten)
}

// Writes the tree of a blob, or the reader's entries.
fn read<R: Print + Eprint + AllocGlobal>(
    rt: &R,
    blob: &[u8],
    as_entries: bool,
) -> Result<(), Failure> {
    match fdt_reader::survey(blob) {
        Ok(seen) => {
            let mut list = vec![in rt.alloc(); 0; seen.entries.saturating_mul(NUMBERS)]?;
            let answer = fdt_reader::read(blob, &mut list);
            let list = &list;
            if as_entries {
                show(rt, Entries { answer, list })
            } else {
                show(rt, Tree { blob, seen, list })
            }
        }
        Err(fault) => {
            if as_entries {
                let answer = Err(fault.into());
                report(rt, show(rt, Entries { answer, list: &[] }));
            }
            Err(Failure::Refused(fault, Cause::of(blob, fault)))
        }
    }
}

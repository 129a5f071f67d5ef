// The lines of a list in turn, and the finish at its end.
use crate::desk::{Desk, Stop};
use crate::failure::{Cause, Failure};
use fdt_record::Error;
use std::alloc::Global;
use text_calls::line;
use text_calls::line::{Call, Wrong};
use text_calls::nodes::Lines;

// Makes the calls of a list, finishes the blob and writes it; a line that is wrong or refused ends this.
pub fn run<'a, R: Print + AllocGlobal>(rt: &R, list: &'a [u8]) -> Result<(), Failure<'a>> {
    let mut desk = Desk::new(rt.alloc())?;
    let mut last = 0;
    for (line, text) in (1..).zip(list.split_inclusive(|b| *b == b'\n')) {
        let before = Lines { list, count: last };
        if let Err(cause) = run_line(rt.alloc(), &mut desk, before, text) {
            return Err(Failure::Line { line, cause });
        }
        last = line;
    }
    match desk.finish() {
        Ok(blob) => rt.write_all(blob).map_err(|_| Failure::Unwritten),
        Err(error) => Err(Failure::Line {
            line: last,
            cause: Cause::Refused {
                call: "finish",
                error,
            },
        }),
    }
}

// Makes the call of a line, after the lines before it.
fn run_line<'a>(
    alloc: Global,
    desk: &mut Desk,
    before: Lines<'a>,
    line: &'a [u8],
) -> Result<(), Cause<'a>> {
    match line::read(alloc, line) {
        Ok(None) => Ok(()),
        Ok(Some(call)) => match desk.make(&call) {
            Ok(()) => Ok(()),
            Err(Stop::Late) => Err(Cause::Late),
            Err(Stop::OutOfMemory) => Err(Cause::Wrong(Wrong::OutOfMemory)),
            Err(Stop::Refused(error)) => Err(refused(alloc, before, &call, error)),
        },
        Err(wrong) => Err(Cause::Wrong(wrong)),
    }
}

// Why a call is refused, after the lines before it.
fn refused<'a>(alloc: Global, before: Lines<'a>, call: &Call<'a>, error: Error) -> Cause<'a> {
    if error == Error::DuplicateProperty
        && let Some(name) = call.property()
        && let Some(given) = before.given(name)
    {
        return match before.open(alloc) {
            Ok(path) => Cause::Twice {
                call: call.name(),
                path,
                name,
                given,
            },
            Err(_) => Cause::Wrong(Wrong::OutOfMemory),
        };
    }
    Cause::Refused {
        call: call.name(),
        error,
    }
}

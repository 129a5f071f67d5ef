// What went wrong: one line on standard error.
use crate::cause::Cause;
use fdt_walk::Fault;
use std::alloc::AllocError;
use std::fmt;
use std::fmt::{Display, Formatter, Write};
use text_words::input;

// What went wrong.
#[derive(Clone, Copy)]
pub enum Failure {
    Unread(input::Refused),
    // The blob has this fault, and its bytes there say the cause.
    Refused(Fault, Cause),
    Unwritten,
    OutOfMemory,
}

impl From<AllocError> for Failure {
    fn from(_: AllocError) -> Failure {
        Failure::OutOfMemory
    }
}

impl Display for Failure {
    fn fmt<W: Write>(&self, f: &mut Formatter<W>) -> fmt::Result {
        match self {
            Failure::Unread(input::Refused::Unreadable) => f.write_str("the blob cannot be read"),
            Failure::Unread(input::Refused::TooLong) => {
                f.write_str("the blob is longer than 1048576 bytes")
            }
            Failure::Refused(fault, cause) => {
                let number = fdt_walk::number(fault.refusal);
                let place = fault.place;
                write!(f, "refused {number} at {place}: {cause}")
            }
            Failure::Unwritten => f.write_str("the output cannot be written"),
            Failure::Unread(input::Refused::OutOfMemory) | Failure::OutOfMemory => {
                f.write_str("out of memory")
            }
        }
    }
}

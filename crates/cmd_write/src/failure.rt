// Why there is no blob: one line on standard error.
use fdt_record::Error;
use std::alloc::AllocError;
use std::fmt;
use std::fmt::{Display, Formatter, Write};
use text_calls::line::Wrong;
use text_calls::nodes::{Name, Path};
use text_words::input::Refused;

// Why there is no blob.
#[derive(Drop)]
pub enum Failure<'a> {
    Unread(Refused),
    // Line `line` has this cause; the last line has that of the finish.
    Line { line: usize, cause: Cause<'a> },
    Unwritten,
    OutOfMemory,
}

// What is wrong with a line.
#[derive(Drop)]
pub enum Cause<'a> {
    Wrong(Wrong),
    // A reservation after another call.
    Late,
    Refused {
        call: &'static str,
        error: Error,
    },
    // The open node has a property of this name since line `given`.
    Twice {
        call: &'static str,
        path: Path<'a>,
        name: &'a [u8],
        given: usize,
    },
}

impl From<AllocError> for Failure<'_> {
    fn from(_: AllocError) -> Self {
        Failure::OutOfMemory
    }
}

impl Display for Failure<'_> {
    fn fmt<W: Write>(&self, f: &mut Formatter<W>) -> fmt::Result {
        match self {
            Failure::Unread(Refused::Unreadable) => f.write_str("the list cannot be read"),
            Failure::Unread(Refused::TooLong) => {
                f.write_str("the list is longer than 1048575 bytes")
            }
            Failure::Line { line, cause } => write!(f, "line {line}: {cause}"),
            Failure::Unwritten => f.write_str("the blob cannot be written"),
            Failure::Unread(Refused::OutOfMemory) | Failure::OutOfMemory => {
                f.write_str("out of memory")
            }
        }
    }
}

impl Display for Cause<'_> {
    fn fmt<W: Write>(&self, f: &mut Formatter<W>) -> fmt::Result {
        match self {
            Cause::Wrong(wrong) => wrong.fmt(f),
            Cause::Late => f.write_str("reserve must come before all other calls"),
            Cause::Refused { call, error } => {
                let number = u32::from(*error);
                let why = why(*error);
                write!(f, "{call} refused {number}, {why}")
            }
            Cause::Twice {
                call,
                path,
                name,
                given,
            } => {
                let number = u32::from(Error::DuplicateProperty);
                let name = Name(name);
                write!(
                    f,
                    "{call} refused {number}, {path} already has {name} (line {given})"
                )
            }
        }
    }
}

// What a refusal means.
fn why(error: Error) -> &'static str {
    match error {
        Error::PropertyBeforeBeginNode => "a property must be inside a node",
        Error::PropertyAfterEndNode => "properties must come before child nodes",
        Error::PropertyValueTooLarge => "the value is too large",
        Error::TotalSizeTooLarge => "the blob is too large",
        Error::InvalidString => "a name or a string contains a zero byte",
        Error::OutOfOrderEndNode => "there is no open node to end",
        Error::UnclosedNode => "a node is still open (an end is missing)",
        Error::InvalidMemoryReservation => {
            "the reservation is empty or runs past the end of the address space"
        }
        Error::OverlappingMemoryReservations => "two reservations overlap",
        Error::InvalidNodeName => {
            "not a valid node name (a letter, at most 30 of A-Z a-z 0-9 , . _ + - and optionally @ with an address)"
        }
        Error::InvalidPropertyName => {
            "not a valid property name (1 to 31 of A-Z a-z 0-9 , . _ + ? # -)"
        }
        Error::NodeDepthTooLarge => "nodes can be nested at most 64 deep",
        Error::DuplicatePhandle => "this phandle is already in use",
        Error::BlobRoom => "no room left in the blob",
        Error::StringRoom => "no room left for another property name",
        Error::PhandleRoom => "no room left for another phandle",
        Error::Misfit => "the record and the buffers do not match",
        Error::Finished => "the blob is already finished",
        Error::TooManyReservations => "there can be at most 64 reservations",
        Error::DuplicateProperty => "the node already has a property of this name",
    }
}

// Why a blob is refused, from the bytes at the place of its fault.
use fdt_bytes::read_u32;
use fdt_format::{Areas, FDT_BEGIN_NODE, FDT_END, FDT_END_NODE, FDT_PROP, Unreadable};
use fdt_header::Header;
use fdt_walk::{Fault, Refusal};
use std::fmt;
use std::fmt::{Display, Formatter, Write};

// Why a blob is refused.
#[derive(Clone, Copy, Debug, PartialEq, Eq)]
pub enum Cause {
    Header(HeaderCause),
    Reservations,
    Token(TokenCause),
    NameOffset(u32),
    Depth,
}

// Why a header is not good, with what it says.
#[derive(Clone, Copy, Debug, PartialEq, Eq)]
pub enum HeaderCause {
    Short { length: usize },
    Magic(u32),
    TotalSize { size: u32, length: usize },
    Version(u32),
    Compatible(u32),
    ReservationsPlace(usize),
    StructurePlace(usize),
    StructureEnd(usize),
    StringsEnd(usize),
}

// Why a token is not good.
#[derive(Clone, Copy, Debug, PartialEq, Eq)]
pub enum TokenCause {
    NoFinal,
    Unknown(u32),
    NodeName,
    NoNode,
    CutProperty,
    Misplaced,
    NodeOpen,
    GoesOn,
}

impl Display for Cause {
    fn fmt<W: Write>(&self, f: &mut Formatter<W>) -> fmt::Result {
        match self {
            Cause::Header(cause) => cause.fmt(f),
            Cause::Reservations => {
                f.write_str("no pair of zeros ends the reservations inside the blob")
            }
            Cause::Token(cause) => cause.fmt(f),
            Cause::NameOffset(offset) => {
                write!(f, "name offset {offset} meets no 0 in the strings")
            }
            Cause::Depth => {
                f.write_str("a node begins inside 64 others, and at most 64 may be open")
            }
        }
    }
}

impl Display for HeaderCause {
    fn fmt<W: Write>(&self, f: &mut Formatter<W>) -> fmt::Result {
        match self {
            HeaderCause::Short { length } => {
                write!(f, "a header has 40 bytes, and the blob has {length}")
            }
            HeaderCause::Magic(n) => write!(f, "the magic number is 0x{n:08x}, not 0xd00dfeed"),
            HeaderCause::TotalSize { size, length } => {
                write!(
                    f,
                    "the total size is {size}, and the blob has {length} bytes"
                )
            }
            HeaderCause::Version(n) => write!(f, "the version is {n}, not 17"),
            HeaderCause::Compatible(n) => write!(f, "the last compatible version is {n}, not 16"),
            HeaderCause::ReservationsPlace(at) => {
                write!(
                    f,
                    "the reservations begin at {at}, which is not a multiple of 8"
                )
            }
            HeaderCause::StructurePlace(at) => {
                write!(
                    f,
                    "the structure begins at {at}, which is not a multiple of 4"
                )
            }
            HeaderCause::StructureEnd(at) => {
                write!(f, "the structure ends at {at}, past the end of the blob")
            }
            HeaderCause::StringsEnd(at) => {
                write!(f, "the strings end at {at}, past the end of the blob")
            }
        }
    }
}

impl Display for TokenCause {
    fn fmt<W: Write>(&self, f: &mut Formatter<W>) -> fmt::Result {
        f.write_str(match self {
            TokenCause::NoFinal => "the structure ends without the final word 9",
            TokenCause::Unknown(word) => {
                return write!(f, "word {word} is none of the tokens 1, 2, 3, 4 and 9");
            }
            TokenCause::NodeName => {
                "the node's name with its padding does not end inside the structure"
            }
            TokenCause::NoNode => "no node is open that could end here",
            TokenCause::CutProperty => {
                "the property with its padding does not end inside the structure"
            }
            TokenCause::Misplaced => "a property must be inside a node, before its child nodes",
            TokenCause::NodeOpen => "a node is still open at the final word 9",
            TokenCause::GoesOn => "the structure goes on after the final word 9",
        })
    }
}

impl Cause {
    // Why a blob has this fault.
    pub fn of(blob: &[u8], fault: Fault) -> Cause {
        match fault.refusal {
            Refusal::Header => Cause::Header(HeaderCause::of(blob)),
            Refusal::Unreadable(Unreadable::Reservations) => Cause::Reservations,
            Refusal::Unreadable(Unreadable::Structure) => {
                Cause::Token(TokenCause::of(structure_from(blob, fault.place)))
            }
            Refusal::Unreadable(Unreadable::NameOffset) => {
                Cause::of_name_offset(structure_from(blob, fault.place))
            }
            Refusal::Depth => Cause::Depth,
        }
    }

    // Why the name offset of the property at the front of what is left of a structure is not good.
    fn of_name_offset(rest: &[u8]) -> Cause {
        match rest.as_chunks::<4>() {
            ([_, _, offset, ..], _) => Cause::NameOffset(u32::from_be_bytes(*offset)),
            _ => Cause::Token(TokenCause::CutProperty),
        }
    }
}

impl HeaderCause {
    // Why the header of a blob is not good.
    fn of(blob: &[u8]) -> HeaderCause {
        let length = blob.len();
        if length < Header::SIZE {
            return HeaderCause::Short { length };
        }
        let magic = read_u32(blob, 0);
        if magic != Header::MAGIC {
            return HeaderCause::Magic(magic);
        }
        let size = read_u32(blob, 4);
        if size as usize != length {
            return HeaderCause::TotalSize { size, length };
        }
        let version = read_u32(blob, 20);
        if version != Header::VERSION {
            return HeaderCause::Version(version);
        }
        let compatible = read_u32(blob, 24);
        if compatible != Header::LAST_COMP_VERSION {
            return HeaderCause::Compatible(compatible);
        }
        HeaderCause::of_areas(fdt_read_header::areas_of(blob), length)
    }

    // Why areas are not good.
    fn of_areas(a: Areas, length: usize) -> HeaderCause {
        if a.reservations % 8 != 0 {
            HeaderCause::ReservationsPlace(a.reservations)
        } else if a.structure % 4 != 0 {
            HeaderCause::StructurePlace(a.structure)
        } else if length < a.structure_end {
            HeaderCause::StructureEnd(a.structure_end)
        } else {
            HeaderCause::StringsEnd(a.strings_end)
        }
    }
}

impl TokenCause {
    // Why the token at the front of what is left of a structure is not good.
    fn of(rest: &[u8]) -> TokenCause {
        let Some(word) = rest.first_chunk() else {
            return TokenCause::NoFinal;
        };
        match u32::from_be_bytes(*word) {
            FDT_BEGIN_NODE => TokenCause::NodeName,
            FDT_END_NODE => TokenCause::NoNode,
            FDT_PROP => match fdt_read_token::property_size(rest, 0, rest.len()) {
                Some(_) => TokenCause::Misplaced,
                None => TokenCause::CutProperty,
            },
            FDT_END if rest.len() == 4 => TokenCause::NodeOpen,
            FDT_END => TokenCause::GoesOn,
            word => TokenCause::Unknown(word),
        }
    }
}

// The structure of a blob from a place on.
fn structure_from(blob: &[u8], at: usize) -> &[u8] {
    if blob.len() < Header::SIZE {
        return &[];
    }
    let end = fdt_read_header::areas_of(blob).structure_end;
    text_words::part(blob, at, end)
}

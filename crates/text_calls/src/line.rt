// A line of a list: its call with what it is given.
pub use crate::values::Strings;
use crate::values::{MOST, MOST_CELLS, MOST_WIDE_CELLS, Values, byte, cell, first_word, wide_cell};
use crate::verbs::{Kind, Verb};
use std::alloc::{AllocError, AllocFailed, Global};
use std::fmt;
use std::fmt::{Display, Formatter, Write};

// A call with what it is given.
#[derive(Drop)]
pub enum Call<'a> {
    Reserve { address: u64, size: u64 },
    Boot(u32),
    Phandle(u32),
    End,
    Begin(&'a [u8]),
    Property(&'a [u8], Value),
}

// The value of a property.
#[derive(Drop)]
pub enum Value {
    Bytes(Vec<u8>),
    Strings(Strings),
    Cells(Vec<u32>),
    WideCells(Vec<u64>),
}

// Why a line makes no call.
#[derive(Clone, Copy, Debug, PartialEq, Eq)]
pub enum Wrong {
    // Its first word is none of the calls.
    NoCall,
    // It has another form than that of its call.
    Form(Verb),
    OutOfMemory,
}

impl Display for Wrong {
    fn fmt<W: Write>(&self, f: &mut Formatter<W>) -> fmt::Result {
        match self {
            Wrong::NoCall => f.write_str(
                "no such call: expected reserve, boot, begin, string, strings, u32, u64, bytes, null, phandle or end",
            ),
            Wrong::Form(verb) => {
                let form = verb.form();
                write!(f, "expected: {form}")
            }
            Wrong::OutOfMemory => f.write_str("out of memory"),
        }
    }
}

impl From<AllocError> for Wrong {
    fn from(_: AllocError) -> Wrong {
        Wrong::OutOfMemory
    }
}

impl<T: Drop> From<AllocFailed<T>> for Wrong {
    fn from(_: AllocFailed<T>) -> Wrong {
        Wrong::OutOfMemory
    }
}

impl<'a> Call<'a> {
    // What the call is named in a message.
    pub fn name(&self) -> &'static str {
        match self {
            Call::Reserve { .. } => "reserve",
            Call::Boot(_) => "boot",
            Call::Phandle(_) => "phandle",
            Call::End => "end",
            Call::Begin(_) => "begin",
            Call::Property(_, _) => "property",
        }
    }

    // The name of the property that the call gives.
    pub fn property(&self) -> Option<&'a [u8]> {
        match self {
            Call::Phandle(_) => Some(b"phandle"),
            Call::Property(name, _) => Some(*name),
            _ => None,
        }
    }
}

// The word of a line's call and what follows it, if the line makes a call.
pub(crate) fn head(line: &[u8]) -> Option<(&[u8], &[u8])> {
    let line = line.strip_suffix(b"\n").unwrap_or(line);
    let line = line.strip_suffix(b"\r").unwrap_or(line);
    let (word, rest) = first_word(line);
    match word {
        [] | [b'#', ..] => None,
        _ => Some((word, rest)),
    }
}

// The name at the front of a text, and what follows it. `""` is the empty name.
pub(crate) fn name(text: &[u8]) -> Option<(&[u8], &[u8])> {
    let (word, rest) = first_word(text);
    match word {
        [] => None,
        b"\"\"" => Some((&[], rest)),
        _ => Some((word, rest)),
    }
}

// The call of a line, if it makes one.
pub fn read<'a>(alloc: Global, line: &'a [u8]) -> Result<Option<Call<'a>>, Wrong> {
    let Some((word, text)) = head(line) else {
        return Ok(None);
    };
    let Some(verb) = Verb::of(word) else {
        return Err(Wrong::NoCall);
    };
    Values { alloc, verb, text }.call().map(Some)
}

impl<'a> Values<'a> {
    // The call with what the line gives it.
    fn call(self) -> Result<Call<'a>, Wrong> {
        match self.verb {
            Verb::Reserve => self.reservation(),
            Verb::Boot => Ok(Call::Boot(self.one()?)),
            Verb::Phandle => Ok(Call::Phandle(self.one()?)),
            Verb::End => {
                self.none()?;
                Ok(Call::End)
            }
            Verb::Begin => {
                let (name, others) = self.named()?;
                others.none()?;
                Ok(Call::Begin(name))
            }
            Verb::Property(kind) => {
                let (name, others) = self.named()?;
                Ok(Call::Property(name, others.value(kind)?))
            }
        }
    }

    // A reservation: its address and its size.
    fn reservation(self) -> Result<Call<'a>, Wrong> {
        // a third number is kept, so that it is noticed
        match self.each(3, wide_cell)?.as_slice() {
            [address, size] => Ok(Call::Reserve {
                address: *address,
                size: *size,
            }),
            _ => Err(self.wrong()),
        }
    }

    // The name that comes first, and what follows it.
    fn named(self) -> Result<(&'a [u8], Values<'a>), Wrong> {
        match name(self.text) {
            Some((name, text)) => Ok((name, Values { text, ..self })),
            None => Err(self.wrong()),
        }
    }

    // The value of a property.
    fn value(self, kind: Kind) -> Result<Value, Wrong> {
        match kind {
            Kind::Null => {
                self.none()?;
                Ok(Value::Bytes(Vec::new(self.alloc)))
            }
            Kind::Bytes => Ok(Value::Bytes(self.some(MOST, byte)?)),
            Kind::U32 => Ok(Value::Cells(self.some(MOST_CELLS, cell)?)),
            Kind::U64 => Ok(Value::WideCells(self.some(MOST_WIDE_CELLS, wide_cell)?)),
            Kind::String | Kind::Strings => self.string_value(kind),
        }
    }

    // One string, or at least one.
    fn string_value(self, kind: Kind) -> Result<Value, Wrong> {
        let strings = self.strings()?;
        match strings.lengths.as_slice() {
            [] => Err(self.wrong()),
            [_, _, ..] if kind == Kind::String => Err(self.wrong()),
            _ => Ok(Value::Strings(strings)),
        }
    }
}

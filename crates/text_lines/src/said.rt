// Parts of a line, as they are printed.
ghost use Rattle.std.specs.Prelude.{◌≡◌, IfErr};
ghost use Rattle.std.specs.IoError.{error_kind};

use std::fmt::{Display, Formatter, Write};
use std::io::ErrorKind;
use std::{fmt, io};

// How bytes are printed: as a word spells them or in two digits each, with one space before all of them; or in two digits
// each, with a space before every fourth or before each.
#[derive(Clone, Copy, PartialEq, Eq)]
pub enum Style {
    Letters,
    Digits,
    Words,
    Bytes,
}

// Bytes in a style; without `led`, no space comes first.
#[derive(Clone, Copy)]
pub struct Bytes<'a> {
    pub bytes: &'a [u8],
    pub style: Style,
    pub led: bool,
}

// Values with a space between two; with `led`, a space comes first.
#[derive(Clone, Copy)]
pub struct Values<'a, T> {
    pub list: &'a [T],
    pub led: bool,
}

// Words, each with a number of a list; with `led`, a space comes first.
#[derive(Clone, Copy)]
pub struct Named<'a> {
    pub names: &'a [&'a str],
    pub list: &'a [u64],
    pub led: bool,
}

impl Display for Bytes<'_> {
    fn fmt<W: Write>(&self, f: &mut Formatter<W>) -> fmt::Result {
        for (i, b) in self.bytes.iter().enumerate() {
            gap(f, begins(self.style, i) && (self.led || 0 < i))?;
            match self.style {
                Style::Letters => letter(f, *b)?,
                _ => write!(f, "{b:02x}")?,
            }
        }
        Ok(())
    }
}

impl<T: Display> Display for Values<'_, T> {
    fn fmt<W: Write>(&self, f: &mut Formatter<W>) -> fmt::Result {
        for (i, value) in self.list.iter().enumerate() {
            gap(f, self.led || 0 < i)?;
            write!(f, "{value}")?;
        }
        Ok(())
    }
}

impl Display for Named<'_> {
    fn fmt<W: Write>(&self, f: &mut Formatter<W>) -> fmt::Result {
        for (i, (name, n)) in self.names.iter().zip(self.list).enumerate() {
            gap(f, self.led || 0 < i)?;
            write!(f, "{name} {n}")?;
        }
        Ok(())
    }
}

// Prints a space, or nothing.
fn gap<W: Write>(f: &mut Formatter<W>, is: bool) -> fmt::Result {
    if is { f.write_str(" ") } else { Ok(()) }
}

// Prints a byte as a word spells it.
fn letter<W: Write>(f: &mut Formatter<W>, b: u8) -> fmt::Result {
    match b {
        0 => f.write_str("~"),
        b'\\' | b'~' => write!(f, "\\x{b:02x}"),
        b if b.is_ascii_graphic() => f.write_char(char::from(b)),
        _ => write!(f, "\\x{b:02x}"),
    }
}

// Whether byte i begins a group.
fn begins(style: Style, i: usize) -> bool {
    match style {
        Style::Letters | Style::Digits => i == 0,
        Style::Words => i % 4 == 0,
        Style::Bytes => true,
    }
}

// What a program ends with: output that cannot be written is left out, and only missing memory is an error.
pub fn ended(written: io::Result<()>) -> io::Result<()>
    ensures { IfErr result (λ e. error_kind e ≡ ErrorKind.OutOfMemory) }
{
    match written {
        Err(e) if e.kind() == ErrorKind::OutOfMemory => Err(e),
        _ => Ok(()),
    }
}

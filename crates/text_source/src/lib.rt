// The source of a devicetree, as dtc prints it: names, and values as strings, cells or bytes.
#![tactic(auto)]

use std::fmt;
use std::fmt::{Display, Formatter, Write};

// A name. A byte that no source allows there is escaped, so that a name cannot look like something else.
#[derive(Clone, Copy)]
pub struct Name<'a>(pub &'a [u8]);

// The name of a node; an empty one is `/`.
#[derive(Clone, Copy)]
pub struct NodeName<'a>(pub &'a [u8]);

// What follows the name of a property: nothing for an empty value.
#[derive(Clone, Copy)]
pub struct Value<'a>(pub &'a [u8]);

// Tabs in front of a line.
#[derive(Clone, Copy)]
pub struct Indent(pub usize);

impl Display for Name<'_> {
    fn fmt<W: Write>(&self, f: &mut Formatter<W>) -> fmt::Result {
        for &b in self.0 {
            byte(f, b, in_name(b))?;
        }
        Ok(())
    }
}

impl Display for NodeName<'_> {
    fn fmt<W: Write>(&self, f: &mut Formatter<W>) -> fmt::Result {
        if self.0.is_empty() {
            f.write_str("/")
        } else {
            Name(self.0).fmt(f)
        }
    }
}

impl Display for Value<'_> {
    fn fmt<W: Write>(&self, f: &mut Formatter<W>) -> fmt::Result {
        let value = self.0;
        if value.is_empty() {
            Ok(())
        } else if is_text(value) {
            text(f, value)
        } else if value.len() % 4 == 0 {
            cells(f, value)
        } else {
            bytes(f, value)
        }
    }
}

impl Display for Indent {
    fn fmt<W: Write>(&self, f: &mut Formatter<W>) -> fmt::Result {
        for _ in 0..self.0 {
            f.write_str("\t")?;
        }
        Ok(())
    }
}

// Whether a byte is printed as it is.
fn printable(b: u8) -> bool {
    matches!(b, b' '..=b'~')
}

// Whether a byte may be part of a name in a source.
fn in_name(b: u8) -> bool {
    b.is_ascii_alphanumeric() || b",._+*#?@-".contains(&b)
}

// The letter that stands for a byte after a backslash.
fn letter(b: u8) -> Option<char> {
    match b {
        7 => Some('a'),
        8 => Some('b'),
        9 => Some('t'),
        10 => Some('n'),
        11 => Some('v'),
        12 => Some('f'),
        13 => Some('r'),
        b'\\' => Some('\\'),
        b'"' => Some('"'),
        _ => None,
    }
}

// Whether a byte may be part of a value that is printed as strings.
fn in_text(b: u8) -> bool {
    b == 0 || printable(b) || letter(b).is_some()
}

// Whether a value is strings: it ends with a 0, each byte may be part of a string, and at most half are 0.
fn is_text(value: &[u8]) -> bool {
    let zeros = value.iter().filter(|b| **b == 0).count();
    value.last() == Some(&0) && value.iter().all(|b| in_text(*b)) && zeros <= value.len() / 2
}

// A byte as it is or, if it may not stand there, as two hexadecimal digits after `\x`.
fn byte<W: Write>(f: &mut Formatter<W>, b: u8, may_stand: bool) -> fmt::Result {
    if may_stand {
        f.write_char(char::from(b))
    } else {
        write!(f, "\\x{b:02x}")
    }
}

// A byte 0 inside a string, before another byte. Before an octal digit it has three digits, because it would otherwise mean
// another byte.
fn zero<W: Write>(f: &mut Formatter<W>, next: u8) -> fmt::Result {
    if matches!(next, b'0'..=b'7') {
        f.write_str("\\000")
    } else {
        f.write_str("\\0")
    }
}

// A byte of a string, before another byte.
fn character<W: Write>(f: &mut Formatter<W>, b: u8, next: u8) -> fmt::Result {
    if b == 0 {
        zero(f, next)
    } else if let Some(letter) = letter(b) {
        write!(f, "\\{letter}")
    } else {
        byte(f, b, printable(b))
    }
}

// Strings, in quotes, without the last 0.
fn text<W: Write>(f: &mut Formatter<W>, value: &[u8]) -> fmt::Result {
    f.write_str(" = \"")?;
    for [b, next] in value.array_windows::<2>() {
        character(f, *b, *next)?;
    }
    f.write_str("\"")
}

// Numbers of 4 bytes, in angle brackets.
fn cells<W: Write>(f: &mut Formatter<W>, value: &[u8]) -> fmt::Result {
    f.write_str(" = <")?;
    let (cells, _) = value.as_chunks::<4>();
    for (i, cell) in cells.iter().enumerate() {
        let space = if i == 0 { "" } else { " " };
        let n = u32::from_be_bytes(*cell);
        write!(f, "{space}0x{n:02x}")?;
    }
    f.write_str(">")
}

// Bytes, in square brackets.
fn bytes<W: Write>(f: &mut Formatter<W>, value: &[u8]) -> fmt::Result {
    f.write_str(" = [")?;
    for (i, b) in value.iter().enumerate() {
        let space = if i == 0 { "" } else { " " };
        write!(f, "{space}{b:02x}")?;
    }
    f.write_str("]")
}

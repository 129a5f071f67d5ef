// What a line asks to see.
use crate::desk::Desk;
use crate::fields;
use crate::verbs::Look;
use std::fmt::Display;
use std::io;
use std::io::Write;
use text_lines::numbers;
use text_lines::said::{Bytes, Named, Style, Values};

// Writes bytes in a style.
fn bytes(out: &mut impl Write, bytes: &[u8], style: Style, led: bool) -> io::Result<()> {
    let text = Bytes { bytes, style, led };
    write!(out, "{text}")
}

// Writes values.
fn values<T: Display>(out: &mut impl Write, list: &[T], led: bool) -> io::Result<()> {
    let text = Values { list, led };
    write!(out, "{text}")
}

// How long the shown part is, and the part.
fn shown(out: &mut impl Write, part: &[u8], aloud: bool) -> io::Result<()> {
    let len = part.len();
    if aloud {
        write!(out, " length {len}:")?;
        bytes(out, part, Style::Words, true)
    } else {
        write!(out, "{len}")?;
        bytes(out, part, Style::Digits, true)
    }
}

// The fields of the record with their names.
fn record(out: &mut impl Write, d: &Desk) -> io::Result<()> {
    let fields = fields::apart(d.writer.0);
    let text = Named {
        names: &fields::NAMES,
        list: &fields,
        led: d.aloud,
    };
    write!(out, "{text}")
}

// Writes what a line asks to see.
pub fn run(out: &mut impl Write, d: &Desk, look: Look, line: &[u8]) -> io::Result<()> {
    let from = numbers::number(line, 1) as usize;
    let to = numbers::number(line, 2) as usize;
    match look {
        Look::Show => shown(out, d.writer.show(d.blob.front()), d.aloud),
        Look::Record => record(out, d),
        Look::Fields => values(out, &fields::NAMES, d.aloud),
        Look::Blob => bytes(out, d.blob.part(from, to), Style::Words, d.aloud),
        Look::Strings => bytes(out, d.strings.part(from, to), Style::Letters, d.aloud),
        Look::Phandles => values(out, d.phandles.part(from, to), d.aloud),
    }
}

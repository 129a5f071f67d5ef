// The output for a line.
use crate::desk::Desk;
use crate::verbs::{Call, Verb};
use crate::{fields, looks};
use std::io;
use std::io::Write;
use text_lines::said::Values;
use text_lines::sums;

// A report: what a call answered, the record's fields, and the check values of what it was lent.
fn report(out: &mut impl Write, d: &Desk) -> io::Result<()> {
    let number = fdt_record::number(d.answer);
    let handle = d.answer.unwrap_or(0);
    let fields = fields::apart(d.writer.0);
    let checks = [
        sums::bytes(d.blob.front()),
        sums::bytes(d.strings.front()),
        sums::table(d.phandles.front()),
    ];
    let fields = Values {
        list: &fields,
        led: true,
    };
    let checks = Values {
        list: &checks,
        led: true,
    };
    write!(out, "{number} {handle}{fields}{checks}")
}

// What a call answered, and the handle if it begins a node.
fn answer(out: &mut impl Write, d: &Desk, call: Call) -> io::Result<()> {
    let number = fdt_record::number(d.answer);
    write!(out, " {number}")?;
    if call == Call::BeginNode {
        let handle = d.answer.unwrap_or(0);
        write!(out, " handle {handle}")?;
    }
    Ok(())
}

// Writes a line again, and what it asks for, in the mode `aloud`.
fn aloud(out: &mut impl Write, d: &Desk, verb: Verb, line: &[u8]) -> io::Result<()> {
    out.write_all(line)?;
    match verb {
        Verb::Call(call) => {
            out.write_all(b":")?;
            answer(out, d, call)?;
        }
        Verb::Look(look) => {
            out.write_all(b":")?;
            looks::run(out, d, look, line)?;
        }
        _ => {}
    }
    out.write_all(b"\n")
}

// Writes what a line asks for, in the mode `quiet`.
fn quiet(out: &mut impl Write, d: &Desk, verb: Verb, line: &[u8]) -> io::Result<()> {
    match verb {
        Verb::Call(_) => report(out, d)?,
        Verb::Look(look) => looks::run(out, d, look, line)?,
        _ => return Ok(()),
    }
    out.write_all(b"\n")
}

// Writes the output for a line that was run.
pub fn line(out: &mut impl Write, d: &Desk, verb: Verb, line: &[u8]) -> io::Result<()> {
    if d.aloud {
        aloud(out, d, verb, line)
    } else {
        quiet(out, d, verb, line)
    }
}

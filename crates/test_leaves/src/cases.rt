// A case is a line: the words that are written again before the answer, and after a bar what else the leaf is given.
use crate::{buffers, strings};
use fdt_reserve::{FdtReserveEntry, InvalidMemoryReservation};
use std::alloc::{AllocError, Global};
use std::io;
use std::io::Write;
use text_lines::{numbers, spelling};

// How many bytes of a name or a buffer are read.
const MOST: usize = 4_096;

// How many numbers of reservations are read.
const PAIRS: usize = 8;

// The bytes that word k spells.
pub fn spelled(alloc: Global, words: &[u8], k: usize) -> Result<Vec<u8>, AllocError> {
    spelling::bytes(alloc, words, k, MOST)
}

// Writes 0 for a test that is passed, and otherwise the number of the refusal, which is part of the format of the cases.
fn told(out: &mut impl Write, passed: bool, refusal: u32) -> io::Result<()> {
    write!(out, "{}", if passed { 0 } else { refusal })
}

// Makes one reservation. 99 if it has another address or size.
fn reservation(out: &mut impl Write, address: u64, size: u64) -> io::Result<()> {
    match FdtReserveEntry::new(address, size) {
        Ok(e) => told(out, e.address == address && e.size == size, 99),
        Err(InvalidMemoryReservation) => told(out, false, 8),
    }
}

// Writes the answer to a case. The first word says which leaf is called; a word that is not listed is taken for `align`.
fn answer(alloc: Global, out: &mut impl Write, asked: &[u8], given: &[u8]) -> io::Result<()> {
    let name = spelled(alloc, asked, 1)?;
    match text_lines::word(asked, 0) {
        b"node" => told(out, fdt_names::node_name_valid(&name), 10),
        b"property" => told(out, fdt_names::property_name_valid(&name), 11),
        b"zero" => told(out, !fdt_names::has_zero(&name), 5),
        b"reservation" => reservation(out, numbers::number(asked, 1), numbers::number(asked, 2)),
        b"overlap" => {
            let pairs = numbers::values(alloc, asked, 1, PAIRS, |n| n)?;
            told(out, !fdt_reserve::check_overlapping(&pairs), 9)
        }
        b"find" => strings::find(out, &spelled(alloc, asked, 3)?, &name),
        b"ask" => {
            let room = numbers::number(asked, 4) as usize;
            strings::ask(out, &spelled(alloc, given, 0)?, room, &name)
        }
        call => buffers::answer(alloc, out, call, numbers::number(asked, 3) as usize, given),
    }
}

// Writes the case on a line and its answer.
fn case(alloc: Global, out: &mut impl Write, line: &[u8]) -> io::Result<()> {
    let mut parts = line.splitn(2, |b| *b == b'|');
    let asked = parts.next().unwrap_or(&[]);
    let given = parts.next().unwrap_or(&[]);
    out.write_all(asked)?;
    out.write_all(b": ")?;
    answer(alloc, out, asked, given)?;
    out.write_all(b"\n")
}

// Writes each case.
pub fn each(alloc: Global, out: &mut impl Write, lines: &[u8]) -> io::Result<()> {
    for line in lines.split_inclusive(|b| *b == b'\n') {
        case(alloc, out, line.strip_suffix(b"\n").unwrap_or(line))?;
    }
    Ok(())
}

// The lines of a list in turn, and what is kept from one to the next.
use std::alloc::{AllocError, Global};
use std::io;
use std::io::Write;
use text_lines::said::Values;
use text_lines::{lists, numbers, spelling, sums};

// How long the array is that blobs are read from.
const BLOB: usize = 65_600;

// How long the list is that the reader fills.
const LIST: usize = 65_536;

// What each number of the list is before a call.
const BEFORE: u32 = 0xeeee_eeee;

// The array; how many of its bytes the next reads are lent; the list, and how much of it the last read was lent.
#[derive(Drop)]
pub struct Desk {
    blob: Vec<u8>,
    lent: usize,
    list: Vec<u32>,
    room: usize,
}

impl Desk {
    // Zeros, and nothing lent.
    pub fn new(alloc: Global) -> Result<Desk, AllocError> {
        Ok(Desk {
            blob: vec![in alloc; 0; BLOB]?,
            lent: 0,
            list: vec![in alloc; 0; LIST]?,
            room: 0,
        })
    }

    // Reads the lent bytes into the list, and writes the answer, the place of the first fault, and the list's check value.
    fn read(&mut self, out: &mut impl Write) -> io::Result<()> {
        let blob = text_words::part(&self.blob, 0, self.lent);
        let room = self.room.min(self.list.len());
        let list = &mut self.list[..room];
        list.fill(BEFORE);
        let answer = fdt_reader::read(blob, list);
        let v = fdt_reader::values_of(answer);
        let number = fdt_reader::number(answer);
        let place = fdt_reader::fault_place(fdt_reader::survey(blob));
        let (boot, reservations, entries) = (v.boot, v.reservations, v.entries);
        let check = sums::table(list);
        writeln!(
            out,
            "{number} {boot} {reservations} {entries} {place} {check}"
        )
    }

    // Runs a line.
    pub fn run(&mut self, out: &mut impl Write, line: &[u8]) -> io::Result<()> {
        let first = numbers::number(line, 1) as usize;
        match text_lines::word(line, 0) {
            b"put" => lists::put(&mut self.blob, first, spelling::word(line, 2)),
            b"lend" => self.lent = first,
            b"read" => {
                self.room = first;
                self.read(out)?;
            }
            b"list" => {
                let to = (numbers::number(line, 2) as usize).min(self.room);
                let list = text_words::part(&self.list, first, to);
                let text = Values { list, led: false };
                writeln!(out, "{text}")?;
            }
            _ => {
                out.write_all(line)?;
                out.write_all(b"\n")?;
            }
        }
        Ok(())
    }
}

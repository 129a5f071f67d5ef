// What is kept from line to line.
use crate::lent::Lent;
use crate::told;
use crate::verbs::Verb;
use fdt_record::Error;
use fdt_writer::{Answered, FdtWriter};
use std::alloc::{AllocError, Global};
use std::io;
use std::io::Write;

// How long the arrays are: each is longer than its ceiling.
const BLOB: usize = 65_600;

const STRINGS: usize = 8_256;

pub const PHANDLES: usize = 320;

// What no call wrote in the arrays: bytes ee.
pub const MARK: u8 = 0xee;

pub const WIDE_MARK: u32 = 0xeeee_eeee;

// A writer; its last answer, with the number of the handle that it gave or 0; the arrays; whether lines are written again.
#[derive(Drop)]
pub struct Desk {
    pub alloc: Global,
    pub writer: FdtWriter,
    pub answer: Result<usize, Error>,
    pub blob: Lent<u8>,
    pub strings: Lent<u8>,
    pub phandles: Lent<u32>,
    pub aloud: bool,
}

impl Desk {
    // No writer yet: the closed one, which an opening without room returns, and nothing lent.
    pub fn new(alloc: Global) -> Result<Desk, AllocError> {
        Ok(Desk {
            alloc,
            writer: FdtWriter::new(&mut [], &[], &[]).writer,
            answer: Ok(0),
            blob: Lent::new(alloc, BLOB, MARK)?,
            strings: Lent::new(alloc, STRINGS, MARK)?,
            phandles: Lent::new(alloc, PHANDLES, WIDE_MARK)?,
            aloud: true,
        })
    }

    // Keeps an answer without a handle.
    pub fn keep(&mut self, a: Answered<()>) {
        self.writer = a.writer;
        self.answer = a.answer.map(|()| 0);
    }

    // Runs a line and writes its output; `aloud` and `quiet` have none.
    pub fn run(&mut self, out: &mut impl Write, line: &[u8]) -> io::Result<()> {
        let verb = Verb::of(text_lines::word(line, 0));
        match verb {
            Verb::Call(call) => self.call(call, line)?,
            Verb::Change(change) => self.change(change, line)?,
            Verb::Aloud | Verb::Quiet => {
                self.aloud = verb == Verb::Aloud;
                return Ok(());
            }
            Verb::Look(_) | Verb::Remark => {}
        }
        told::line(out, self, verb, line)
    }
}

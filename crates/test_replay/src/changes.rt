// What a line changes for the calls after it: the arrays, how much of them is lent, the record.
use crate::desk::{Desk, MARK, PHANDLES, WIDE_MARK};
use crate::fields;
use crate::verbs::Change;
use fdt_writer::FdtWriter;
use std::alloc::AllocError;
use text_lines::{lists, numbers, spelling};

impl Desk {
    // Changes how much of the arrays is lent.
    fn lend(&mut self, line: &[u8]) {
        self.blob.count = numbers::number(line, 1) as usize;
        self.strings.count = numbers::number(line, 2) as usize;
        self.phandles.count = numbers::number(line, 3) as usize;
    }

    // Marks all of the arrays.
    fn clear(&mut self) {
        self.blob.all.fill(MARK);
        self.strings.all.fill(MARK);
        self.phandles.all.fill(WIDE_MARK);
    }

    // Makes the change that a line asks for.
    pub fn change(&mut self, change: Change, line: &[u8]) -> Result<(), AllocError> {
        let at = numbers::number(line, 1) as usize;
        match change {
            Change::Buffers => {
                self.lend(line);
                self.clear();
            }
            Change::Lend => self.lend(line),
            Change::PutBlob => lists::put(&mut self.blob.all, at, spelling::word(line, 2)),
            Change::PutStrings => lists::put(&mut self.strings.all, at, spelling::word(line, 2)),
            Change::PutPhandles => {
                let cells = numbers::values(self.alloc, line, 2, PHANDLES, numbers::low)?;
                lists::put(&mut self.phandles.all, at, cells.into_iter());
            }
            Change::Set => self.writer = FdtWriter(fields::with(self.writer.0, line)),
        }
        Ok(())
    }
}

// The answer of the reader and its entries, a line each.
use fdt_reader::{ReadError, Values};
use std::fmt;
use std::fmt::{Display, Formatter, Write};

// The numbers of an entry: its token, its place, the place of its name and the length of its value.
pub const NUMBERS: usize = 4;

// The answer of the reader, and the list of its entries.
#[derive(Clone, Copy)]
pub struct Entries<'a> {
    pub answer: Result<Values, ReadError>,
    pub list: &'a [u32],
}

// The number of the answer, the boot number, and how many reservations and entries there are; then the numbers of each entry.
impl Display for Entries<'_> {
    fn fmt<W: Write>(&self, f: &mut Formatter<W>) -> fmt::Result {
        let number = fdt_reader::number(self.answer);
        let values = fdt_reader::values_of(self.answer);
        writeln!(
            f,
            "{number} {} {} {}",
            values.boot, values.reservations, values.entries
        )?;
        let (entries, _) = self.list.as_chunks::<NUMBERS>();
        for [token, place, name, size] in entries {
            writeln!(f, "{token} {place} {name} {size}")?;
        }
        Ok(())
    }
}

// The tree of a blob, from the reader's entries.
use crate::entries::NUMBERS;
use fdt_format::{FDT_BEGIN_NODE, FDT_PROP};
use fdt_reader::Surveyed;
use std::fmt;
use std::fmt::{Display, Formatter, Write};
use text_source::{Indent, Name, NodeName, Value};

// A blob, its survey, and the list of its entries.
#[derive(Clone, Copy)]
pub struct Tree<'a> {
    pub blob: &'a [u8],
    pub seen: Surveyed,
    pub list: &'a [u32],
}

impl Display for Tree<'_> {
    fn fmt<W: Write>(&self, f: &mut Formatter<W>) -> fmt::Result {
        let boot = self.seen.areas.boot;
        write!(f, "/dts-v1/;\n// boot_cpuid_phys: 0x{boot:x}\n\n")?;
        self.reservations(f)?;
        self.nodes(f)
    }
}

impl Tree<'_> {
    // The lines of the reservations.
    fn reservations<W: Write>(&self, f: &mut Formatter<W>) -> fmt::Result {
        let (numbers, _) = from(self.blob, self.seen.areas.reservations).as_chunks::<8>();
        let (pairs, _) = numbers.as_chunks::<2>();
        for [address, size] in pairs.iter().take(self.seen.reservations) {
            let address = u64::from_be_bytes(*address);
            let size = u64::from_be_bytes(*size);
            writeln!(f, "/memreserve/\t0x{address:016x} 0x{size:016x};")?;
        }
        Ok(())
    }

    // The lines of the nodes. An empty line comes before each but the first.
    fn nodes<W: Write>(&self, f: &mut Formatter<W>) -> fmt::Result {
        let (entries, _) = self.list.as_chunks::<NUMBERS>();
        let mut depth: usize = 0;
        for (n, [token, place, name, size]) in entries.iter().enumerate() {
            match *token {
                FDT_BEGIN_NODE => {
                    let apart = if n == 0 { "" } else { "\n" };
                    let name = NodeName(self.name(*name));
                    writeln!(f, "{apart}{}{name} {{", Indent(depth))?;
                    depth = depth.saturating_add(1);
                }
                FDT_PROP => {
                    let name = Name(self.name(*name));
                    let value = Value(self.value(*place, *size));
                    writeln!(f, "{}{name}{value};", Indent(depth))?;
                }
                _ => {
                    depth = depth.saturating_sub(1);
                    writeln!(f, "{}}};", Indent(depth))?;
                }
            }
        }
        Ok(())
    }

    // The name at a place: its bytes up to the next 0.
    fn name(&self, at: u32) -> &[u8] {
        let rest = from(self.blob, at as usize);
        rest.split(|b| *b == 0).next().unwrap_or(rest)
    }

    // The value of the property at a place.
    fn value(&self, at: u32, size: u32) -> &[u8] {
        let rest = from(self.blob, at as usize + 12);
        rest.get(..size as usize).unwrap_or(rest)
    }
}

// The bytes from a place on.
fn from(blob: &[u8], at: usize) -> &[u8] {
    blob.get(at..).unwrap_or(&[])
}

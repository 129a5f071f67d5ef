// The writer's calls, with the arguments that a line gives.
use crate::desk::Desk;
use crate::verbs::{Call, Kind};
use fdt_nodes::FdtWriterNode;
use fdt_writer::FdtWriter;
use std::alloc::AllocError;
use text_lines::{numbers, spelling};

// How many bytes of a name are read.
const NAME: usize = 4_096;

// How many bytes of a value are read.
const VALUE: usize = 65_536;

// How many numbers of a value are read.
const NUMBERS: usize = 1_024;

// How many lengths of strings are read.
const LENGTHS: usize = 64;

// How many numbers of reservations are read.
const PAIRS: usize = 136;

impl Desk {
    // Opens a writer without reservations.
    fn open(&mut self) {
        let a = FdtWriter::new(
            self.blob.front_mut(),
            self.strings.front(),
            self.phandles.front(),
        );
        self.keep(a);
    }

    // Opens a writer with reservations.
    fn open_with(&mut self, pairs: &[u64]) {
        let a = FdtWriter::new_with_mem_reserv(
            self.blob.front_mut(),
            self.strings.front(),
            self.phandles.front(),
            pairs,
        );
        self.keep(a);
    }

    // Begins a node.
    fn begin_node(&mut self, name: &[u8]) {
        let a = self.writer.begin_node(self.blob.front_mut(), name);
        self.writer = a.writer;
        self.answer = a.answer.map(|node| node.0);
    }

    // Ends a node by the number of a handle.
    fn end_node(&mut self, handle: usize) {
        let a = self
            .writer
            .end_node(self.blob.front_mut(), FdtWriterNode(handle));
        self.keep(a);
    }

    // Finishes the blob.
    fn finish(&mut self) {
        let a = self
            .writer
            .finish(self.blob.front_mut(), self.strings.front());
        self.keep(a);
    }

    // Gives the node a phandle.
    fn property_phandle(&mut self, n: u32) {
        let (blob, strings) = (self.blob.front_mut(), self.strings.front_mut());
        let a = self
            .writer
            .property_phandle(blob, strings, self.phandles.front_mut(), n);
        self.keep(a);
    }

    // Writes a property of the kind that a line asks for.
    fn property(&mut self, kind: Kind, line: &[u8]) -> Result<(), AllocError> {
        let alloc = self.alloc;
        let name = spelling::bytes(alloc, line, 1, NAME)?;
        let value = spelling::bytes(alloc, line, 2, VALUE)?;
        let (w, blob, strings) = (self.writer, self.blob.front_mut(), self.strings.front_mut());
        let a = match kind {
            Kind::Bytes => w.property(blob, strings, &name, &value),
            Kind::Null => w.property_null(blob, strings, &name),
            Kind::String => w.property_string(blob, strings, &name, &value),
            Kind::StringList => {
                let lengths = numbers::values(alloc, line, 3, LENGTHS, |n| n as usize)?;
                w.property_string_list(blob, strings, &name, &value, &lengths)
            }
            Kind::U32 => w.property_u32(blob, strings, &name, numbers::cell(line, 2)),
            Kind::U64 => w.property_u64(blob, strings, &name, numbers::number(line, 2)),
            Kind::ArrayU32 => {
                let cells = numbers::values(alloc, line, 2, NUMBERS, numbers::low)?;
                w.property_array_u32(blob, strings, &name, &cells)
            }
            Kind::ArrayU64 => {
                let list = numbers::values(alloc, line, 2, NUMBERS, |n| n)?;
                w.property_array_u64(blob, strings, &name, &list)
            }
        };
        self.keep(a);
        Ok(())
    }

    // Makes the call that a line asks for.
    pub fn call(&mut self, call: Call, line: &[u8]) -> Result<(), AllocError> {
        match call {
            Call::New => self.open(),
            Call::NewWithMemReserv => self.open_with(&numbers::values(
                self.alloc,
                line,
                1,
                PAIRS,
                |n| n,
            )?),
            Call::SetBootCpuidPhys => {
                self.keep(self.writer.set_boot_cpuid_phys(numbers::cell(line, 1)))
            }
            Call::BeginNode => self.begin_node(&spelling::bytes(self.alloc, line, 1, NAME)?),
            Call::EndNode => self.end_node(numbers::number(line, 1) as usize),
            Call::Finish => self.finish(),
            Call::PropertyPhandle => self.property_phandle(numbers::cell(line, 1)),
            Call::Property(kind) => self.property(kind, line)?,
        }
        Ok(())
    }
}

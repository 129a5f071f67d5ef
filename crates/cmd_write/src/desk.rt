// The writer with its buffers, and what is kept from call to call.
use fdt_nodes::FdtWriterNode;
use fdt_record::{BLOB_CEILING, Error, PHANDLES_CEILING, STRINGS_CEILING};
use fdt_writer::{Answered, FdtWriter};
use std::alloc::{AllocError, AllocFailed, Global};
use text_calls::line::{Call, Value};

// The writer; its buffers, each as long as its ceiling; the reservations so far, address and size in turn as the writer takes
// them; and whether another call was made.
#[derive(Drop)]
pub struct Desk {
    writer: FdtWriter,
    blob: Vec<u8>,
    strings: Vec<u8>,
    phandles: Vec<u32>,
    reservations: Vec<u64>,
    late: bool,
}

// Why a call is not made.
#[derive(Clone, Copy, Debug, PartialEq, Eq)]
pub enum Stop {
    // A reservation after another call.
    Late,
    Refused(Error),
    OutOfMemory,
}

impl From<Error> for Stop {
    fn from(error: Error) -> Stop {
        Stop::Refused(error)
    }
}

impl From<AllocFailed<u64>> for Stop {
    fn from(_: AllocFailed<u64>) -> Stop {
        Stop::OutOfMemory
    }
}

impl Desk {
    // A desk whose writer is opened without reservations.
    pub fn new(alloc: Global) -> Result<Desk, AllocError> {
        let mut blob = vec![in alloc; 0; BLOB_CEILING]?;
        let strings = vec![in alloc; 0; STRINGS_CEILING]?;
        let phandles = vec![in alloc; 0; PHANDLES_CEILING]?;
        let opened = FdtWriter::new(&mut blob, &strings, &phandles);
        Ok(Desk {
            writer: opened.writer,
            blob,
            strings,
            phandles,
            reservations: Vec::new(alloc),
            late: false,
        })
    }

    // Makes a call.
    pub fn make(&mut self, call: &Call) -> Result<(), Stop> {
        match call {
            Call::Reserve { address, size } => return self.reserve(*address, *size),
            Call::Boot(n) => self.answered(self.writer.set_boot_cpuid_phys(*n))?,
            Call::Phandle(n) => self.phandle(*n)?,
            Call::End => self.end()?,
            Call::Begin(name) => self.begin(name)?,
            Call::Property(name, value) => self.property(name, value)?,
        }
        Ok(())
    }

    // Finishes the blob, and shows it.
    pub fn finish(&mut self) -> Result<&[u8], Error> {
        let finished = self.writer.finish(&mut self.blob, &self.strings);
        self.answered(finished)?;
        Ok(self.writer.show(&self.blob))
    }

    // Keeps the writer of an answer.
    fn answered<T: Copy>(&mut self, answered: Answered<T>) -> Result<T, Error> {
        self.writer = answered.writer;
        self.late = true;
        answered.answer
    }

    // Opens the writer again, with one reservation more.
    fn reserve(&mut self, address: u64, size: u64) -> Result<(), Stop> {
        if self.late {
            return Err(Stop::Late);
        }
        self.reservations.push(address)?;
        self.reservations.push(size)?;
        let opened = FdtWriter::new_with_mem_reserv(
            &mut self.blob,
            &self.strings,
            &self.phandles,
            &self.reservations,
        );
        self.writer = opened.writer;
        Ok(opened.answer?)
    }

    // Gives the node a phandle.
    fn phandle(&mut self, n: u32) -> Result<(), Error> {
        let answered = self
            .writer
            .property_phandle(&mut self.blob, &mut self.strings, &mut self.phandles, n);
        self.answered(answered)
    }

    // Begins a node.
    fn begin(&mut self, name: &[u8]) -> Result<(), Error> {
        let begun = self.writer.begin_node(&mut self.blob, name);
        self.answered(begun).map(|_| ())
    }

    // Ends the node that was begun last: its handle is the depth.
    fn end(&mut self) -> Result<(), Error> {
        let node = FdtWriterNode(self.writer.0.node_depth);
        let ended = self.writer.end_node(&mut self.blob, node);
        self.answered(ended)
    }

    // Gives the node a property.
    fn property(&mut self, name: &[u8], value: &Value) -> Result<(), Error> {
        let Desk {
            writer,
            blob,
            strings,
            ..
        } = self;
        let answered = match value {
            Value::Bytes(bytes) => writer.property(blob, strings, name, bytes),
            Value::Strings(texts) => {
                writer.property_string_list(blob, strings, name, &texts.bytes, &texts.lengths)
            }
            Value::Cells(numbers) => writer.property_array_u32(blob, strings, name, numbers),
            Value::WideCells(numbers) => writer.property_array_u64(blob, strings, name, numbers),
        };
        self.answered(answered)
    }
}

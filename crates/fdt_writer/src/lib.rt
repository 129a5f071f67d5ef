// The devicetree writer: each method takes the writer and returns an answer with the new writer.
#![tactic(auto)]

ghost use Rattle.std.specs.Prelude.{◌≡◌, List, ℕ, IfOk};
ghost use Rattle.fdt_record.specs.Answers.{Done, answer_of};
ghost use Rattle.fdt_record.specs.declared.Record.{Record};
ghost use Rattle.fdt_calls.specs.Calls.{new, new_with_mem_reserv, set_boot_cpuid_phys, begin_node, end_node, property, property_null, property_string, property_string_list, property_u32, property_u64, property_array_u32, property_array_u64, property_phandle, finish, show};
ghost use Rattle.fdt_calls.specs.Called.{desk_of, Called, handle_of, shown_part};
ghost use Rattle.fdt_writer.specs.Outcomes.{outcome_of};

use fdt_nodes::FdtWriterNode;
use fdt_property_kinds::Texts;
use fdt_record::{Error, Outcome, Record};

// A writer: the record of its buffers and of the calls so far. The buffers are lent to each call.
#[repr(C)]
#[derive(Clone, Copy)]
pub struct FdtWriter(pub Record);

// The answer of a call, which for `begin_node` has the node's handle, and the new writer.
#[derive(Clone, Copy)]
pub struct Answered<T> {
    pub answer: Result<T, Error>,
    pub writer: FdtWriter,
}

// The outcome of a call on the record, with the record as a writer.
impl<T: Copy> From<Outcome<T>> for Answered<T> {
    ghost from_gives = { λ outcome answered. outcome_of answered ≡ outcome };

    fn from(outcome: Outcome<T>) -> Answered<T> {
        Answered {
            answer: outcome.answer,
            writer: FdtWriter(outcome.after),
        }
    }
}

// Each statement says that the call of that name was made (`Called` in crates/fdt_calls/specs): it gives the call's answer, and leaves
// the call's record and bytes. It holds for any buffers that the method is not lent and, of an opening, for any record before it.
// The names are those of the original crate's methods, so numbers of 4 and of 8 bytes have methods of their own.
impl FdtWriter {
    // Opens a writer over a blob buffer, a string buffer and a table of phandles, with no memory reservations.
    // Refused 14 only. A refused opening returns a closed writer, which every call except `show` refuses.
    pub fn new(blob: &mut [u8], strings: &[u8], phandles: &[u32]) -> Answered<()>
        ensures { (w : Record) → Called new (desk_of w blob.old strings.now phandles.now) result.answer (desk_of result.writer.0 blob.new strings.now phandles.now) }
    {
        FdtWriter::new_with_mem_reserv(blob, strings, phandles, &[])
    }

    // Opens a writer with memory reservations, given as address, size, address, size and so on, as C lends them.
    // Refused 17, 19, 8, 9, 14, in this order.
    pub fn new_with_mem_reserv(
        blob: &mut [u8],
        strings: &[u8],
        phandles: &[u32],
        mem_reservations: &[u64],
    ) -> Answered<()>
        ensures { (w : Record) → Called (new_with_mem_reserv mem_reservations.now) (desk_of w blob.old strings.now phandles.now) result.answer (desk_of result.writer.0 blob.new strings.now phandles.now) }
    {
        fdt_opening::open(blob, strings, phandles, mem_reservations).into()
    }

    // Sets the boot processor's number in the header.
    // Refused 18, 17, in this order.
    pub fn set_boot_cpuid_phys(self, boot_cpuid_phys: u32) -> Answered<()>
        ensures { (blob strings phandles : List ℕ) → Called (set_boot_cpuid_phys boot_cpuid_phys) (desk_of self.0 blob strings phandles) result.answer (desk_of result.writer.0 blob strings phandles) }
    {
        fdt_finish::set_boot_cpuid_phys(self.0, boot_cpuid_phys).into()
    }

    // Begins a node inside the open one, and returns its handle.
    // Refused 18, 17, 12, 5, 10, 14, in this order.
    pub fn begin_node(self, blob: &mut [u8], name: &[u8]) -> Answered<FdtWriterNode>
        ensures { (strings phandles : List ℕ) → Called (begin_node name.now) (desk_of self.0 blob.old strings phandles) (answer_of result.answer) (desk_of result.writer.0 blob.new strings phandles) × IfOk result.answer (λ handle. handle ≡ handle_of (desk_of self.0 blob.old strings phandles) name.now) }
    {
        fdt_nodes::begin_node(self.0, blob, name).into()
    }

    // Ends the open node, whose handle must be given.
    // Refused 18, 17, 6, 14, in this order.
    pub fn end_node(self, blob: &mut [u8], node: FdtWriterNode) -> Answered<()>
        ensures { (strings phandles : List ℕ) → Called (end_node node.0) (desk_of self.0 blob.old strings phandles) result.answer (desk_of result.writer.0 blob.new strings phandles) }
    {
        fdt_nodes::end_node(self.0, blob, node).into()
    }

    // Writes a property of the open node: a name and the bytes of its value.
    // Refused 18, 17, 2, 1, 5, 11, 20, 15, 14, in this order.
    pub fn property(
        self,
        blob: &mut [u8],
        strings: &mut [u8],
        name: &[u8],
        val: &[u8],
    ) -> Answered<()>
        ensures { (phandles : List ℕ) → Called (property name.now val.now) (desk_of self.0 blob.old strings.old phandles) result.answer (desk_of result.writer.0 blob.new strings.new phandles) }
    {
        fdt_property_kinds::write_property(self.0, blob, strings, name, val).into()
    }

    // Writes a property with an empty value.
    // Refused 18, 17, 2, 1, 5, 11, 20, 15, 14, in this order.
    pub fn property_null(self, blob: &mut [u8], strings: &mut [u8], name: &[u8]) -> Answered<()>
        ensures { (phandles : List ℕ) → Called (property_null name.now) (desk_of self.0 blob.old strings.old phandles) result.answer (desk_of result.writer.0 blob.new strings.new phandles) }
    {
        self.property(blob, strings, name, &[])
    }

    // Writes a property whose value is one string and a 0.
    // Refused 18, 17, 5 for a string, 2, 1, 5 for the name, 11, 20, 15, 14, in this order.
    pub fn property_string(
        self,
        blob: &mut [u8],
        strings: &mut [u8],
        name: &[u8],
        val: &[u8],
    ) -> Answered<()>
        ensures { (phandles : List ℕ) → Called (property_string name.now val.now) (desk_of self.0 blob.old strings.old phandles) result.answer (desk_of result.writer.0 blob.new strings.new phandles) }
    {
        self.property_string_list(blob, strings, name, val, &[val.len()])
    }

    // Writes a property whose value is a list of strings, each with a 0. They are given as their joined bytes and their lengths, as C lends them.
    // Refused 18, 17, 5 for a string, 2, 1, 5 for the name, 11, 20, 15, 14, in this order.
    pub fn property_string_list(
        self,
        blob: &mut [u8],
        strings: &mut [u8],
        name: &[u8],
        values: &[u8],
        lengths: &[usize],
    ) -> Answered<()>
        ensures { (phandles : List ℕ) → Called (property_string_list name.now values.now lengths.now) (desk_of self.0 blob.old strings.old phandles) result.answer (desk_of result.writer.0 blob.new strings.new phandles) }
    {
        let texts = Texts {
            joined: values,
            lengths,
        };
        fdt_property_kinds::write_property(self.0, blob, strings, name, texts).into()
    }

    // Writes a property whose value is one number of 4 bytes.
    // Refused 18, 17, 2, 1, 5, 11, 20, 15, 14, in this order.
    pub fn property_u32(
        self,
        blob: &mut [u8],
        strings: &mut [u8],
        name: &[u8],
        val: u32,
    ) -> Answered<()>
        ensures { (phandles : List ℕ) → Called (property_u32 name.now val) (desk_of self.0 blob.old strings.old phandles) result.answer (desk_of result.writer.0 blob.new strings.new phandles) }
    {
        self.property_array_u32(blob, strings, name, &[val])
    }

    // Writes a property whose value is one number of 8 bytes.
    // Refused 18, 17, 2, 1, 5, 11, 20, 15, 14, in this order.
    pub fn property_u64(
        self,
        blob: &mut [u8],
        strings: &mut [u8],
        name: &[u8],
        val: u64,
    ) -> Answered<()>
        ensures { (phandles : List ℕ) → Called (property_u64 name.now val) (desk_of self.0 blob.old strings.old phandles) result.answer (desk_of result.writer.0 blob.new strings.new phandles) }
    {
        self.property_array_u64(blob, strings, name, &[val])
    }

    // Writes a property whose value is a list of numbers of 4 bytes each.
    // Refused 18, 17, 2, 1, 5, 11, 20, 15, 14, in this order.
    pub fn property_array_u32(
        self,
        blob: &mut [u8],
        strings: &mut [u8],
        name: &[u8],
        numbers: &[u32],
    ) -> Answered<()>
        ensures { (phandles : List ℕ) → Called (property_array_u32 name.now numbers.now) (desk_of self.0 blob.old strings.old phandles) result.answer (desk_of result.writer.0 blob.new strings.new phandles) }
    {
        fdt_property_kinds::write_property(self.0, blob, strings, name, numbers).into()
    }

    // Writes a property whose value is a list of numbers of 8 bytes each.
    // Refused 18, 17, 2, 1, 5, 11, 20, 15, 14, in this order.
    pub fn property_array_u64(
        self,
        blob: &mut [u8],
        strings: &mut [u8],
        name: &[u8],
        numbers: &[u64],
    ) -> Answered<()>
        ensures { (phandles : List ℕ) → Called (property_array_u64 name.now numbers.now) (desk_of self.0 blob.old strings.old phandles) result.answer (desk_of result.writer.0 blob.new strings.new phandles) }
    {
        fdt_property_kinds::write_property(self.0, blob, strings, name, numbers).into()
    }

    // Records a phandle in the table and writes the property `phandle`. Once 13 and 16 are passed the value stays recorded, even if the property is refused.
    // Refused 18, 17, 13, 16, 2, 1, 20, 15, 14, in this order.
    pub fn property_phandle(
        self,
        blob: &mut [u8],
        strings: &mut [u8],
        phandles: &mut [u32],
        val: u32,
    ) -> Answered<()>
        ensures { Called (property_phandle val) (desk_of self.0 blob.old strings.old phandles.old) result.answer (desk_of result.writer.0 blob.new strings.new phandles.new) }
    {
        fdt_phandles::property_phandle(self.0, blob, strings, phandles, val).into()
    }

    // Finishes the blob: writes the last word, the strings and the header.
    // Refused 18, 17, 7, 14, in this order.
    pub fn finish(self, blob: &mut [u8], strings: &[u8]) -> Answered<()>
        ensures { (phandles : List ℕ) → Called finish (desk_of self.0 blob.old strings.now phandles) result.answer (desk_of result.writer.0 blob.new strings.now phandles) }
    {
        fdt_finish::finish(self.0, blob, strings).into()
    }

    // Shows the finished blob, which is the front of the lent buffer. If the writer is not finished, or does not fit the buffer, shows an empty part.
    // Never refused.
    pub fn show(self, blob: &[u8]) -> &[u8]
        ensures { (strings phandles : List ℕ) → Called show (desk_of self.0 blob.now strings phandles) Done (desk_of self.0 blob.now strings phandles) × (result.now ≡ shown_part (desk_of self.0 blob.now strings phandles)) }
    {
        fdt_finish::show(self.0, blob)
    }
}

// The calls of the writer with their answers as the numbers of documents 01 and 02: for callers that have no enums, such as C.
// Each is the C function of its name before the writer is stored, so none is generic.
#![tactic(auto, using(crate::proofs::Made::called_made))]

ghost use Rattle.std.specs.Prelude.{◌≡◌, List, ℕ};
ghost use Rattle.fdt_calls.specs.Calls.{new, new_with_mem_reserv, set_boot_cpuid_phys, begin_node, end_node, property, property_null, property_string, property_string_list, property_u32, property_u64, property_array_u32, property_array_u64, property_phandle, finish};
ghost use Rattle.fdt_calls.specs.Called.{desk_of};
ghost use Rattle.fdt_record.specs.Answers.{number_of};
ghost use Rattle.fdt_calls.specs.Made.{Made, handle_number, shown_length};

use fdt_nodes::FdtWriterNode;
use fdt_writer::{Answered, FdtWriter};

// The number of a call's answer, and the new writer: C knows no `Result`.
#[derive(Clone, Copy)]
pub struct Numbered {
    pub number: u32,
    pub writer: FdtWriter,
}

// The number of an answer, with the writer beside it.
impl<T: Copy> From<Answered<T>> for Numbered {
    ghost from_gives = { λ answered numbered. (numbered.number ≡ number_of answered.answer) × (numbered.writer ≡ answered.writer) };

    fn from(answered: Answered<T>) -> Numbered {
        Numbered {
            number: fdt_record::number(answered.answer),
            writer: answered.writer,
        }
    }
}

// As `FdtWriter::new`. The writer that is passed in does not matter.
pub fn new(w: FdtWriter, blob: &mut [u8], strings: &[u8], phandles: &[u32]) -> Numbered
    ensures { Made new (desk_of w.0 blob.old strings.now phandles.now) result.number (desk_of result.writer.0 blob.new strings.now phandles.now) }
{
    FdtWriter::new(blob, strings, phandles).into()
}

// As `FdtWriter::new_with_mem_reserv`. The writer that is passed in does not matter.
pub fn new_with_mem_reserv(
    w: FdtWriter,
    blob: &mut [u8],
    strings: &[u8],
    phandles: &[u32],
    mem_reservations: &[u64],
) -> Numbered
    ensures { Made (new_with_mem_reserv mem_reservations.now) (desk_of w.0 blob.old strings.now phandles.now) result.number (desk_of result.writer.0 blob.new strings.now phandles.now) }
{
    FdtWriter::new_with_mem_reserv(blob, strings, phandles, mem_reservations).into()
}

// As `FdtWriter::set_boot_cpuid_phys`.
pub fn set_boot_cpuid_phys(w: FdtWriter, boot_cpuid_phys: u32) -> Numbered
    ensures { (blob strings phandles : List ℕ) → Made (set_boot_cpuid_phys boot_cpuid_phys) (desk_of w.0 blob strings phandles) result.number (desk_of result.writer.0 blob strings phandles) }
{
    w.set_boot_cpuid_phys(boot_cpuid_phys).into()
}

// As `FdtWriter::begin_node`. Stores the handle in `node`; 0 if the call is refused, since C knows no `Option`.
pub fn begin_node(w: FdtWriter, blob: &mut [u8], name: &[u8], node: &mut usize) -> Numbered
    ensures { (strings phandles : List ℕ) → Made (begin_node name.now) (desk_of w.0 blob.old strings phandles) result.number (desk_of result.writer.0 blob.new strings phandles) × (node.new ≡ handle_number (desk_of w.0 blob.old strings phandles) name.now) }
{
    let r = w.begin_node(blob, name);
    *node = match r.answer {
        Ok(handle) => handle.0,
        Err(_) => 0,
    };
    r.into()
}

// As `FdtWriter::end_node`.
pub fn end_node(w: FdtWriter, blob: &mut [u8], node: usize) -> Numbered
    ensures { (strings phandles : List ℕ) → Made (end_node node) (desk_of w.0 blob.old strings phandles) result.number (desk_of result.writer.0 blob.new strings phandles) }
{
    w.end_node(blob, FdtWriterNode(node)).into()
}

// As `FdtWriter::property`.
pub fn property(
    w: FdtWriter,
    blob: &mut [u8],
    strings: &mut [u8],
    name: &[u8],
    val: &[u8],
) -> Numbered
    ensures { (phandles : List ℕ) → Made (property name.now val.now) (desk_of w.0 blob.old strings.old phandles) result.number (desk_of result.writer.0 blob.new strings.new phandles) }
{
    w.property(blob, strings, name, val).into()
}

// As `FdtWriter::property_null`.
pub fn property_null(w: FdtWriter, blob: &mut [u8], strings: &mut [u8], name: &[u8]) -> Numbered
    ensures { (phandles : List ℕ) → Made (property_null name.now) (desk_of w.0 blob.old strings.old phandles) result.number (desk_of result.writer.0 blob.new strings.new phandles) }
{
    w.property_null(blob, strings, name).into()
}

// As `FdtWriter::property_string`.
pub fn property_string(
    w: FdtWriter,
    blob: &mut [u8],
    strings: &mut [u8],
    name: &[u8],
    val: &[u8],
) -> Numbered
    ensures { (phandles : List ℕ) → Made (property_string name.now val.now) (desk_of w.0 blob.old strings.old phandles) result.number (desk_of result.writer.0 blob.new strings.new phandles) }
{
    w.property_string(blob, strings, name, val).into()
}

// As `FdtWriter::property_string_list`.
pub fn property_string_list(
    w: FdtWriter,
    blob: &mut [u8],
    strings: &mut [u8],
    name: &[u8],
    values: &[u8],
    lengths: &[usize],
) -> Numbered
    ensures { (phandles : List ℕ) → Made (property_string_list name.now values.now lengths.now) (desk_of w.0 blob.old strings.old phandles) result.number (desk_of result.writer.0 blob.new strings.new phandles) }
{
    w.property_string_list(blob, strings, name, values, lengths)
        .into()
}

// As `FdtWriter::property_u32`.
pub fn property_u32(
    w: FdtWriter,
    blob: &mut [u8],
    strings: &mut [u8],
    name: &[u8],
    val: u32,
) -> Numbered
    ensures { (phandles : List ℕ) → Made (property_u32 name.now val) (desk_of w.0 blob.old strings.old phandles) result.number (desk_of result.writer.0 blob.new strings.new phandles) }
{
    w.property_u32(blob, strings, name, val).into()
}

// As `FdtWriter::property_u64`.
pub fn property_u64(
    w: FdtWriter,
    blob: &mut [u8],
    strings: &mut [u8],
    name: &[u8],
    val: u64,
) -> Numbered
    ensures { (phandles : List ℕ) → Made (property_u64 name.now val) (desk_of w.0 blob.old strings.old phandles) result.number (desk_of result.writer.0 blob.new strings.new phandles) }
{
    w.property_u64(blob, strings, name, val).into()
}

// As `FdtWriter::property_array_u32`.
pub fn property_array_u32(
    w: FdtWriter,
    blob: &mut [u8],
    strings: &mut [u8],
    name: &[u8],
    numbers: &[u32],
) -> Numbered
    ensures { (phandles : List ℕ) → Made (property_array_u32 name.now numbers.now) (desk_of w.0 blob.old strings.old phandles) result.number (desk_of result.writer.0 blob.new strings.new phandles) }
{
    w.property_array_u32(blob, strings, name, numbers).into()
}

// As `FdtWriter::property_array_u64`.
pub fn property_array_u64(
    w: FdtWriter,
    blob: &mut [u8],
    strings: &mut [u8],
    name: &[u8],
    numbers: &[u64],
) -> Numbered
    ensures { (phandles : List ℕ) → Made (property_array_u64 name.now numbers.now) (desk_of w.0 blob.old strings.old phandles) result.number (desk_of result.writer.0 blob.new strings.new phandles) }
{
    w.property_array_u64(blob, strings, name, numbers).into()
}

// As `FdtWriter::property_phandle`.
pub fn property_phandle(
    w: FdtWriter,
    blob: &mut [u8],
    strings: &mut [u8],
    phandles: &mut [u32],
    val: u32,
) -> Numbered
    ensures { Made (property_phandle val) (desk_of w.0 blob.old strings.old phandles.old) result.number (desk_of result.writer.0 blob.new strings.new phandles.new) }
{
    w.property_phandle(blob, strings, phandles, val).into()
}

// As `FdtWriter::finish`.
pub fn finish(w: FdtWriter, blob: &mut [u8], strings: &[u8]) -> Numbered
    ensures { (phandles : List ℕ) → Made finish (desk_of w.0 blob.old strings.now phandles) result.number (desk_of result.writer.0 blob.new strings.now phandles) }
{
    w.finish(blob, strings).into()
}

// The length of the part that `FdtWriter::show` returns: that of the finished blob, or 0.
pub fn show(w: FdtWriter, blob: &[u8]) -> usize
    ensures { (strings phandles : List ℕ) → result ≡ shown_length (desk_of w.0 blob.now strings phandles) }
{
    w.show(blob).len()
}

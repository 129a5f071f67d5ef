// The writer for C and Rust: lent and changed in place, with answers as numbers. include/geirovund.h has the same functions. C has no
// generics, so each width of numbers has functions of its own.
#![tactic(auto)]

ghost use Rattle.std.specs.Prelude.{◌≡◌, List, ℕ};
ghost use Rattle.fdt_calls.specs.Calls.{new, new_with_mem_reserv, set_boot_cpuid_phys, begin_node, end_node, property, property_null, property_string, property_string_list, property_u32, property_u64, property_array_u32, property_array_u64, property_phandle, finish};
ghost use Rattle.fdt_calls.specs.Called.{desk_of};
ghost use Rattle.fdt_calls.specs.Made.{Made, handle_number, shown_length};

use fdt_numbered::Numbered;
use fdt_writer::FdtWriter;

// Stores the writer that a call leaves, and returns the number of its answer: C knows no `Result`.
fn stored(r: Numbered, w: &mut FdtWriter) -> u32
    ensures { (result ≡ r.number) × (w.new ≡ r.writer) }
{
    *w = r.writer;
    r.number
}

// As `FdtWriter::new`, in place. The lent writer may have any fields.
#[unsafe(no_mangle)]
pub extern "C" fn geirovund_new(
    w: &mut FdtWriter,
    blob: &mut [u8],
    strings: &[u8],
    phandles: &[u32],
) -> u32
    ensures { Made new (desk_of w.old.0 blob.old strings.now phandles.now) result (desk_of w.new.0 blob.new strings.now phandles.now) }
{
    stored(fdt_numbered::new(*w, blob, strings, phandles), w)
}

// As `FdtWriter::new_with_mem_reserv`, in place. The lent writer may have any fields.
#[unsafe(no_mangle)]
pub extern "C" fn geirovund_new_with_mem_reserv(
    w: &mut FdtWriter,
    blob: &mut [u8],
    strings: &[u8],
    phandles: &[u32],
    mem_reservations: &[u64],
) -> u32
    ensures { Made (new_with_mem_reserv mem_reservations.now) (desk_of w.old.0 blob.old strings.now phandles.now) result (desk_of w.new.0 blob.new strings.now phandles.now) }
{
    stored(
        fdt_numbered::new_with_mem_reserv(*w, blob, strings, phandles, mem_reservations),
        w,
    )
}

// As `FdtWriter::set_boot_cpuid_phys`, in place.
#[unsafe(no_mangle)]
pub extern "C" fn geirovund_set_boot_cpuid_phys(w: &mut FdtWriter, boot_cpuid_phys: u32) -> u32
    ensures { (blob strings phandles : List ℕ) → Made (set_boot_cpuid_phys boot_cpuid_phys) (desk_of w.old.0 blob strings phandles) result (desk_of w.new.0 blob strings phandles) }
{
    stored(fdt_numbered::set_boot_cpuid_phys(*w, boot_cpuid_phys), w)
}

// As `FdtWriter::begin_node`, in place. Stores the handle in `node`; 0 if the call is refused.
#[unsafe(no_mangle)]
pub extern "C" fn geirovund_begin_node(
    w: &mut FdtWriter,
    blob: &mut [u8],
    name: &[u8],
    node: &mut usize,
) -> u32
    ensures { (strings phandles : List ℕ) → Made (begin_node name.now) (desk_of w.old.0 blob.old strings phandles) result (desk_of w.new.0 blob.new strings phandles) × (node.new ≡ handle_number (desk_of w.old.0 blob.old strings phandles) name.now) }
{
    stored(fdt_numbered::begin_node(*w, blob, name, node), w)
}

// As `FdtWriter::end_node`, in place.
#[unsafe(no_mangle)]
pub extern "C" fn geirovund_end_node(w: &mut FdtWriter, blob: &mut [u8], node: usize) -> u32
    ensures { (strings phandles : List ℕ) → Made (end_node node) (desk_of w.old.0 blob.old strings phandles) result (desk_of w.new.0 blob.new strings phandles) }
{
    stored(fdt_numbered::end_node(*w, blob, node), w)
}

// As `FdtWriter::property`, in place.
#[unsafe(no_mangle)]
pub extern "C" fn geirovund_property(
    w: &mut FdtWriter,
    blob: &mut [u8],
    strings: &mut [u8],
    name: &[u8],
    val: &[u8],
) -> u32
    ensures { (phandles : List ℕ) → Made (property name.now val.now) (desk_of w.old.0 blob.old strings.old phandles) result (desk_of w.new.0 blob.new strings.new phandles) }
{
    stored(fdt_numbered::property(*w, blob, strings, name, val), w)
}

// As `FdtWriter::property_null`, in place.
#[unsafe(no_mangle)]
pub extern "C" fn geirovund_property_null(
    w: &mut FdtWriter,
    blob: &mut [u8],
    strings: &mut [u8],
    name: &[u8],
) -> u32
    ensures { (phandles : List ℕ) → Made (property_null name.now) (desk_of w.old.0 blob.old strings.old phandles) result (desk_of w.new.0 blob.new strings.new phandles) }
{
    stored(fdt_numbered::property_null(*w, blob, strings, name), w)
}

// As `FdtWriter::property_string`, in place.
#[unsafe(no_mangle)]
pub extern "C" fn geirovund_property_string(
    w: &mut FdtWriter,
    blob: &mut [u8],
    strings: &mut [u8],
    name: &[u8],
    val: &[u8],
) -> u32
    ensures { (phandles : List ℕ) → Made (property_string name.now val.now) (desk_of w.old.0 blob.old strings.old phandles) result (desk_of w.new.0 blob.new strings.new phandles) }
{
    stored(
        fdt_numbered::property_string(*w, blob, strings, name, val),
        w,
    )
}

// As `FdtWriter::property_string_list`, in place.
#[unsafe(no_mangle)]
pub extern "C" fn geirovund_property_string_list(
    w: &mut FdtWriter,
    blob: &mut [u8],
    strings: &mut [u8],
    name: &[u8],
    values: &[u8],
    lengths: &[usize],
) -> u32
    ensures { (phandles : List ℕ) → Made (property_string_list name.now values.now lengths.now) (desk_of w.old.0 blob.old strings.old phandles) result (desk_of w.new.0 blob.new strings.new phandles) }
{
    stored(
        fdt_numbered::property_string_list(*w, blob, strings, name, values, lengths),
        w,
    )
}

// As `FdtWriter::property_u32`, in place.
#[unsafe(no_mangle)]
pub extern "C" fn geirovund_property_u32(
    w: &mut FdtWriter,
    blob: &mut [u8],
    strings: &mut [u8],
    name: &[u8],
    val: u32,
) -> u32
    ensures { (phandles : List ℕ) → Made (property_u32 name.now val) (desk_of w.old.0 blob.old strings.old phandles) result (desk_of w.new.0 blob.new strings.new phandles) }
{
    stored(fdt_numbered::property_u32(*w, blob, strings, name, val), w)
}

// As `FdtWriter::property_u64`, in place.
#[unsafe(no_mangle)]
pub extern "C" fn geirovund_property_u64(
    w: &mut FdtWriter,
    blob: &mut [u8],
    strings: &mut [u8],
    name: &[u8],
    val: u64,
) -> u32
    ensures { (phandles : List ℕ) → Made (property_u64 name.now val) (desk_of w.old.0 blob.old strings.old phandles) result (desk_of w.new.0 blob.new strings.new phandles) }
{
    stored(fdt_numbered::property_u64(*w, blob, strings, name, val), w)
}

// As `FdtWriter::property_array_u32`, in place.
#[unsafe(no_mangle)]
pub extern "C" fn geirovund_property_array_u32(
    w: &mut FdtWriter,
    blob: &mut [u8],
    strings: &mut [u8],
    name: &[u8],
    numbers: &[u32],
) -> u32
    ensures { (phandles : List ℕ) → Made (property_array_u32 name.now numbers.now) (desk_of w.old.0 blob.old strings.old phandles) result (desk_of w.new.0 blob.new strings.new phandles) }
{
    stored(
        fdt_numbered::property_array_u32(*w, blob, strings, name, numbers),
        w,
    )
}

// As `FdtWriter::property_array_u64`, in place.
#[unsafe(no_mangle)]
pub extern "C" fn geirovund_property_array_u64(
    w: &mut FdtWriter,
    blob: &mut [u8],
    strings: &mut [u8],
    name: &[u8],
    numbers: &[u64],
) -> u32
    ensures { (phandles : List ℕ) → Made (property_array_u64 name.now numbers.now) (desk_of w.old.0 blob.old strings.old phandles) result (desk_of w.new.0 blob.new strings.new phandles) }
{
    stored(
        fdt_numbered::property_array_u64(*w, blob, strings, name, numbers),
        w,
    )
}

// As `FdtWriter::property_phandle`, in place.
#[unsafe(no_mangle)]
pub extern "C" fn geirovund_property_phandle(
    w: &mut FdtWriter,
    blob: &mut [u8],
    strings: &mut [u8],
    phandles: &mut [u32],
    val: u32,
) -> u32
    ensures { Made (property_phandle val) (desk_of w.old.0 blob.old strings.old phandles.old) result (desk_of w.new.0 blob.new strings.new phandles.new) }
{
    stored(
        fdt_numbered::property_phandle(*w, blob, strings, phandles, val),
        w,
    )
}

// As `FdtWriter::finish`, in place.
#[unsafe(no_mangle)]
pub extern "C" fn geirovund_finish(w: &mut FdtWriter, blob: &mut [u8], strings: &[u8]) -> u32
    ensures { (phandles : List ℕ) → Made finish (desk_of w.old.0 blob.old strings.now phandles) result (desk_of w.new.0 blob.new strings.now phandles) }
{
    stored(fdt_numbered::finish(*w, blob, strings), w)
}

// The length of the finished blob, which is the front of the lent buffer; 0 if there is none.
#[unsafe(no_mangle)]
pub extern "C" fn geirovund_show(w: &FdtWriter, blob: &[u8]) -> usize
    ensures { (strings phandles : List ℕ) → result ≡ shown_length (desk_of w.now.0 blob.now strings phandles) }
{
    fdt_numbered::show(*w, blob)
}

// The size of a writer in bytes, for a program to compare with that of its own declaration. That it is the size is tested, not proved.
#[unsafe(no_mangle)]
pub extern "C" fn geirovund_writer_size() -> usize
    ensures { result ≡ 80 }
{
    80
}

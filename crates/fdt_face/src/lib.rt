// The writer lent and changed in place, as the crate's own methods do: each call leaves in it what the call by value returns.
// Each function stores the writer by itself: proofs/Thin.antt has the law of all functions of this form.
#![tactic(auto)]

ghost use Rattle.std.specs.Prelude.{◌≡◌, List, ℕ, IfOk};
ghost use Rattle.fdt_record.specs.Answers.{answer_of};
ghost use Rattle.fdt_calls.specs.Calls.{begin_node, end_node, property, finish};
ghost use Rattle.fdt_calls.specs.Called.{desk_of, Called, handle_of};

use fdt_nodes::FdtWriterNode;
use fdt_record::Error;
use fdt_writer::FdtWriter;

// As `FdtWriter::begin_node`, in place.
pub fn begin_node(w: &mut FdtWriter, blob: &mut [u8], name: &[u8]) -> Result<FdtWriterNode, Error>
    ensures { (strings phandles : List ℕ) → Called (begin_node name.now) (desk_of w.old.0 blob.old strings phandles) (answer_of result) (desk_of w.new.0 blob.new strings phandles) × IfOk result (λ handle. handle ≡ handle_of (desk_of w.old.0 blob.old strings phandles) name.now) }
{
    let begun = w.begin_node(blob, name);
    *w = begun.writer;
    begun.answer
}

// As `FdtWriter::end_node`, in place.
pub fn end_node(w: &mut FdtWriter, blob: &mut [u8], node: FdtWriterNode) -> Result<(), Error>
    ensures { (strings phandles : List ℕ) → Called (end_node node.0) (desk_of w.old.0 blob.old strings phandles) result (desk_of w.new.0 blob.new strings phandles) }
{
    let r = w.end_node(blob, node);
    *w = r.writer;
    r.answer
}

// As `FdtWriter::property`, in place.
pub fn property(
    w: &mut FdtWriter,
    blob: &mut [u8],
    strings: &mut [u8],
    name: &[u8],
    val: &[u8],
) -> Result<(), Error>
    ensures { (phandles : List ℕ) → Called (property name.now val.now) (desk_of w.old.0 blob.old strings.old phandles) result (desk_of w.new.0 blob.new strings.new phandles) }
{
    let r = w.property(blob, strings, name, val);
    *w = r.writer;
    r.answer
}

// As `FdtWriter::finish`, in place.
pub fn finish(w: &mut FdtWriter, blob: &mut [u8], strings: &[u8]) -> Result<(), Error>
    ensures { (phandles : List ℕ) → Called finish (desk_of w.old.0 blob.old strings.now phandles) result (desk_of w.new.0 blob.new strings.now phandles) }
{
    let r = w.finish(blob, strings);
    *w = r.writer;
    r.answer
}

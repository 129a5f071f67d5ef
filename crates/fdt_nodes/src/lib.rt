// Beginning and ending a node.
#![tactic(auto)]

ghost use Rattle.std.specs.Prelude.{◌≡◌, ◌≤◌, ◌<◌, length};
ghost use Rattle.fdt_bytes.specs.Splice.{over};
ghost use Rattle.fdt_format.specs.Tokens.{begin_bytes};
ghost use Rattle.fdt_record.specs.Limits.{blob_ceiling, most_depth};
ghost use Rattle.fdt_nodes.specs.Begin.{begun_record, begin_answer, BeginOutcome};
ghost use Rattle.fdt_nodes.specs.End.{ended_record, end_answer, EndOutcome};

use fdt_format::{FDT_BEGIN_NODE, FDT_END_NODE};
use fdt_record::{Error, FDT_MAX_NODE_DEPTH, Outcome, Record};

// A node that was begun: the depth just after it began; 0 is never valid.
#[derive(Clone, Copy)]
pub struct FdtWriterNode(pub usize);

// How many bytes a node's beginning takes.
fn begin_size(name: &[u8]) -> usize
    ensures { result ≡ length (begin_bytes name.now) }
{
    4 + fdt_bytes::round_up(name.len() + 1, 4)
}

// The record that an accepted begin leaves.
#[tactic(auto, unfolding(crate::specs::Begin::begun_record))]
fn after_begin(w: Record, name: &[u8]) -> Record
    requires blob_used_bound { w.blob_used ≤ blob_ceiling }
    requires node_depth_bound { w.node_depth ≤ most_depth }
    ensures { result ≡ begun_record w name.now }
{
    let blob_used = w.blob_used + begin_size(name);
    Record {
        blob_used,
        node_start: blob_used,
        node_depth: w.node_depth + 1,
        node_ended: false,
        ..w
    }
}

// The tests of a begin, in their order.
#[tactic(auto, unfolding(fdt_record::specs::Rows::first, fdt_record::specs::Tests::alone_rows, fdt_record::specs::Tests::blob_rows, crate::specs::Begin::begin_rows, crate::specs::Begin::begin_answer), using(crate::proofs::Begin::used_small))]
fn begin_tests(w: Record, lent: usize, name: &[u8]) -> Result<(), Error>
    ensures { result ≡ begin_answer w lent name.now }
{
    w.blob_tests(lent)?;
    if FDT_MAX_NODE_DEPTH <= w.node_depth {
        return Err(Error::NodeDepthTooLarge);
    }
    if fdt_names::has_zero(name) {
        return Err(Error::InvalidString);
    }
    if !fdt_names::node_name_valid(name) {
        return Err(Error::InvalidNodeName);
    }
    if after_begin(w, name).overfull() {
        return Err(Error::BlobRoom);
    }
    Ok(())
}

// Writes a node's beginning to the front of the rest of the blob.
fn put_begin(rest: &mut [u8], name: &[u8])
    requires { length (begin_bytes name.now) ≤ length rest.old }
    ensures { rest.new ≡ over (begin_bytes name.now) rest.old }
{
    fdt_bytes::append_u32(rest, FDT_BEGIN_NODE);
    fdt_strings::store_string(rest, 4, name);
    let len = 4 + (name.len() + 1);
    fdt_bytes::align(&mut rest[len..], len, 4);
}

// Begins a node: its bytes go into the rest of the blob, and its handle is the new depth.
#[tactic(auto, using(crate::proofs::Begin::begin_within))]
pub fn begin_node(w: Record, blob: &mut [u8], name: &[u8]) -> Outcome<FdtWriterNode>
    ensures { BeginOutcome w blob.old name.now result blob.new }
{
    if let Err(error) = begin_tests(w, blob.len(), name) {
        return Outcome {
            answer: Err(error),
            after: w,
        };
    }
    put_begin(&mut blob[w.blob_used..], name);
    let after = after_begin(w, name);
    Outcome {
        answer: Ok(FdtWriterNode(after.node_depth)),
        after,
    }
}

// The record that an accepted end leaves.
#[tactic(auto, unfolding(crate::specs::End::ended_record))]
fn after_end(w: Record) -> Record
    requires blob_used_bound { w.blob_used ≤ blob_ceiling }
    requires node_depth_nonzero { 0 < w.node_depth }
    ensures { result ≡ ended_record w }
{
    Record {
        blob_used: w.blob_used + 4,
        node_depth: w.node_depth - 1,
        node_ended: true,
        ..w
    }
}

// The tests of an end, in their order.
#[tactic(auto, unfolding(fdt_record::specs::Rows::first, fdt_record::specs::Tests::alone_rows, fdt_record::specs::Tests::blob_rows, crate::specs::End::end_rows, crate::specs::End::end_answer), using(crate::proofs::Begin::used_small))]
fn end_tests(w: Record, lent: usize, node: FdtWriterNode) -> Result<(), Error>
    ensures { result ≡ end_answer w lent node.0 }
{
    w.blob_tests(lent)?;
    if node.0 != w.node_depth || w.node_depth == 0 {
        return Err(Error::OutOfOrderEndNode);
    }
    if after_end(w).overfull() {
        return Err(Error::BlobRoom);
    }
    Ok(())
}

// Ends the node that is open at the handle's depth.
#[tactic(auto, using(crate::proofs::End::end_within))]
pub fn end_node(w: Record, blob: &mut [u8], node: FdtWriterNode) -> Outcome<()>
    ensures { EndOutcome w blob.old node.0 result blob.new }
{
    if let Err(error) = end_tests(w, blob.len(), node) {
        return Outcome {
            answer: Err(error),
            after: w,
        };
    }
    fdt_bytes::append_u32(&mut blob[w.blob_used..], FDT_END_NODE);
    Outcome {
        answer: Ok(()),
        after: after_end(w),
    }
}

// A run of the writer as one exported function, so that Rust can time the proved code beside the original.
#![tactic(auto)]

use fdt_nodes::FdtWriterNode;
use fdt_writer::FdtWriter;

// The bytes of `text` from `from` up to `to`; none if it has no such part.
fn part(text: &[u8], from: usize, to: usize) -> &[u8] {
    text.get(from..to).unwrap_or(&[])
}

// Makes a call: 1 begins a node, 2 ends it, 3 writes a property, and any other number finishes. The numbers are those that the benchmark in Rust passes.
fn made(
    w: FdtWriter,
    kind: usize,
    name: &[u8],
    val: &[u8],
    blob: &mut [u8],
    strings: &mut [u8],
) -> FdtWriter {
    match kind {
        1 => w.begin_node(blob, name).writer,
        2 => w.end_node(blob, FdtWriterNode(w.0.node_depth)).writer,
        3 => w.property(blob, strings, name, val).writer,
        _ => w.finish(blob, strings).writer,
    }
}

// Opens a writer, makes the calls, and returns the length of the shown blob. A call is five numbers:
// its kind, the start and end of its name in the text, and the start and end of its value.
#[unsafe(no_mangle)]
pub extern "C" fn export_bench(
    calls: &[usize],
    text: &[u8],
    blob: &mut [u8],
    strings: &mut [u8],
) -> usize {
    let mut w = FdtWriter::new(blob, strings, &[]).writer;
    for call in calls.chunks_exact(5) {
        let name = part(text, call[1], call[2]);
        let val = part(text, call[3], call[4]);
        w = made(w, call[0], name, val, blob, strings);
    }
    w.show(blob).len()
}

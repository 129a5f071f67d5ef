// How a boot program writes its blob: a root node with one property, the station's offset from UTC.
#![tactic(auto)]

use fdt_record::Error;
use fdt_writer::FdtWriter;

// Writes the root with its property to the front of the buffer, and finishes, as long as no call is refused.
fn written(blob: &mut [u8], utc_offset: u32) -> Result<FdtWriter, Error> {
    let mut strings = [0; 64];
    let opened = FdtWriter::new(blob, &strings, &[]);
    opened.answer?;
    let begun = opened.writer.begin_node(blob, b"");
    let node = begun.answer?;
    let w = begun.writer;
    let offset = w.property_u32(blob, &mut strings, b"utc-offset", utc_offset);
    offset.answer?;
    let ended = offset.writer.end_node(blob, node);
    ended.answer?;
    let finished = ended.writer.finish(blob, &strings);
    finished.answer?;
    Ok(finished.writer)
}

// Writes the blob to the front of the buffer. Returns its length, or 0 if a call was refused.
#[unsafe(no_mangle)]
pub extern "C" fn station_blob(blob: &mut [u8], utc_offset: u32) -> usize {
    match written(blob, utc_offset) {
        Ok(w) => w.show(blob).len(),
        Err(_) => 0,
    }
}

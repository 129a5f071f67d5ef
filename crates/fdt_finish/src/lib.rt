// Setting the boot number, finishing a blob, and showing it.
#![tactic(auto)]

ghost use Rattle.std.specs.Prelude.{◌≡◌, ◌+◌, ◌*◌, ◌≤◌, ◌<◌, ◌^◌, length};
ghost use Rattle.fdt_bytes.specs.BigEndian.{cell_bytes};
ghost use Rattle.fdt_bytes.specs.Splice.{over, splice};
ghost use Rattle.fdt_format.specs.Tokens.{final_bytes};
ghost use Rattle.fdt_header.specs.Header.{structure_start};
ghost use Rattle.fdt_finish.specs.Boot.{boot};
ghost use Rattle.fdt_finish.specs.Finish.{finished_record, finish_answer, finished_blob, FinishOutcome};
ghost use Rattle.fdt_finish.specs.Shown.{shown};

use fdt_format::FDT_END;
use fdt_header::Header;
use fdt_record::{BLOB_CEILING, Error, Outcome, Record};

// Sets the boot number.
pub fn set_boot_cpuid_phys(w: Record, boot_cpuid_phys: u32) -> Outcome<()>
    ensures { result ≡ boot w boot_cpuid_phys }
{
    if let Err(error) = w.alone_tests() {
        return Outcome {
            answer: Err(error),
            after: w,
        };
    }
    Outcome {
        answer: Ok(()),
        after: Record {
            boot_cpuid_phys,
            ..w
        },
    }
}

// The record that an accepted finish leaves.
#[tactic(auto, unfolding(crate::specs::Finish::finished_record))]
fn after_finish(w: Record) -> Record
    requires { w.blob_used + (4 + w.strings_used) < 2 ^ 64 }
    ensures { result ≡ finished_record w }
{
    Record {
        blob_used: w.blob_used + (4 + w.strings_used),
        finished: true,
        ..w
    }
}

// The tests of a finish, in their order.
#[tactic(auto, unfolding(fdt_record::specs::Rows::first, fdt_record::specs::Tests::alone_rows, fdt_record::specs::Tests::blob_rows, fdt_record::specs::Tests::strings_rows, crate::specs::Finish::finish_rows, crate::specs::Finish::finish_answer), using(crate::proofs::Finishing::finish_small))]
fn finish_tests(w: Record, lent: usize, strings: &[u8]) -> Result<(), Error>
    ensures { result ≡ finish_answer w lent strings.now }
{
    w.strings_tests(lent, strings)?;
    if w.node_depth != 0 {
        return Err(Error::UnclosedNode);
    }
    if after_finish(w).overfull() {
        return Err(Error::BlobRoom);
    }
    Ok(())
}

// Writes word 9 and the strings to the front of the rest of the blob.
fn put_final(rest: &mut [u8], strings: &[u8])
    requires { 4 + length strings.now ≤ length rest.old }
    ensures { rest.new ≡ over (final_bytes strings.now) rest.old }
{
    fdt_bytes::append_u32(rest, FDT_END);
    fdt_bytes::append_bytes(&mut rest[4..], strings);
}

// Rewrites the header, word by word.
fn put_header(blob: &mut [u8], words: &[u32])
    requires { 4 * length words.now ≤ length blob.old }
    ensures { blob.new ≡ splice 0 (cell_bytes 4 words.now) blob.old }
{
    for (i, word) in words.iter().enumerate() {
        fdt_splice::update_u32(blob, 4 * i, *word);
    }
}

// Writes word 9 and the used strings into the rest of the blob, and the header in front.
fn put_finish(w: Record, blob: &mut [u8], strings: &[u8])
    requires started { structure_start w.reservations ≤ w.blob_used }
    requires total { w.blob_used + (4 + w.strings_used) < 2 ^ 32 }
    requires room { w.blob_used + (4 + w.strings_used) ≤ length blob.old }
    requires strings_lent { w.strings_used ≤ length strings.now }
    ensures { blob.new ≡ finished_blob w blob.old strings.now }
{
    let used = w.blob_used;
    let size = w.strings_used;
    put_final(&mut blob[used..], &strings[..size]);
    let header = Header {
        off_dt_struct: fdt_header::structure_start(w.reservations) as u32,
        off_dt_strings: (used + 4) as u32,
        size_dt_strings: size as u32,
        boot_cpuid_phys: w.boot_cpuid_phys,
    };
    put_header(blob, &header.words());
}

// Finishes a blob: word 9 and the strings go into the rest, and the header is rewritten.
#[tactic(auto, using(crate::proofs::Finishing::finish_within))]
pub fn finish(w: Record, blob: &mut [u8], strings: &[u8]) -> Outcome<()>
    ensures { FinishOutcome w blob.old strings.now result blob.new }
{
    if let Err(error) = finish_tests(w, blob.len(), strings) {
        return Outcome {
            answer: Err(error),
            after: w,
        };
    }
    put_finish(w, blob, strings);
    Outcome {
        answer: Ok(()),
        after: after_finish(w),
    }
}

// Shows the finished blob: the front of what is lent, or an empty part.
#[tactic(auto, unfolding(crate::specs::Shown::showable, crate::specs::Shown::shown, fdt_record::specs::Limits::usable))]
pub fn show(w: Record, blob: &[u8]) -> &[u8]
    ensures { result.now ≡ shown w blob.now }
{
    let used = w.blob_used;
    let room = fdt_record::usable_length(BLOB_CEILING, blob.len());
    if w.finished && room == w.blob_room && used <= room {
        return &blob[..used];
    }
    &blob[..0]
}

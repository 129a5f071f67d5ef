// Opening a writer over lent buffers.
#![tactic(auto)]

ghost use Rattle.std.specs.Prelude.{◌≡◌, ◌+◌, ◌*◌, ◌≤◌, length};
ghost use Rattle.fdt_bytes.specs.Splice.{splice};
ghost use Rattle.fdt_record.specs.Limits.{most_reservations};
ghost use Rattle.fdt_opening.specs.Opening.{count, some_invalid, opening_answer, opening_bytes, opened_record, closed_record, OpeningOutcome};

use fdt_header::Header;
use fdt_record::{
    BLOB_CEILING, Error, MAX_RESERVATIONS, Outcome, PHANDLES_CEILING, Record, STRINGS_CEILING,
};
use fdt_reserve::FdtReserveEntry;

// Whether some reservation is refused.
fn some_invalid(mem_reservations: &[u64]) -> bool
    ensures { result ≡ some_invalid mem_reservations.now }
{
    let n = mem_reservations.len() / 2;
    for i in 0..n {
        let e = fdt_reserve::entry_at(mem_reservations, i);
        if FdtReserveEntry::new(e.address, e.size).is_err() {
            return true;
        }
    }
    false
}

// The record that an accepted opening leaves.
#[tactic(auto, unfolding(crate::specs::Opening::opened_record))]
fn opened(blob: usize, strings: usize, phandles: usize, mem_reservations: &[u64]) -> Record
    requires { count mem_reservations.now ≤ most_reservations }
    ensures { result ≡ opened_record blob strings phandles mem_reservations.now }
{
    let n = mem_reservations.len() / 2;
    let start = fdt_header::structure_start(n);
    Record {
        blob_room: fdt_record::usable_length(BLOB_CEILING, blob),
        blob_used: start,
        strings_room: fdt_record::usable_length(STRINGS_CEILING, strings),
        phandles_room: fdt_record::usable_length(PHANDLES_CEILING, phandles),
        reservations: n,
        node_start: start,
        ..Record::default()
    }
}

// The tests of an opening, in their order.
#[tactic(auto, unfolding(fdt_record::specs::Rows::first, crate::specs::Opening::opening_rows, crate::specs::Opening::opening_answer))]
fn opening_tests(
    blob: usize,
    strings: usize,
    phandles: usize,
    mem_reservations: &[u64],
) -> Result<(), Error>
    ensures { result ≡ opening_answer blob strings phandles mem_reservations.now }
{
    if mem_reservations.len() % 2 != 0 {
        return Err(Error::Misfit);
    }
    if MAX_RESERVATIONS < mem_reservations.len() / 2 {
        return Err(Error::TooManyReservations);
    }
    if some_invalid(mem_reservations) {
        return Err(Error::InvalidMemoryReservation);
    }
    if fdt_reserve::check_overlapping(mem_reservations) {
        return Err(Error::OverlappingMemoryReservations);
    }
    if opened(blob, strings, phandles, mem_reservations).overfull() {
        return Err(Error::BlobRoom);
    }
    Ok(())
}

// Writes a header of zeros and the reservations to the front of the blob.
fn write_mem_rsvmap(blob: &mut [u8], mem_reservations: &[u64])
    requires { 56 + 8 * length mem_reservations.now ≤ length blob.old }
    ensures { blob.new ≡ splice 0 (opening_bytes mem_reservations.now) blob.old }
{
    fdt_splice::zeros_at(blob, 0, Header::SIZE);
    fdt_splice::cells_at(blob, Header::SIZE, mem_reservations);
    fdt_splice::zeros_at(
        blob,
        Header::SIZE + 8 * mem_reservations.len(),
        fdt_header::RESERVATION_SIZE,
    );
}

// The record that a refused opening hands back.
#[tactic(auto, unfolding(crate::specs::Opening::closed_record))]
fn closed() -> Record
    ensures { result ≡ closed_record }
{
    Record {
        finished: true,
        ..Record::default()
    }
}

// Opens a writer over three buffers, with reservations given as address and size in turn.
#[tactic(auto, using(crate::proofs::Opening::opened_within))]
pub fn open(
    blob: &mut [u8],
    strings: &[u8],
    phandles: &[u32],
    mem_reservations: &[u64],
) -> Outcome<()>
    ensures { OpeningOutcome blob.old (length strings.now) (length phandles.now) mem_reservations.now result blob.new }
{
    let lent = blob.len();
    if let Err(error) = opening_tests(lent, strings.len(), phandles.len(), mem_reservations) {
        return Outcome {
            answer: Err(error),
            after: closed(),
        };
    }
    write_mem_rsvmap(blob, mem_reservations);
    Outcome {
        answer: Ok(()),
        after: opened(lent, strings.len(), phandles.len(), mem_reservations),
    }
}

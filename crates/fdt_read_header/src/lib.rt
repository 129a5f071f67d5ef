// Reads the header of a lent blob and the areas that it names, and counts the reservations.
#![tactic(auto)]

ghost use Rattle.std.specs.Prelude.{◌≡◌, ◌&&◌, ◌+◌, ◌*◌, ◌≤◌, ◌<◌, ◌^◌, eqb, length};
ghost use Rattle.fdt_bytes.specs.BigEndian.{word_at, wide_at};
ghost use Rattle.fdt_format.specs.Reading.{areas_of, good_words, good_areas, reservations_at, read_reservations};
ghost use Rattle.fdt_read_header.specs.Counted.{counted};

use fdt_bytes::{read_u32, read_u64};
use fdt_format::{Areas, Unreadable};
use fdt_header::{Header, RESERVATION_SIZE};

// Whether a blob's length is its total size, and magic and versions match.
#[tactic(auto, unfolding(fdt_format::specs::Reading::good_words))]
pub fn good_words(blob: &[u8]) -> bool
    ensures { result ≡ good_words blob.now }
{
    Header::SIZE <= blob.len()
        && read_u32(blob, 0) == Header::MAGIC
        && read_u32(blob, 4) as usize == blob.len()
        && read_u32(blob, 20) == Header::VERSION
        && read_u32(blob, 24) == Header::LAST_COMP_VERSION
}

// The word at a place, as a number of bytes.
fn size_at(blob: &[u8], at: usize) -> usize
    requires { at + 4 ≤ length blob.now }
    ensures { (result ≡ word_at blob.now at) × (result < 2 ^ 32) }
{
    read_u32(blob, at) as usize
}

// The areas that a header names, and the boot number.
#[tactic(auto, unfolding(fdt_format::specs::Reading::areas_of))]
pub fn areas_of(blob: &[u8]) -> Areas
    requires { 40 ≤ length blob.now }
    ensures { result ≡ areas_of blob.now }
{
    let structure = size_at(blob, 8);
    let strings = size_at(blob, 12);
    Areas {
        reservations: size_at(blob, 16),
        structure,
        structure_end: structure + size_at(blob, 36),
        strings,
        strings_end: strings + size_at(blob, 32),
        boot: read_u32(blob, 28),
    }
}

// Whether the areas are aligned, and structure and strings lie inside a blob of this length.
#[tactic(auto, unfolding(fdt_format::specs::Reading::good_areas))]
pub fn good_areas(a: Areas, length: usize) -> bool
    ensures { result ≡ good_areas a length }
{
    a.reservations % 8 == 0
        && a.structure % 4 == 0
        && a.structure_end <= length
        && a.strings_end <= length
}

// Whether the reservation at a place is the all-zero pair.
fn zero_pair(blob: &[u8], at: usize) -> bool
    requires { at + 16 ≤ length blob.now }
    ensures { result ≡ (eqb (wide_at blob.now at) 0 && eqb (wide_at blob.now (at + 8)) 0) }
{
    read_u64(blob, at) == 0 && read_u64(blob, at + 8) == 0
}

// Counts the reservations from a place on, up to the all-zero pair, which must be one of the next `most` pairs.
fn pairs_from(blob: &[u8], from: usize, most: usize) -> Result<usize, Unreadable>
    requires { from + 16 * most ≤ length blob.now }
    ensures { result ≡ counted (reservations_at blob.now most from) }
{
    for n in 0..most {
        if zero_pair(blob, from + RESERVATION_SIZE * n) {
            return Ok(n);
        }
    }
    Err(Unreadable::Reservations)
}

// Counts the reservations of a blob: how many come before the all-zero pair, or refusal 22 if no such pair is inside the blob.
pub fn reservations_of(blob: &[u8], a: Areas) -> Result<usize, Unreadable>
    ensures { result ≡ counted (read_reservations blob.now a) }
{
    let at = a.reservations;
    if blob.len() < at {
        return Err(Unreadable::Reservations);
    }
    pairs_from(blob, at, (blob.len() - at) / RESERVATION_SIZE)
}

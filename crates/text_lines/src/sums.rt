// Check values: FNV-1a of 64 bits.

// The check value of no bytes.
const EMPTY: u64 = 14_695_981_039_346_656_037;

// What each step multiplies by.
const PRIME: u64 = 1_099_511_628_211;

// A check value with one byte more.
fn with(sum: u64, b: &u8) -> u64 {
    (sum ^ u64::from(*b)).wrapping_mul(PRIME)
}

// A check value with the four bytes of a number more, the highest first.
fn with_cell(sum: u64, n: &u32) -> u64 {
    n.to_be_bytes().iter().fold(sum, with)
}

// The check value of bytes.
pub fn bytes(s: &[u8]) -> u64 {
    s.iter().fold(EMPTY, with)
}

// The check value of the bytes of a table's entries.
pub fn table(t: &[u32]) -> u64 {
    t.iter().fold(EMPTY, with_cell)
}

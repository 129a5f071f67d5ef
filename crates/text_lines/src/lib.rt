// Lines of words with one space between two: the numbers and the bytes that words spell, parts of a line to write, and check values.
#![tactic(auto)]

pub mod lists;
pub mod numbers;
pub mod said;
pub mod spelling;
pub mod sums;

// Word k of a line; an empty one if there are fewer.
pub fn word(line: &[u8], k: usize) -> &[u8] {
    line.split(|b| *b == b' ').nth(k).unwrap_or(&[])
}

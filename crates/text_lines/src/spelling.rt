// Bytes as a word spells them: a readable byte stands for itself, `~` for a byte 0, and `\xHH` for any byte.
ghost use Rattle.std.specs.Prelude.{◌≤◌, length, vec_len, IfOk};
ghost use Rattle.std.specs.Iterator.{at_most};

use std::alloc::{AllocError, Global};

// The part of a word whose bytes are still to come.
#[derive(Drop)]
pub struct Spelled<'a>(&'a [u8]);

// Four bits of a byte; a byte that is no digit sets the bit above them.
fn digit(b: u8) -> u8 {
    text_words::digit(b).unwrap_or(16)
}

impl Iterator for Spelled<'_> {
    type Item = u8;

    ghost remaining = { λ s. at_most (length s.0.now) };

    fn next(&mut self) -> Option<u8> {
        let (byte, rest) = match self.0 {
            [b'\\', _, high, low, rest @ ..] => (digit(*high) << 4 | digit(*low), rest),
            [] | [b'\\', ..] => return None,
            [b'~', rest @ ..] => (0, rest),
            [b, rest @ ..] => (*b, rest),
        };
        self.0 = rest;
        Some(byte)
    }
}

// The bytes that word k of a line spells.
pub fn word(line: &[u8], k: usize) -> Spelled<'_> {
    Spelled(crate::word(line, k))
}

// The first of these bytes, at most so many.
pub fn bytes(alloc: Global, line: &[u8], k: usize, most: usize) -> Result<Vec<u8>, AllocError>
    ensures { IfOk result (λ v. vec_len v ≤ most) }
{
    word(line, k).take(most).collect(alloc)
}

// The numbers of a line. A word that is no number of at most 64 bits counts as 0.
ghost use Rattle.std.specs.Prelude.{◌≡◌, ◌≤◌, ◌%◌, ◌^◌, vec_len, IfOk};

use std::alloc::{AllocError, Global};

// A word as a number.
fn value(word: &[u8]) -> u64 {
    text_words::number(word).unwrap_or(0)
}

// Word k of a line as a number.
pub fn number(line: &[u8], k: usize) -> u64 {
    value(crate::word(line, k))
}

// A number without the bits above 32.
pub fn low(n: u64) -> u32
    ensures { result ≡ n % 2 ^ 32 }
{
    (n % 0x1_0000_0000) as u32
}

// Word k of a line as a number of 32 bits.
pub fn cell(line: &[u8], k: usize) -> u32 {
    low(number(line, k))
}

// The numbers of a line from word `first` on, at most so many, each as `of` converts it.
pub fn values<T: Drop, F: Fn(u64) -> T + Drop>(
    alloc: Global,
    line: &[u8],
    first: usize,
    most: usize,
    of: F,
) -> Result<Vec<T>, AllocError>
    requires { F.IsAlwaysCallable of }
    ensures { IfOk result (λ v. vec_len v ≤ most) }
{
    line.split(|b| *b == b' ')
        .skip(first)
        .take(most)
        .map(|word| of(value(word)))
        .collect(alloc)
}

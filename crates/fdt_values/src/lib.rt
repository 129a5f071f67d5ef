// The values of a property, and those given as strings: whether their lengths are right, and writing them.
#![tactic(auto)]

ghost use Rattle.std.specs.Prelude.{◌≡◌, ◌+◌, ◌≤◌, eqb, length};
ghost use Rattle.fdt_bytes.specs.Splice.{splice};
ghost use Rattle.fdt_values.specs.Value.{text_bytes, sum};

// Whether the lengths sum to the total. The sum never wraps.
pub fn sums_to(lengths: &[usize], total: usize) -> bool
    ensures { result ≡ eqb (sum lengths.now) total }
{
    let mut left = total;
    for n in lengths {
        if left < *n {
            return false;
        }
        left -= *n;
    }
    left == 0
}

// Writes strings into the blob from `at` on, each with a 0 after it. They are given as their joined bytes and their lengths.
pub fn texts_at(blob: &mut [u8], at: usize, joined: &[u8], lengths: &[usize])
    requires lengths_sum { sum lengths.now ≡ length joined.now }
    requires room { at + (length joined.now + length lengths.now) ≤ length blob.old }
    ensures { blob.new ≡ splice at (text_bytes joined.now lengths.now) blob.old }
{
    let mut to = at;
    let mut start = 0;
    for n in lengths {
        let end = start + *n;
        fdt_strings::store_string(blob, to, &joined[start..end]);
        to += *n + 1;
        start = end;
    }
}

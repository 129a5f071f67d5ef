// Numbers as words spell them.
ghost use Rattle.std.specs.Prelude.{ℕ, ◌≤◌, ◌<◌, ◌^◌, IfSome, IsNone, SomeIff};
ghost use Rattle.std.specs.Char.{digit_value};
ghost use Rattle.text_words.specs.Numbers.{Writes, Spells};

// The value of a hexadecimal digit.
pub fn digit(b: u8) -> Option<u8>
    ensures { SomeIff result (digit_value b < 16) (digit_value b) }
{
    let value = char::from(b).to_digit(16)?;
    Some(value as u8)
}

// The number that digits write in a base; none if they write none of at most 64 bits.
fn written(digits: &[u8], base: u32) -> Option<u64>
    requires low { 2 ≤ base }
    requires high { base ≤ 36 }
    ensures value { IfSome result (Writes base digits.now) }
    ensures none { IsNone result → (n : ℕ) → Writes base digits.now n → 2 ^ 64 ≤ n }
{
    if let [b'+', ..] = digits {
        return None;
    }
    u64::from_str_radix(str::from_utf8(digits).ok()?, base).ok()
}

// The number that a word spells, in decimal or in hexadecimal after `0x`; none if it spells none of at most 64 bits.
pub fn number(word: &[u8]) -> Option<u64>
    ensures value { IfSome result (Spells word.now) }
    ensures none { IsNone result → (n : ℕ) → Spells word.now n → 2 ^ 64 ≤ n }
{
    match word.strip_prefix(b"0x") {
        Some(digits) => written(digits, 16),
        None => written(word, 10),
    }
}

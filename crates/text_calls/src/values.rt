// The values of a line: numbers, bytes in two hexadecimal digits each, and strings in double quotes.
ghost use Rattle.std.specs.Prelude.{◌≡◌, ◌+◌, ◌≤◌, ◌<◌, length, sum, vec_len, IfSome, IfOk};

use crate::line::Wrong;
use crate::verbs::Verb;
use std::alloc::Global;
use text_words::{digit, number};

// The most bytes that the values of a line take, and the most strings of a line, that are kept. No blob has room for so many.
pub(crate) const MOST: usize = 65_536;

// The most numbers of 4 bytes that are kept.
pub(crate) const MOST_CELLS: usize = MOST / 4;

// The most numbers of 8 bytes that are kept.
pub(crate) const MOST_WIDE_CELLS: usize = MOST / 8;

// Strings: their bytes one after the other, and how many of them each has.
#[derive(Drop)]
pub struct Strings {
    pub bytes: Vec<u8>,
    pub lengths: Vec<usize>,

    ghost joined: { sum lengths.items ≡ vec_len bytes },
    ghost kept: { (vec_len bytes ≤ 65536) × (vec_len lengths ≤ 65536) },
}

// What a line gives to its call.
#[derive(Clone, Copy)]
pub(crate) struct Values<'a> {
    pub alloc: Global,
    pub verb: Verb,
    pub text: &'a [u8],
}

impl Values<'_> {
    // The line has another form than that of its call.
    pub(crate) fn wrong(self) -> Wrong {
        Wrong::Form(self.verb)
    }

    // Nothing, or a comment.
    pub(crate) fn none(self) -> Result<(), Wrong> {
        match trimmed(self.text) {
            [] | [b'#', ..] => Ok(()),
            _ => Err(self.wrong()),
        }
    }

    // Each word up to a comment as a value. The first values are kept, at most so many.
    pub(crate) fn each<T: Drop, F: Fn(&[u8]) -> Option<T>>(
        self,
        most: usize,
        read: F,
    ) -> Result<Vec<T>, Wrong>
    where
        F: Drop,
        requires { F.IsAlwaysCallable read }
        ensures { IfOk result (λ v. vec_len v ≤ most) }
    {
        let mut values = Vec::new(self.alloc);
        let mut rest = self.text;
        while let Some((word, after)) = next_word(rest) {
            let Some(value) = read(word) else {
                return Err(self.wrong());
            };
            if values.len() < most {
                values.push(value)?;
            }
            rest = after;
        }
        Ok(values)
    }

    // The same, at least one.
    pub(crate) fn some<T: Drop, F: Fn(&[u8]) -> Option<T>>(
        self,
        most: usize,
        read: F,
    ) -> Result<Vec<T>, Wrong>
    where
        F: Drop,
        requires { F.IsAlwaysCallable read }
        ensures { IfOk result (λ v. vec_len v ≤ most) }
    {
        let values = self.each(most, read)?;
        if values.is_empty() {
            return Err(self.wrong());
        }
        Ok(values)
    }

    // One number of 4 bytes.
    pub(crate) fn one(self) -> Result<u32, Wrong> {
        // a second number is kept, so that it is noticed
        match self.each(2, cell)?.as_slice() {
            [n] => Ok(*n),
            _ => Err(self.wrong()),
        }
    }

    // The strings up to a comment.
    pub(crate) fn strings(self) -> Result<Strings, Wrong> {
        let mut bytes = Vec::new(self.alloc);
        let mut lengths = Vec::new(self.alloc);
        let mut rest = trimmed(self.text);
        while let [b'"', text @ ..] = rest {
            let start = bytes.len();
            rest = self.string(text, &mut bytes)?;
            if lengths.len() < MOST {
                lengths.push(bytes.len() - start)?;
            } else {
                bytes.truncate(start);
            }
        }
        match rest {
            [] | [b'#', ..] => Ok(Strings { bytes, lengths }),
            _ => Err(self.wrong()),
        }
    }

    // Adds the string at the front of a text to bytes, as far as they are kept, and returns what follows its closing quote and blanks.
    fn string<'a>(self, text: &'a [u8], bytes: &mut Vec<u8>) -> Result<&'a [u8], Wrong>
        requires { vec_len bytes.old ≤ 65536 }
        ensures rest { IfOk result (λ r. length r.now ≤ length text.now) }
        ensures longer { vec_len bytes.old ≤ vec_len bytes.new }
        ensures kept { vec_len bytes.new ≤ 65536 }
    {
        let mut rest = text;
        loop {
            if let [b'"', after @ ..] = rest {
                return self.apart(after);
            }
            let Some((b, after)) = character(rest) else {
                return Err(self.wrong());
            };
            if bytes.len() < MOST {
                bytes.push(b)?;
            }
            rest = after;
        }
    }

    // What follows a string, without the blanks at its front, of which there must be one before anything else.
    fn apart<'a>(self, text: &'a [u8]) -> Result<&'a [u8], Wrong>
        ensures { IfOk result (λ r. length r.now ≤ length text.now) }
    {
        match text {
            [b, ..] if !blank(*b) => Err(self.wrong()),
            _ => Ok(trimmed(text)),
        }
    }
}

// Whether a byte separates words.
fn blank(b: u8) -> bool {
    b == b' ' || b == b'\t'
}

// A text without the blanks at its front.
fn trimmed(text: &[u8]) -> &[u8]
    ensures { length result.now ≤ length text.now }
{
    match text.iter().position(|b| !blank(*b)) {
        Some(start) => &text[start..],
        None => &[],
    }
}

// The first word of a text, and what follows it.
pub(crate) fn first_word(text: &[u8]) -> (&[u8], &[u8])
    ensures { length result.0.now + length result.1.now ≤ length text.now }
{
    let text = trimmed(text);
    let end = text.iter().position(|b| blank(*b));
    text.split_at(end.unwrap_or(text.len()))
}

// The first word of a text and what follows it, unless the text has none before its end or a comment.
fn next_word(text: &[u8]) -> Option<(&[u8], &[u8])>
    ensures { IfSome result (λ r. length r.1.now < length text.now) }
{
    match first_word(text) {
        ([] | [b'#', ..], _) => None,
        found => Some(found),
    }
}

// A number of 8 bytes.
pub(crate) fn wide_cell(word: &[u8]) -> Option<u64> {
    number(word)
}

// A number of 4 bytes.
pub(crate) fn cell(word: &[u8]) -> Option<u32> {
    u32::try_from(number(word)?).ok()
}

// The byte of two hexadecimal digits.
fn of_digits(high: u8, low: u8) -> Option<u8> {
    Some(digit(high)? << 4 | digit(low)?)
}

// A byte in two hexadecimal digits.
pub(crate) fn byte(word: &[u8]) -> Option<u8> {
    match word {
        [high, low] => of_digits(*high, *low),
        _ => None,
    }
}

// The byte at the front of a string, or that its escape stands for, and what follows it.
fn character(text: &[u8]) -> Option<(u8, &[u8])>
    ensures { IfSome result (λ r. length r.1.now < length text.now) }
{
    match text {
        [b'\\', b'x', high, low, rest @ ..] => Some((of_digits(*high, *low)?, rest)),
        [b'\\', escape, rest @ ..] => Some((escaped(*escape)?, rest)),
        [] | [b'\\'] => None,
        [b, rest @ ..] => Some((*b, rest)),
    }
}

// The byte that a letter after a backslash stands for.
fn escaped(letter: u8) -> Option<u8> {
    match letter {
        b'"' | b'\\' => Some(letter),
        b'n' => Some(b'\n'),
        b't' => Some(b'\t'),
        b'0' => Some(0),
        _ => None,
    }
}

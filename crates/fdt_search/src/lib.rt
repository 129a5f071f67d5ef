// The search for a name in the strings area. It looks for three bytes at 32 gaps at a time, and compares the whole entry
// only where all three are. A gap is the place from which the places of the three bytes are counted. For a name it is the
// place before the name: if the name is an entry there, the gap has a 0. fdt_properties searches for its own three bytes.
#![tactic(auto)]

ghost use Rattle.std.specs.Prelude.{◌≡◌, true, ◌↔◌, ℕ, ◌+◌, ◌≤◌, ◌<◌, length};
ghost use Rattle.fdt_search.specs.Clues.{ClueOf, CluesOf, HasClues, Nowhere, NextGap, Readable};
ghost use Rattle.fdt_search.specs.FirstEntry.{PlainByte, EntryAt, FirstEntry};

// The byte after each entry.
const END: u8 = 0;

// How many gaps are tested at once.
const BLOCK: usize = 32;

// A byte to look for, and its place counted from the gap. For a name, at 0 the 0 before it, then its bytes, then the 0 after it.
#[derive(Clone, Copy)]
pub struct Clue {
    pub at: usize,
    pub byte: u8,
}

// Three bytes to look for. For a name, the newest first. Named fields, no array: a newer clue comes first and the oldest goes.
#[derive(Clone, Copy)]
pub struct Clues {
    pub first: Clue,
    pub second: Clue,
    pub third: Clue,
}

// The clue of a name at a place counted from the gap.
fn clue_of(name: &[u8], at: usize) -> Clue
    requires { at ≤ length name.now + 1 }
    ensures { ClueOf name.now result }
{
    let byte = if 0 < at && at <= name.len() {
        name[at - 1]
    } else {
        END
    };
    Clue { at, byte }
}

// The clues of a name at three places counted from the gap.
fn clues_at(name: &[u8], first: usize, second: usize, third: usize) -> Clues
    requires { (first ≤ length name.now + 1) × (second ≤ length name.now + 1) × (third ≤ length name.now + 1) }
    ensures { CluesOf name.now result }
{
    Clues {
        first: clue_of(name, first),
        second: clue_of(name, second),
        third: clue_of(name, third),
    }
}

// Whether the bytes from `gap` on have the clues.
fn has_clues(s: &[u8], gap: usize, c: Clues) -> bool
    requires { Readable s.now c (gap + 1) }
    ensures { result ≡ true ↔ HasClues s.now c gap }
{
    (s[gap + c.first.at] == c.first.byte)
        & (s[gap + c.second.at] == c.second.byte)
        & (s[gap + c.third.at] == c.third.byte)
}

// Whether none of the gaps of a block has the clues. Every gap is tested, so that many are tested at once: a loop that stops early is 13 times slower.
fn nowhere(s: &[u8], from: usize, c: Clues) -> bool
    requires { Readable s.now c (from + 32) }
    ensures { result ≡ true ↔ Nowhere s.now c from (from + 32) }
{
    let mut none = true;
    for k in 0..BLOCK {
        none &= !has_clues(s, from + k, c);
    }
    none
}

// The first gap from `from` on and before `to` that has the clues.
fn gap_between(s: &[u8], from: usize, to: usize, c: Clues) -> Option<usize>
    requires { (from ≤ to) × Readable s.now c to }
    ensures { NextGap s.now c from to result }
{
    for gap in from..to {
        if has_clues(s, gap, c) {
            return Some(gap);
        }
    }
    None
}

// The first gap from `from` on and before `to` that has the clues. Tests a block of gaps at a time.
pub fn next_gap(s: &[u8], from: usize, to: usize, c: Clues) -> Option<usize>
    requires { (from ≤ to) × Readable s.now c to }
    ensures { NextGap s.now c from to result }
{
    let blocks = (to - from) / BLOCK;
    for i in 0..blocks {
        let at = from + BLOCK * i;
        if !nowhere(s, at, c) {
            return gap_between(s, at, at + BLOCK, c);
        }
    }
    gap_between(s, from + BLOCK * blocks, to, c)
}

// Whether the name is at a place, and none of its bytes is 0. Counted by hand, and every byte is compared, so that many can be
// compared at once: with the library's `==` writing a blob takes 8 % longer. The strings and the name go along as two slices: what a
// type of both could hold, that the name is shorter, does not spare the functions that ask for room from a place on.
fn same_plain(s: &[u8], place: usize, name: &[u8]) -> bool
    requires { place + length name.now ≤ length s.now }
    ensures { result ≡ true ↔ ((k : ℕ) → k < length name.now → PlainByte s.now name.now place k) }
{
    let mut good = true;
    let mut i = 0;
    while i < name.len() {
        good &= (s[place + i] == name[i]) & (name[i] != END);
        i += 1;
    }
    good
}

// Whether the name is an entry at a place.
fn entry_at(s: &[u8], place: usize, name: &[u8]) -> bool
    requires { place + length name.now < length s.now }
    ensures { result ≡ true ↔ EntryAt s.now name.now place }
{
    if s[place + name.len()] != END {
        return false;
    }
    if 0 < place && s[place - 1] != END {
        return false;
    }
    same_plain(s, place, name)
}

// Whether the strings have the last byte of the name and a 0 where they are if the name is the first entry.
fn alike(s: &[u8], name: &[u8]) -> bool
    requires { length name.now < length s.now }
    ensures { EntryAt s.now name.now 0 → result ≡ true }
{
    let n = name.len();
    if s[n] != END {
        return false;
    }
    if n == 0 {
        return true;
    }
    s[n - 1] == name[n - 1]
}

// Whether the name is the first entry.
fn starts_with(s: &[u8], name: &[u8]) -> bool
    requires { length name.now < length s.now }
    ensures { result ≡ true ↔ EntryAt s.now name.now 0 }
{
    alike(s, name) && entry_at(s, 0, name)
}

// Where the bytes at a place first differ from the name, counted from the gap before it; 0 if they do not.
fn difference(s: &[u8], place: usize, name: &[u8]) -> usize
    requires { place + length name.now ≤ length s.now }
    ensures { result ≤ length name.now }
{
    let bytes = &s[place..place + name.len()];
    bytes
        .iter()
        .zip(name)
        .position(|(byte, wanted)| byte != wanted)
        .map_or(0, |i| i + 1)
}

// The clues after a place that has the clues and is no entry: what differs there takes the place of the oldest.
fn sharper(s: &[u8], place: usize, name: &[u8], c: Clues) -> Clues
    requires { (place + length name.now ≤ length s.now) × CluesOf name.now c }
    ensures { CluesOf name.now result }
{
    clues_at(name, difference(s, place, name), c.first.at, c.second.at)
}

// The clues to begin with: the last two bytes of the name and the 0 after it, or sharper ones if the first entry is alike.
fn first_clues(s: &[u8], name: &[u8]) -> Clues
    requires { length name.now < length s.now }
    ensures { CluesOf name.now result }
{
    let last = name.len();
    let c = clues_at(name, last, last.saturating_sub(1), last + 1);
    if alike(s, name) {
        return sharper(s, 0, name, c);
    }
    c
}

// The first place where the name is an entry.
pub fn first_entry(s: &[u8], name: &[u8]) -> Option<usize>
    ensures { FirstEntry s.now name.now result }
{
    let n = name.len();
    if s.len() <= n {
        return None;
    }
    if starts_with(s, name) {
        return Some(0);
    }
    let gaps = s.len() - n - 1;
    let mut c = first_clues(s, name);
    let mut from = 0;
    while let Some(gap) = next_gap(s, from, gaps, c) {
        let place = gap + 1;
        if entry_at(s, place, name) {
            return Some(place);
        }
        c = sharper(s, place, name, c);
        from = place;
    }
    None
}

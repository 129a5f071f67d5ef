// Reads one token of a lent blob: from a state of the reading to an entry and the next state, a word that is skipped, the final
// word, or a refusal.
#![tactic(auto)]

ghost use Rattle.std.specs.Prelude.{◌≡◌, ◌+◌, ◌-◌, ◌≤◌, ◌<◌, ◌^◌, length};
ghost use Rattle.fdt_format.specs.Step.{zero_from, size_at, begin_at, property_at, end_at, final_at, step_at};
ghost use Rattle.fdt_read_token.specs.Inside.{Inside, InStructure};
ghost use Rattle.fdt_read_token.specs.Trimmed.{after_last_zero, trimmed, Trimmed};

use fdt_bytes::{read_u32, round_up};
use fdt_format::{
    Areas, Entry, FDT_BEGIN_NODE, FDT_END, FDT_END_NODE, FDT_NOP, FDT_PROP, State, Step, Unreadable,
};

// The first place from `at` on and before `end` that holds a 0; without one, the greater of `at` and `end`, and no `None`, as
// the definition `zero_from` of fdt_format has it.
pub fn zero_from(blob: &[u8], at: usize, end: usize) -> usize
    requires { end ≤ length blob.now }
    ensures { result ≡ zero_from blob.now (end - at) at }
{
    if end < at {
        return at;
    }
    // counted by hand: with a `for` a reading takes up to 1.4 times as long
    let mut place = at;
    while place < end {
        if blob[place] == 0 {
            return place;
        }
        place += 1;
    }
    end
}

// The place after the last 0 from `from` on and before `to`; without one, `from`, where strings without a 0 end.
fn after_last_zero(blob: &[u8], from: usize, to: usize) -> usize
    requires { (from ≤ to) × (to ≤ length blob.now) }
    ensures { result ≡ after_last_zero blob.now from (to - from) }
{
    for last in (from..to).rev() {
        if blob[last] == 0 {
            return last + 1;
        }
    }
    from
}

// The areas with the strings cut after their last 0. The tokens are the same, and the test of a name offset is one comparison.
pub fn trim(blob: &[u8], a: Areas) -> Areas
    requires { Inside blob.now a }
    ensures { result ≡ trimmed blob.now a }
{
    Areas {
        strings_end: after_last_zero(blob, a.strings, a.strings_end),
        ..a
    }
}

// Reads the beginning of a node. Its name and padding must end inside the structure.
#[tactic(auto, unfolding(fdt_format::specs::Step::begin_at))]
fn begin_at(blob: &[u8], a: Areas, s: State) -> Step
    requires { (s.at + 4 ≤ a.structure_end) × (Inside blob.now a × InStructure a s) }
    ensures { result ≡ begin_at blob.now a s }
{
    let name = s.at + 4;
    let zero = zero_from(blob, name, a.structure_end);
    if a.structure_end <= zero {
        return Step::Bad(Unreadable::Structure);
    }
    let next = round_up(zero + 1, 4);
    if a.structure_end < next {
        return Step::Bad(Unreadable::Structure);
    }
    Step::Entry(
        Entry {
            token: FDT_BEGIN_NODE,
            place: s.at as u32,
            name: name as u32,
            size: 0,
        },
        State {
            at: next,
            depth: s.depth + 1,
            takes_property: true,
        },
    )
}

// How many bytes the property at a place takes, if a whole property is there before `end`.
#[tactic(auto, unfolding(fdt_format::specs::Step::size_at, fdt_format::specs::Step::whole_at, fdt_bytes::specs::Padding::round_up, fdt_bytes::specs::Padding::padding))]
pub fn property_size(blob: &[u8], at: usize, end: usize) -> Option<usize>
    requires { (at ≤ end) × (end ≤ length blob.now) }
    ensures { result ≡ size_at blob.now end at }
{
    let left = end - at;
    if left < 12 {
        return None;
    }
    if read_u32(blob, at) != FDT_PROP {
        return None;
    }
    // rounded without the choice that `round_up` makes: the next token waits for this sum, and reading takes a fifth less time
    let size = 12 + (read_u32(blob, at + 4) as usize + 3) / 4 * 4;
    if left < size {
        return None;
    }
    Some(size)
}

// Reads a property. It must be whole inside the structure, and its name must begin inside the strings, which end with a 0.
fn property_at(blob: &[u8], a: Areas, s: State) -> Step
    requires { Trimmed blob.now a × InStructure a s }
    ensures { result ≡ property_at blob.now a s }
{
    let at = s.at;
    let Some(whole) = property_size(blob, at, a.structure_end) else {
        return Step::Bad(Unreadable::Structure);
    };
    let size = read_u32(blob, at + 4);
    let offset = read_u32(blob, at + 8) as usize;
    let name = a.strings + offset;
    if a.strings_end <= name {
        return Step::Bad(Unreadable::NameOffset);
    }
    let name_place = name as u32;
    let next = at + whole;
    Step::Entry(
        Entry {
            token: FDT_PROP,
            place: at as u32,
            name: name_place,
            size,
        },
        State {
            at: next,
            depth: s.depth,
            takes_property: true,
        },
    )
}

// Reads the end of a node. A node must be open.
#[tactic(auto, unfolding(fdt_format::specs::Step::end_at))]
fn end_at(s: State) -> Step
    requires { s.at < 2 ^ 32 }
    ensures { result ≡ end_at s }
{
    if s.depth == 0 {
        return Step::Bad(Unreadable::Structure);
    }
    Step::Entry(
        Entry {
            token: FDT_END_NODE,
            place: s.at as u32,
            name: 0,
            size: 0,
        },
        State {
            at: s.at + 4,
            depth: s.depth - 1,
            takes_property: false,
        },
    )
}

// Reads the final word. No node may be open, and the structure must end here.
#[tactic(auto, unfolding(fdt_format::specs::Step::final_at))]
fn final_at(a: Areas, s: State) -> Step
    requires { s.at < 2 ^ 32 }
    ensures { result ≡ final_at a s }
{
    if s.depth != 0 || s.at + 4 != a.structure_end {
        return Step::Bad(Unreadable::Structure);
    }
    Step::Final
}

// Reads the token at a state. The strings must have been cut after their last 0. `blob` and `a` stay apart, with that fact in the
// contract: readers call this with areas of their own, and a type that holds the fact would ask more of them.
#[tactic(auto, unfolding(fdt_format::specs::Step::step_at))]
pub fn step_at(blob: &[u8], a: Areas, s: State) -> Step
    requires { Trimmed blob.now a × InStructure a s }
    ensures { result ≡ step_at blob.now a s }
{
    if a.structure_end - s.at < 4 {
        return Step::Bad(Unreadable::Structure);
    }
    match read_u32(blob, s.at) {
        FDT_BEGIN_NODE => begin_at(blob, a, s),
        FDT_END_NODE => end_at(s),
        FDT_PROP if s.takes_property => property_at(blob, a, s),
        FDT_NOP => Step::Skip,
        FDT_END => final_at(a, s),
        _ => Step::Bad(Unreadable::Structure),
    }
}

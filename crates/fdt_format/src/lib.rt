// Types that readers of blobs share. specs/ defines what a blob describes and how it is read.
#![tactic(auto)]

ghost use Rattle.std.specs.Prelude.{◌≡◌};
ghost use Rattle.fdt_format.specs.Refusals.{number_of};

// The word that begins a node.
pub const FDT_BEGIN_NODE: u32 = 1;

// The word that ends a node.
pub const FDT_END_NODE: u32 = 2;

// The word of a property.
pub const FDT_PROP: u32 = 3;

// The word that is skipped.
pub const FDT_NOP: u32 = 4;

// The word after the last node.
pub const FDT_END: u32 = 9;

// The areas that a blob's header names: where each begins, where structure and strings end. Also the boot number.
#[derive(Clone, Copy)]
pub struct Areas {
    pub reservations: usize,
    pub structure: usize,
    pub structure_end: usize,
    pub strings: usize,
    pub strings_end: usize,
    pub boot: u32,
}

// How far a reading has come.
#[derive(Clone, Copy)]
pub struct State {
    // the place of the next token
    pub at: usize,
    // how many nodes are open
    pub depth: usize,
    // whether a property may come here
    pub takes_property: bool,
}

// A token that was read: its word, its place, the place of its name, and the length of its value. Numbers, as the reader's list has
// them for C.
#[derive(Clone, Copy)]
pub struct Entry {
    pub token: u32,
    pub place: u32,
    pub name: u32,
    pub size: u32,
}

// Why a blob cannot be read. The numbers are those of document 02, request 1/14; its reader adds 21, 25 and 30.
#[derive(Clone, Copy)]
pub enum Unreadable {
    // 22: no all-zero pair ends the reservations inside the blob.
    Reservations,
    // 23: a token that may not come here, or that does not end inside the structure.
    Structure,
    // 24: a name offset that meets no 0 inside the strings.
    NameOffset,
}

// The number of a refusal. A function of its name, since `into` would not say at a call which number is meant.
pub fn number(refusal: Unreadable) -> u32
    ensures { result ≡ number_of refusal }
{
    match refusal {
        Unreadable::Reservations => 22,
        Unreadable::Structure => 23,
        Unreadable::NameOffset => 24,
    }
}

// The token at a state: an entry with the state after it, a word 4, which is skipped, the final word, or a refusal. Not a Result:
// a reading through Results took 1.3 to 2.6 times as long, since an enum inside an enum is copied whole.
#[derive(Clone, Copy)]
pub enum Step {
    Entry(Entry, State),
    Skip,
    Final,
    Bad(Unreadable),
}

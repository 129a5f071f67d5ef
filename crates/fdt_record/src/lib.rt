// The writer's record, its answers, its limits, and the tests of a record against what is lent.
#![tactic(auto)]

ghost use Rattle.std.specs.Prelude.{◌≡◌};
ghost use Rattle.fdt_record.specs.Answers.{number_of, error_number};
ghost use Rattle.fdt_record.specs.Limits.{usable};
ghost use Rattle.fdt_record.specs.Misfits.{misfit_record, misfit_room, off_structure, misfit_blob, misfit_strings, misfit_phandles, overfull};
ghost use Rattle.fdt_record.specs.Rows.{first};
ghost use Rattle.fdt_record.specs.Tests.{alone_rows, blob_rows, strings_rows};

// The ceiling of the blob, in bytes.
pub const BLOB_CEILING: usize = 65_536;

// The ceiling of the strings, in bytes.
pub const STRINGS_CEILING: usize = 8_192;

// The ceiling of the phandles, in entries.
pub const PHANDLES_CEILING: usize = 256;

// The most reservations.
pub const MAX_RESERVATIONS: usize = 64;

// The greatest depth, the same as in the Linux kernel.
pub const FDT_MAX_NODE_DEPTH: usize = 64;

// What a writer knows of the calls so far and of its buffers: of each the usable length at opening (room) and how much is used.
// `node_start` is the place in the blob where the open node's properties start.
// C's `struct geirovund_writer` has the same fields, so it holds lengths and flags, and no slices or Options.
#[repr(C)]
#[derive(Clone, Copy, Default)]
pub struct Record {
    pub blob_room: usize,
    pub blob_used: usize,
    pub strings_room: usize,
    pub strings_used: usize,
    pub phandles_room: usize,
    pub phandles_used: usize,
    pub reservations: usize,
    pub node_depth: usize,
    pub node_start: usize,
    pub boot_cpuid_phys: u32,
    pub node_ended: bool,
    pub finished: bool,
}

// Why a call is refused, with its number in documents 01 and 02: the crate's refusals (1 to 13), and the added ones.
#[derive(Clone, Copy, Debug, PartialEq, Eq)]
pub enum Error {
    // The depth is 0 and no node was ended last.
    PropertyBeforeBeginNode = 1,
    // The last accepted begin or end was an end.
    PropertyAfterEndNode = 2,
    // Never given; the number is kept.
    PropertyValueTooLarge = 3,
    // Never given; the number is kept.
    TotalSizeTooLarge = 4,
    // A byte 0 in a name, or in a string value.
    InvalidString = 5,
    // The handle differs from the depth, or the depth is 0.
    OutOfOrderEndNode = 6,
    // Finish at a depth above 0.
    UnclosedNode = 7,
    // A reservation of size 0, or address + size at least 2^64.
    InvalidMemoryReservation = 8,
    // Some address lies in two reservations.
    OverlappingMemoryReservations = 9,
    // A node name outside the grammar.
    InvalidNodeName = 10,
    // A property name outside the grammar.
    InvalidPropertyName = 11,
    // Begin at depth 64.
    NodeDepthTooLarge = 12,
    // The value is already in the table.
    DuplicatePhandle = 13,
    // The blob has no room for the call's bytes.
    BlobRoom = 14,
    // The strings have no room for a new name and its 0.
    StringRoom = 15,
    // The table has no room for a new value.
    PhandleRoom = 16,
    // The record does not fit the lent buffers, or lengths in the arguments do not add up.
    Misfit = 17,
    // The record is marked finished.
    Finished = 18,
    // More than 64 reservations.
    TooManyReservations = 19,
    // The open node already has a property of this name.
    DuplicateProperty = 20,
}

// The number of an error in documents 01 and 02.
impl From<Error> for u32 {
    ghost from_gives = { λ error n. n ≡ error_number error };

    fn from(error: Error) -> u32 {
        error as u32
    }
}

// What a call answers: what an accepted one gives, or why it is refused. And the new record.
#[derive(Clone, Copy)]
pub struct Outcome<T> {
    pub answer: Result<T, Error>,
    pub after: Record,
}

// The number of an answer in documents 01 and 02; 0 is acceptance.
pub fn number<T: Copy>(answer: Result<T, Error>) -> u32
    ensures { result ≡ number_of answer }
{
    match answer {
        Ok(_) => 0,
        Err(error) => error.into(),
    }
}

// The lesser of a buffer's length and its ceiling.
#[tactic(auto, unfolding(crate::specs::Limits::usable))]
pub fn usable_length(ceiling: usize, length: usize) -> usize
    ensures { result ≡ usable ceiling length }
{
    if length < ceiling { length } else { ceiling }
}

// Whether the usable length differs from that at opening, or is below the used length.
#[tactic(auto, unfolding(crate::specs::Misfits::misfit_room))]
fn misfit_room(ceiling: usize, lent: usize, room: usize, used: usize) -> bool
    ensures { result ≡ misfit_room ceiling lent room used }
{
    usable_length(ceiling, lent) != room || room < used
}

// Whether a place is outside the structure: not a multiple of 4, or before the structure's start.
#[tactic(auto, unfolding(crate::specs::Misfits::off_structure))]
fn off_structure(reservations: usize, place: usize) -> bool
    ensures { result ≡ off_structure reservations place }
{
    if place % 4 != 0 || place < fdt_header::STRUCTURE_START {
        return true;
    }
    (place - fdt_header::STRUCTURE_START) / fdt_header::RESERVATION_SIZE < reservations
}

// The tests of a record against what is lent.
impl Record {
    // Whether the depth or the count of reservations is above 64.
    #[tactic(auto, unfolding(crate::specs::Misfits::misfit_record))]
    pub fn misfit_record(self) -> bool
        ensures { result ≡ misfit_record self }
    {
        FDT_MAX_NODE_DEPTH < self.node_depth || MAX_RESERVATIONS < self.reservations
    }

    // Whether the record does not fit a blob of this length.
    #[tactic(auto, unfolding(crate::specs::Misfits::misfit_blob))]
    pub fn misfit_blob(self, lent: usize) -> bool
        ensures { result ≡ misfit_blob self lent }
    {
        misfit_room(BLOB_CEILING, lent, self.blob_room, self.blob_used)
            || off_structure(self.reservations, self.blob_used)
            || off_structure(self.reservations, self.node_start)
            || self.blob_used < self.node_start
    }

    // Whether the record does not fit these strings.
    #[tactic(auto, unfolding(crate::specs::Misfits::misfit_strings, crate::specs::Misfits::misfit_room, crate::specs::Limits::usable))]
    pub fn misfit_strings(self, strings: &[u8]) -> bool
        ensures { result ≡ misfit_strings self strings.now }
    {
        let used = self.strings_used;
        misfit_room(STRINGS_CEILING, strings.len(), self.strings_room, used)
            || used != 0 && strings[used - 1] != 0
    }

    // Whether the record does not fit a table of this length.
    #[tactic(auto, unfolding(crate::specs::Misfits::misfit_phandles))]
    pub fn misfit_phandles(self, lent: usize) -> bool
        ensures { result ≡ misfit_phandles self lent }
    {
        misfit_room(
            PHANDLES_CEILING,
            lent,
            self.phandles_room,
            self.phandles_used,
        )
    }

    // The first tests of a call that is lent nothing: 18, and 17 for the record.
    #[tactic(auto, unfolding(crate::specs::Rows::first, crate::specs::Tests::alone_rows))]
    pub fn alone_tests(self) -> Result<(), Error>
        ensures { result ≡ first (alone_rows self) }
    {
        if self.finished {
            return Err(Error::Finished);
        }
        if self.misfit_record() {
            return Err(Error::Misfit);
        }
        Ok(())
    }

    // The first tests of a call that is lent a blob of this length: also 17 for the blob.
    #[tactic(auto, unfolding(crate::specs::Rows::first, crate::specs::Tests::alone_rows, crate::specs::Tests::blob_rows))]
    pub fn blob_tests(self, lent: usize) -> Result<(), Error>
        ensures { result ≡ first (blob_rows self lent) }
    {
        self.alone_tests()?;
        if self.misfit_blob(lent) {
            return Err(Error::Misfit);
        }
        Ok(())
    }

    // The first tests of a call that is lent a blob of this length and strings: also 17 for the strings.
    #[tactic(auto, unfolding(crate::specs::Rows::first, crate::specs::Tests::alone_rows, crate::specs::Tests::blob_rows, crate::specs::Tests::strings_rows))]
    pub fn strings_tests(self, lent: usize, strings: &[u8]) -> Result<(), Error>
        ensures { result ≡ first (strings_rows self lent strings.now) }
    {
        self.blob_tests(lent)?;
        if self.misfit_strings(strings) {
            return Err(Error::Misfit);
        }
        Ok(())
    }

    // Whether the used length exceeds the usable length, asked of the record that a call would leave.
    #[tactic(auto, unfolding(crate::specs::Misfits::overfull))]
    pub fn overfull(self) -> bool
        ensures { result ≡ overfull self }
    {
        self.blob_room < self.blob_used
    }
}

// A reader of lent blobs: it reports begins, properties and ends in order, or the first fault.
#![tactic(auto)]

ghost use Rattle.std.specs.Prelude.{◌≡◌, ◌≤◌, ◌<◌};
ghost use Rattle.fdt_format.specs.Reading.{read_reservations};
ghost use Rattle.fdt_format.specs.Walk.{walk_start};
ghost use Rattle.fdt_read_header.specs.Counted.{counted};
ghost use Rattle.fdt_read_token.specs.Trimmed.{Trimmed};
ghost use Rattle.fdt_walk.specs.ReaderWalk.{reader_walk};
ghost use Rattle.fdt_walk.specs.Token.{Stands};
ghost use Rattle.fdt_reader.specs.declared.ReadError.TheVariants.{Refused};
ghost use Rattle.fdt_reader.specs.Pass.{put, after, Placed, Continues, first, counted_walk};
ghost use Rattle.fdt_reader.specs.Reader.{placed, number_of, values_of, fault_place, survey_of, Read};

use fdt_format::{Areas, Entry, FDT_BEGIN_NODE, FDT_END_NODE, State};
use fdt_walk::{Fault, Refusal, Token, token_at};

// How far a pass has come: a state of the walk, and how many entries came before it.
#[derive(Clone, Copy)]
struct Cursor {
    state: State,
    count: usize,
}

// Where a pass stopped: after the end of the open node, at the final word with so many entries, or at a fault. Not a Result:
// a reading through Results took 1.3 to 2.6 times as long, since an enum inside an enum is copied whole.
#[derive(Clone, Copy)]
enum Progress {
    Ended(Cursor),
    Complete(usize),
    Refused(Fault),
}

// What is known of a good blob without its entries: its areas, with the strings cut after their last 0, and how many reservations
// and entries it has.
#[derive(Clone, Copy)]
pub struct Surveyed {
    pub areas: Areas,
    pub reservations: usize,
    pub entries: usize,
}

// The values of an answer: the boot number, and how many reservations and entries there are.
#[derive(Clone, Copy)]
pub struct Values {
    pub boot: u32,
    pub reservations: usize,
    pub entries: usize,
}

// Why the reader refuses a call.
#[derive(Clone, Copy)]
pub enum ReadError {
    // 21 to 25: the first fault.
    Refused(Refusal),
    // 30: the list has no room for the entries.
    ShortList,
}

impl From<Fault> for ReadError {
    ghost from_gives = { λ fault e. e ≡ Refused fault.refusal };

    fn from(fault: Fault) -> ReadError {
        ReadError::Refused(fault.refusal)
    }
}

// The number of an answer. A function of its name, since `into` would not say at a call which number is meant.
pub fn number(answer: Result<Values, ReadError>) -> u32
    ensures { result ≡ number_of answer }
{
    match answer {
        Ok(_) => 0,
        Err(ReadError::Refused(refusal)) => fdt_walk::number(refusal),
        Err(ReadError::ShortList) => 30,
    }
}

// The values of an answer, all 0 if refused.
pub fn values_of(answer: Result<Values, ReadError>) -> Values
    ensures { result ≡ values_of answer }
{
    answer.unwrap_or(Values {
        boot: 0,
        reservations: 0,
        entries: 0,
    })
}

// The place of a survey's fault; 0 if there is none.
pub fn fault_place(seen: Result<Surveyed, Fault>) -> usize
    ensures { result ≡ fault_place seen }
{
    match seen {
        Ok(_) => 0,
        Err(fault) => fault.place,
    }
}

// Writes an entry as the n-th of a list, if the list has room for it.
#[tactic(auto, unfolding(crate::specs::Pass::put))]
fn put_entry(list: &mut [u32], n: usize, t: Entry)
    ensures { list.new ≡ put list.old n t }
{
    if n < list.len() / 4 {
        // by index: with `copy_from_slice` reading takes 4 to 10 % longer
        let i = n * 4;
        list[i] = t.token;
        list[i + 1] = t.place;
        list[i + 2] = t.name;
        list[i + 3] = t.size;
    }
}

// Reads a node from its begin on, which is the n-th entry: the begin, all that is in the node, and its end.
#[cycle(children_node)]
fn node(blob: &[u8], a: Areas, t: Entry, next: State, n: usize, list: &mut [u32]) -> Progress
    requires { Trimmed blob.now a × (Stands a next × (n < next.at)) }
    ensures { Continues blob.now a (put list.old n t) (after next n) list.new result }
{
    put_entry(list, n, t);
    let c = Cursor {
        state: next,
        count: n + 1,
    };
    children(blob, a, c, list)
}

// Reads all that is in a node: its properties, its children, each of which is a node again, and its end. Outside every node it
// reads to the final word.
#[cycle(children_node)]
fn children(blob: &[u8], a: Areas, from: Cursor, list: &mut [u32]) -> Progress
    requires { Trimmed blob.now a × Placed a from }
    ensures { Continues blob.now a list.old from list.new result }
{
    let mut c = from;
    loop {
        let s = c.state;
        let n = c.count;
        let taken = token_at(blob, a, s);
        match taken {
            Token::Refused(fault) => return Progress::Refused(fault),
            Token::Final => return Progress::Complete(n),
            Token::Entry(t, next) => {
                if t.token == FDT_BEGIN_NODE {
                    let child = node(blob, a, t, next, n, list);
                    let Progress::Ended(d) = child else {
                        return child;
                    };
                    c = d;
                } else {
                    put_entry(list, n, t);
                    c = Cursor {
                        state: next,
                        count: n + 1,
                    };
                    if t.token == FDT_END_NODE {
                        return Progress::Ended(c);
                    }
                }
            }
        }
    }
}

// Where a pass begins.
#[tactic(auto, unfolding(fdt_format::specs::Walk::walk_start))]
fn first(a: Areas) -> Cursor
    ensures { result ≡ first a }
{
    Cursor {
        state: State {
            at: a.structure,
            depth: 0,
            takes_property: false,
        },
        count: 0,
    }
}

// Counts the entries of a structure: a pass with a list that has no room.
fn count_entries(blob: &[u8], a: Areas) -> Result<usize, Fault>
    requires { Trimmed blob.now a × (a.structure ≤ a.structure_end) }
    ensures { result ≡ counted_walk (reader_walk blob.now a (walk_start a)) }
{
    match children(blob, a, first(a), &mut []) {
        Progress::Complete(n) => Ok(n),
        Progress::Refused(fault) => Err(fault),
        // no node is open, so none ends
        Progress::Ended(_) => Ok(0),
    }
}

// Counts the reservations. Without an all-zero pair the fault is at their offset.
fn count_reservations(blob: &[u8], a: Areas) -> Result<usize, Fault>
    ensures { result ≡ placed a.reservations (counted (read_reservations blob.now a)) }
{
    fdt_read_header::reservations_of(blob, a).map_err(|reason| Fault {
        refusal: Refusal::Unreadable(reason),
        place: a.reservations,
    })
}

// Surveys a blob: tests its header, its reservations and its structure, in this order.
pub fn survey(blob: &[u8]) -> Result<Surveyed, Fault>
    ensures { result ≡ survey_of blob.now }
{
    let bad_header = Fault {
        refusal: Refusal::Header,
        place: 0,
    };
    if !fdt_read_header::good_words(blob) {
        return Err(bad_header);
    }
    let a = fdt_read_header::areas_of(blob);
    if !fdt_read_header::good_areas(a, blob.len()) {
        return Err(bad_header);
    }
    let reservations = count_reservations(blob, a)?;
    let areas = fdt_read_token::trim(blob, a);
    let entries = count_entries(blob, areas)?;
    Ok(Surveyed {
        areas,
        reservations,
        entries,
    })
}

// Reads a blob into a list, four numbers for each entry: its token, its place, the place of its name and the length of its value.
// A refusal writes nothing.
pub fn read(blob: &[u8], list: &mut [u32]) -> Result<Values, ReadError>
    ensures { Read blob.now list.old list.new result }
{
    let seen = survey(blob)?;
    if list.len() / 4 < seen.entries {
        return Err(ReadError::ShortList);
    }
    // the survey met no fault, so this pass meets none
    children(blob, seen.areas, first(seen.areas), list);
    Ok(Values {
        boot: seen.areas.boot,
        reservations: seen.reservations,
        entries: seen.entries,
    })
}

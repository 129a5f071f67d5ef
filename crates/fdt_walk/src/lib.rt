// The tokens of a lent blob one after the other, as a reader takes them: at most 64 nodes may be open.
#![tactic(auto)]

ghost use Rattle.std.specs.Prelude.{◌≡◌};
ghost use Rattle.fdt_read_token.specs.Trimmed.{Trimmed};
ghost use Rattle.fdt_walk.specs.Refusals.{number_of};
ghost use Rattle.fdt_walk.specs.Token.{Stands, Takes};

use fdt_format::{Areas, Entry, State, Step, Unreadable};
use fdt_read_token::step_at;

// How many nodes may be open.
pub const MOST_OPEN: usize = 64;

// Why a reader refuses a blob.
#[derive(Clone, Copy)]
pub enum Refusal {
    // 21: the header's words or areas are not good.
    Header,
    // 22 to 24: the reading refuses it.
    Unreadable(Unreadable),
    // 25: a node begins where 64 are open.
    Depth,
}

// The first fault of a blob: why it is refused, and where: 0 for the header, the offset of the reservations, or the place of the
// token.
#[derive(Clone, Copy)]
pub struct Fault {
    pub refusal: Refusal,
    pub place: usize,
}

// The next token from a state on: an entry with the state after it, the final word, or a fault. Not a Result of an Option: a
// reading through Results took 1.3 to 2.6 times as long, since an enum inside an enum is copied whole.
#[derive(Clone, Copy)]
pub enum Token {
    Entry(Entry, State),
    Final,
    Refused(Fault),
}

// The number of a refusal. A function of its name, since `into` would not say at a call which number is meant.
pub fn number(refusal: Refusal) -> u32
    ensures { result ≡ number_of refusal }
{
    match refusal {
        Refusal::Header => 21,
        Refusal::Unreadable(reason) => fdt_format::number(reason),
        Refusal::Depth => 25,
    }
}

// Takes the next token from a state on. Words 4 before it are skipped, and the place of a fault is the token's. It promises how
// the walk goes on, that the place moves on and what kind of entry it is, not which token it is.
pub fn token_at(blob: &[u8], a: Areas, s: State) -> Token
    requires { Trimmed blob.now a × Stands a s }
    ensures { Takes blob.now a s result }
{
    let mut here = s;
    loop {
        let place = here.at;
        let read = step_at(blob, a, here);
        match read {
            Step::Skip => here.at += 4,
            Step::Final => return Token::Final,
            Step::Bad(reason) => {
                return Token::Refused(Fault {
                    refusal: Refusal::Unreadable(reason),
                    place,
                });
            }
            Step::Entry(t, next) => {
                if MOST_OPEN < next.depth {
                    return Token::Refused(Fault {
                        refusal: Refusal::Depth,
                        place,
                    });
                }
                return Token::Entry(t, next);
            }
        }
    }
}

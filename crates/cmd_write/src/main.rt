// Writes the blob that a call list describes: docs/CALLS.md has the list's form. The list is read from standard input, and
// the finished blob goes to standard output; if the list is wrong or refused, one line goes to standard error instead.
#![tactic(auto)]

mod desk;
mod failure;
mod list;

use failure::Failure;
use text_words::input;

// How many bytes are too many for a list.
const TOO_LONG: usize = 1_048_576;

// Reads the list and runs it, and says why there is no blob.
fn main(rt: HostRuntime) {
    match input::read(&rt, TOO_LONG) {
        Ok(list) => {
            if let Err(failure) = list::run(&rt, &list) {
                let _ = rt.eprintln(failure);
            }
        }
        Err(refused) => {
            let _ = rt.eprintln(Failure::Unread(refused));
        }
    }
}

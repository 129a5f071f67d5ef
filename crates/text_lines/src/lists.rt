// Lists of lines on standard input, and arrays that their lines fill.
ghost use Rattle.std.specs.Prelude.{◌≡◌, ◌<◌, take, length, vec_len, IfOk, IfSome};

use std::io;
use std::io::Write;

// How many bytes a list has fewer than.
const LIMIT: usize = 1_048_576;

// Reads a list, as far as it can be read; of one that is too long, nothing is run, and a line says so.
pub fn read(rt: &HostRuntime, out: &mut impl Write) -> io::Result<Option<Vec<u8>>>
    ensures { IfOk result (λ list. IfSome list (λ v. vec_len v < 1048576)) }
{
    let list = text_words::input::front(rt, LIMIT)?;
    if list.len() < LIMIT {
        return Ok(Some(list));
    }
    out.write_all(b"the list is longer than 1048575 bytes: nothing was run\n")?;
    Ok(None)
}

// Writes items into an array from a place on; what does not fit is left out.
pub fn put<T: Drop, I: Iterator<Item = T> + Drop>(array: &mut [T], at: usize, items: I)
    requires { I.can_next items }
    ensures same { take at array.new ≡ take at array.old }
    ensures len { length array.new ≡ length array.old }
{
    if at < array.len() {
        for (to, item) in array[at..].iter_mut().zip(items) {
            *to = item;
        }
    }
}

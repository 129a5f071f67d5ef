// Standard input, read whole.
ghost use Rattle.std.specs.Prelude.{◌<◌, ◌≤◌, vec_len, IfOk};

use std::alloc::AllocError;
use std::io::{ErrorKind, Read};

// Why an input is not taken.
#[derive(Clone, Copy, PartialEq, Eq, Debug)]
pub enum Refused {
    Unreadable,
    TooLong,
    OutOfMemory,
}

// Reads standard input to its end, if it has fewer than `limit` bytes.
pub fn read<R: Input + AllocGlobal>(rt: &R, limit: usize) -> Result<Vec<u8>, Refused>
    ensures { IfOk result (λ v. vec_len v < limit) }
{
    let mut input = Vec::new(rt.alloc());
    match rt.reader().take(limit as u64).read_to_end(&mut input) {
        Ok(_) if input.len() < limit => Ok(input),
        Ok(_) => Err(Refused::TooLong),
        Err(error) if error.kind() == ErrorKind::OutOfMemory => Err(Refused::OutOfMemory),
        Err(_) => Err(Refused::Unreadable),
    }
}

// Reads standard input until it ends, cannot be read further or gave `most` bytes. There is room for one byte more, so that the
// reading itself needs no memory.
pub fn front<R: Input + AllocGlobal>(rt: &R, most: usize) -> Result<Vec<u8>, AllocError>
    ensures { IfOk result (λ v. vec_len v ≤ most) }
{
    let mut input = Vec::with_capacity(rt.alloc(), most.saturating_add(1))?;
    let _ = rt.reader().take(most as u64).read_to_end(&mut input);
    input.truncate(most);
    Ok(input)
}

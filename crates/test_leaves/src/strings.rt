// The strings area: where a name is found, and where a new one goes.
use fdt_strings::{Interned, StringRoom};
use std::io;
use std::io::Write;

// `find NAME in STRINGS`.
pub fn find(out: &mut impl Write, strings: &[u8], name: &[u8]) -> io::Result<()> {
    match fdt_strings::find_string(strings, name) {
        Some(offset) => write!(out, "at {offset}"),
        None => write!(out, "nothing"),
    }
}

// `ask NAME with room ROOM|USED`.
pub fn ask(out: &mut impl Write, used: &[u8], room: usize, name: &[u8]) -> io::Result<()> {
    match fdt_strings::intern_string(used, room, name) {
        Ok(Interned::Known(offset)) => write!(out, "known at {offset}"),
        Ok(Interned::New(offset)) => write!(out, "new at {offset}"),
        Err(StringRoom) => write!(out, "15"),
    }
}

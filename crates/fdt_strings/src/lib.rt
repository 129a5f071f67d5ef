// The strings area: finding a name, finding room for a new one, and storing it.
#![tactic(auto)]

ghost use Rattle.std.specs.Prelude.{◌≡◌, ◌+◌, ◌≤◌, length};
ghost use Rattle.fdt_bytes.specs.Splice.{splice};
ghost use Rattle.fdt_strings.specs.Entries.{entry, find_string};
ghost use Rattle.fdt_strings.specs.Interned.{interned};

// The offset of a name that is there, or the offset for a new one.
#[derive(Clone, Copy, Debug, PartialEq, Eq)]
pub enum Interned {
    Known(usize),
    New(usize),
}

// Refusal 15: a new name and its 0 don't fit.
#[derive(Clone, Copy, Debug, PartialEq, Eq)]
pub struct StringRoom;

// Finds the first whole entry that is the name.
pub fn find_string(strings: &[u8], name: &[u8]) -> Option<usize>
    ensures { result ≡ find_string strings.now name.now }
{
    fdt_search::first_entry(strings, name)
}

// Finds the name in the used strings, or a place for it after them if it and its 0 fit within `room`. Stores nothing.
pub fn intern_string(used: &[u8], room: usize, name: &[u8]) -> Result<Interned, StringRoom>
    ensures { result ≡ interned used.now room name.now }
{
    if let Some(offset) = find_string(used, name) {
        return Ok(Interned::Known(offset));
    }
    if room.saturating_sub(used.len()) <= name.len() {
        return Err(StringRoom);
    }
    Ok(Interned::New(used.len()))
}

// Stores a new name and its 0 at its offset.
pub fn store_string(strings: &mut [u8], offset: usize, name: &[u8])
    requires { offset + length (entry name.now) ≤ length strings.old }
    ensures { strings.new ≡ splice offset (entry name.now) strings.old }
{
    fdt_bytes::append_bytes(&mut strings[offset..], name);
    let end = offset + name.len();
    strings[end] = 0;
}

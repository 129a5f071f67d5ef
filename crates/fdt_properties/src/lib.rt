// A property, except its value: makes its tests, stores its name, and writes its words and padding.
#![tactic(auto)]

ghost use Rattle.std.specs.Prelude.{◌≡◌, ◌∷◌, ◌+◌, ◌≤◌, ◌<◌, ◌^◌, eqb, length, IfOk};
ghost use Rattle.fdt_bytes.specs.Padding.{round_up};
ghost use Rattle.fdt_record.specs.Fields.{with_used_blob, with_used_strings};
ghost use Rattle.fdt_record.specs.declared.Error.TheVariants.{PropertyAfterEndNode, PropertyBeforeBeginNode};
ghost use Rattle.fdt_record.specs.Rows.{◌⇒◌, first};
ghost use Rattle.fdt_values.specs.Value.{Value};
ghost use Rattle.fdt_properties.specs.Placeholder.{measure, tested_place, PropertyTested, NameFits, FrameFits, framed, Placeholder};
ghost use Rattle.fdt_properties.specs.Property.{place_of, place_offset, is_repeated, added, stored, name_rows};

use fdt_format::FDT_PROP;
use fdt_record::{Error, Record};
use fdt_strings::Interned;

// How many bytes the three words of a property take.
const WORDS: usize = 12;

// What the tests find: the name's place, how many bytes the value takes, and the record after the call.
#[derive(Clone, Copy)]
struct Tested {
    place: Interned,
    len: usize,
    after: Record,
}

// Where the value goes, and the record after the call.
#[derive(Clone, Copy)]
pub struct Placed {
    pub at: usize,
    pub after: Record,
}

// The tests of the open node and of the name: 2, 1, 5, 11.
#[tactic(auto, unfolding(fdt_record::specs::Rows::first, crate::specs::Property::name_rows))]
fn name_tests(w: Record, name: &[u8]) -> Result<(), Error>
    ensures { result ≡ first ((w.node_ended ⇒ PropertyAfterEndNode) ∷ (eqb w.node_depth 0 ⇒ PropertyBeforeBeginNode) ∷ name_rows name.now) }
{
    if w.node_ended {
        return Err(Error::PropertyAfterEndNode);
    }
    if w.node_depth == 0 {
        return Err(Error::PropertyBeforeBeginNode);
    }
    if fdt_names::has_zero(name) {
        return Err(Error::InvalidString);
    }
    if !fdt_names::property_name_valid(name) {
        return Err(Error::InvalidPropertyName);
    }
    Ok(())
}

// The place of the name, or its refusal: 20 if the open node already has a property of it, 15 if it is new and has no room. A name
// has one of these or neither, so that either may be tested first.
#[tactic(auto, using(crate::proofs::Places::found_place, crate::proofs::Places::known_place), unfolding(crate::specs::Property::place_of, crate::specs::Property::is_repeated, crate::specs::Property::is_known, crate::specs::Property::place_offset, fdt_strings::specs::Interned::values_of))]
fn place_of(w: Record, blob: &[u8], strings: &[u8], name: &[u8]) -> Result<Interned, Error>
    requires start { w.node_start ≤ w.blob_used }
    requires within { w.blob_used ≤ length blob.now }
    requires stored { w.strings_used ≤ length strings.now }
    ensures { let p = place_of w strings.now name.now in result ≡ tested_place p (is_repeated w blob.now p) }
{
    let found = fdt_strings::intern_string(&strings[..w.strings_used], w.strings_room, name);
    let place = found.or(Err(Error::StringRoom))?;
    if let Interned::Known(offset) = place {
        if fdt_look_back::look_back(blob, w.node_start, w.blob_used, offset) {
            return Err(Error::DuplicateProperty);
        }
    }
    Ok(place)
}

// The offset of a name at its place.
#[tactic(auto, unfolding(crate::specs::Property::place_offset, fdt_strings::specs::Interned::values_of))]
fn offset_of(place: Interned) -> usize
    ensures { result ≡ place_offset (Ok place) }
{
    match place {
        Interned::Known(offset) | Interned::New(offset) => offset,
    }
}

// How many bytes a name adds to the used strings.
#[tactic(auto, unfolding(crate::specs::Property::added, fdt_strings::specs::Entries::entry))]
fn added_by(place: Interned, name: &[u8]) -> usize
    ensures { result ≡ added (Ok place) name.now }
{
    match place {
        Interned::Known(_) => 0,
        Interned::New(_) => name.len() + 1,
    }
}

// The record after a property: `len` bytes of value, and `added` bytes for its name.
#[tactic(auto, unfolding(fdt_bytes::specs::Padding::round_up))]
fn after_property(w: Record, len: usize, added: usize) -> Record
    requires len_bound { w.blob_used + (12 + round_up 4 len) < 2 ^ 64 }
    requires added_bound { w.strings_used + added < 2 ^ 64 }
    ensures { result ≡ with_used_strings (w.strings_used + added) (with_used_blob (w.blob_used + (12 + round_up 4 len)) w) }
{
    Record {
        blob_used: w.blob_used + (WORDS + fdt_bytes::round_up(len, 4)),
        strings_used: w.strings_used + added,
        ..w
    }
}

// All tests of a property, in their order. `value` is what the value's own tests find: 17 or 5, or how many bytes it takes.
fn property_tests(
    w: Record,
    blob: &[u8],
    strings: &[u8],
    name: &[u8],
    value: Result<usize, Error>,
) -> Result<Tested, Error>
    requires { IfOk value (λ len. len < 2 ^ 63 + 2 ^ 62) }
    ensures { PropertyTested w blob.now strings.now name.now value result }
{
    w.strings_tests(blob.len(), strings)?;
    let len = value?;
    name_tests(w, name)?;
    let place = place_of(w, blob, strings, name)?;
    let after = after_property(w, len, added_by(place, name));
    if after.overfull() {
        return Err(Error::BlobRoom);
    }
    Ok(Tested { place, len, after })
}

// Stores a new name, with its 0.
#[tactic(auto, unfolding(crate::specs::Property::stored, crate::specs::Property::added, crate::specs::Property::place_offset, fdt_strings::specs::Interned::values_of, fdt_strings::specs::Entries::entry))]
fn store_name(strings: &mut [u8], place: Interned, name: &[u8])
    requires { NameFits (Ok place) name.now strings.old }
    ensures { strings.new ≡ stored (Ok place) name.now strings.old }
{
    if let Interned::New(offset) = place {
        fdt_strings::store_string(strings, offset, name);
    }
}

// Writes a property's three words at `used`, and zeros from the end of its value to `end`.
#[tactic(auto, unfolding(crate::specs::Placeholder::framed, fdt_bytes::specs::Padding::round_up, fdt_bytes::specs::BigEndian::cell_bytes))]
fn put_frame(blob: &mut [u8], used: usize, offset: usize, len: usize, end: usize)
    requires { FrameFits used offset len end (length blob.old) }
    ensures { blob.new ≡ framed used offset len end blob.old }
{
    fdt_splice::cells_at(blob, used, &[FDT_PROP, len as u32, offset as u32]);
    let behind = used + WORDS + len;
    fdt_splice::zeros_at(blob, behind, end - behind);
}

// Makes all tests of a property and, if they are passed, writes everything except its value: its name, words and padding.
// `value` is what the value's own tests find. Record and buffers are no struct: document 01's calls are lent the buffers one by one,
// so that each call would only put them together and take them apart again.
#[tactic(auto, using(crate::proofs::Filling::nothing_placed))]
pub fn property_placeholder(
    w: Record,
    blob: &mut [u8],
    strings: &mut [u8],
    name: &[u8],
    value: Result<usize, Error>,
) -> Result<Placed, Error>
    requires { IfOk value (λ len. len < 2 ^ 63 + 2 ^ 62) }
    ensures { (v : Value) → value ≡ measure v → Placeholder w blob.old strings.old name.now v result blob.new strings.new }
{
    let tested = property_tests(w, blob, strings, name, value)?;
    let after = tested.after;
    let used = w.blob_used;
    let offset = offset_of(tested.place);
    store_name(strings, tested.place, name);
    put_frame(blob, used, offset, tested.len, after.blob_used);
    Ok(Placed {
        at: used + WORDS,
        after,
    })
}

// Writes a property of any kind of value: a placeholder, filled with bytes, numbers or strings.
#![tactic(auto, using(crate::proofs::Lengths::lengths), unfolding(fdt_properties::specs::Placeholder::measure, fdt_values::specs::Value::misfit_value, fdt_values::specs::Value::zero_value, fdt_values::specs::Value::value_bytes, fdt_bytes::specs::BigEndian::cell_bytes))]

ghost use Rattle.std.specs.Prelude.{◌≡◌, false, ◌+◌, ◌≤◌, ◌<◌, ◌^◌, length, IfOk};
ghost use Rattle.fdt_bytes.specs.Splice.{splice};
ghost use Rattle.fdt_values.specs.Value.{Value, raw, cells, texts, value_bytes, misfit_value};
ghost use Rattle.fdt_properties.specs.Placeholder.{measure};
ghost use Rattle.fdt_properties.specs.Property.{PropertyOutcome};

use fdt_properties::property_placeholder;
use fdt_record::{Error, Outcome, Record};

// What can be the value of a property.
pub trait PropertyValue: Copy {
    // The value.
    ghost value: { Self → Value };

    // How many bytes it takes, or what its own tests refuse: 17, 5.
    fn measured(&self) -> Result<usize, Error>
        ensures measures { result ≡ measure (value self.now) }
        ensures small { IfOk result (λ len. len < 2 ^ 63 + 2 ^ 62) };

    // Writes its bytes from a place of the blob on.
    fn put(&self, blob: &mut [u8], at: usize)
        requires in_order { misfit_value (value self.now) ≡ false }
        requires fits { at + length (value_bytes (value self.now)) ≤ length blob.old }
        ensures { blob.new ≡ splice at (value_bytes (value self.now)) blob.old };
}

// Bytes as they are.
impl<'a> PropertyValue for &'a [u8] {
    ghost value = { λ s. raw s.now };

    fn measured(&self) -> Result<usize, Error> {
        Ok(self.len())
    }

    fn put(&self, blob: &mut [u8], at: usize) {
        fdt_splice::bytes_at(blob, at, self);
    }
}

// Numbers of 4 bytes.
impl<'a> PropertyValue for &'a [u32] {
    ghost value = { λ s. cells 4 s.now };

    fn measured(&self) -> Result<usize, Error> {
        Ok(4 * self.len())
    }

    fn put(&self, blob: &mut [u8], at: usize) {
        fdt_splice::cells_at(blob, at, self);
    }
}

// Numbers of 8 bytes. Not one impl for every `Cell`: tried, but of a type parameter it is not proved that a slice's bytes can be counted.
impl<'a> PropertyValue for &'a [u64] {
    ghost value = { λ s. cells 8 s.now };

    fn measured(&self) -> Result<usize, Error> {
        Ok(8 * self.len())
    }

    fn put(&self, blob: &mut [u8], at: usize) {
        fdt_splice::cells_at(blob, at, self);
    }
}

// Strings, given as their joined bytes and their lengths, as `geirovund_property_string_list` is given them from C.
#[derive(Clone, Copy)]
pub struct Texts<'a> {
    pub joined: &'a [u8],
    pub lengths: &'a [usize],
}

impl<'a> PropertyValue for Texts<'a> {
    ghost value = { λ t. texts t.joined.now t.lengths.now };

    fn measured(&self) -> Result<usize, Error> {
        if !fdt_values::sums_to(self.lengths, self.joined.len()) {
            return Err(Error::Misfit);
        }
        if fdt_names::has_zero(self.joined) {
            return Err(Error::InvalidString);
        }
        Ok(self.joined.len() + self.lengths.len())
    }

    fn put(&self, blob: &mut [u8], at: usize) {
        fdt_values::texts_at(blob, at, self.joined, self.lengths);
    }
}

// Writes a property of a value: a placeholder, filled with the value's bytes.
pub fn write_property<V: PropertyValue>(
    w: Record,
    blob: &mut [u8],
    strings: &mut [u8],
    name: &[u8],
    val: V,
) -> Outcome<()>
    ensures { PropertyOutcome w blob.old strings.old name.now (V.value val) result blob.new strings.new }
{
    match property_placeholder(w, blob, strings, name, val.measured()) {
        Ok(placed) => {
            val.put(blob, placed.at);
            Outcome {
                answer: Ok(()),
                after: placed.after,
            }
        }
        Err(error) => Outcome {
            answer: Err(error),
            after: w,
        },
    }
}

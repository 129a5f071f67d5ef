// Records a phandle in the table, and writes its property.
#![tactic(auto)]

ghost use Rattle.std.specs.Prelude.{◌≡◌};
ghost use Rattle.fdt_phandles.specs.Phandle.{phandle_name, phandle_value, record_answer, PhandleOutcome};
ghost use Rattle.fdt_properties.specs.Property.{PropertyOutcome};

use fdt_record::{Error, Outcome, Record};

// The name of a phandle's property.
pub const PHANDLE: [u8; 7] = *b"phandle";

// The tests before a phandle is recorded: 18, 17, 13, 16.
#[tactic(auto, using(crate::proofs::Phandles::one_of_any), unfolding(fdt_record::specs::Rows::first, fdt_record::specs::Tests::alone_rows, fdt_record::specs::Tests::blob_rows, fdt_record::specs::Tests::strings_rows, fdt_record::specs::Misfits::misfit_phandles, fdt_record::specs::Misfits::misfit_room, fdt_record::specs::Limits::usable, crate::specs::Phandle::record_rows, crate::specs::Phandle::record_answer))]
fn record_tests(
    w: Record,
    lent: usize,
    strings: &[u8],
    phandles: &[u32],
    val: u32,
) -> Result<(), Error>
    ensures { result ≡ record_answer w lent strings.now phandles.now val }
{
    w.strings_tests(lent, strings)?;
    if w.misfit_phandles(phandles.len()) {
        return Err(Error::Misfit);
    }
    if phandles[..w.phandles_used].contains(&val) {
        return Err(Error::DuplicatePhandle);
    }
    if w.phandles_room <= w.phandles_used {
        return Err(Error::PhandleRoom);
    }
    Ok(())
}

// Writes the property of a phandle.
#[tactic(auto, unfolding(crate::specs::Phandle::phandle_name, crate::specs::Phandle::phandle_value))]
fn put_phandle(w: Record, blob: &mut [u8], strings: &mut [u8], val: u32) -> Outcome<()>
    ensures { PropertyOutcome w blob.old strings.old phandle_name (phandle_value val) result blob.new strings.new }
{
    fdt_property_kinds::write_property(w, blob, strings, &PHANDLE, [val].as_slice())
}

// Records a phandle and writes its property; the value is recorded even if the property is then refused.
#[tactic(auto, using(crate::proofs::Phandles::record_fits), unfolding(crate::specs::Phandle::recorded, crate::specs::Phandle::phandle, crate::specs::Phandle::phandle_blob, crate::specs::Phandle::phandle_strings, crate::specs::Phandle::phandle_table, fdt_record::specs::Answers::accepts))]
pub fn property_phandle(
    w: Record,
    blob: &mut [u8],
    strings: &mut [u8],
    phandles: &mut [u32],
    val: u32,
) -> Outcome<()>
    ensures { PhandleOutcome w blob.old strings.old phandles.old val result blob.new strings.new phandles.new }
{
    if let Err(error) = record_tests(w, blob.len(), strings, phandles, val) {
        return Outcome {
            answer: Err(error),
            after: w,
        };
    }
    let count = w.phandles_used;
    phandles[count] = val;
    let recorded = Record {
        phandles_used: count + 1,
        ..w
    };
    put_phandle(recorded, blob, strings, val)
}

// The reader as functions that C and Rust can call.
#![tactic(auto)]

ghost use Rattle.export_reader.specs.Told.{ReadTold, FaultTold};

// Reads a blob into a list, as `fdt_reader::read` does, and returns the number of the answer. Sets the values to the boot number
// and the counts of reservations and entries, all 0 if the blob is refused.
#[unsafe(no_mangle)]
pub extern "C" fn read_blob(blob: &[u8], list: &mut [u32], values: &mut [usize; 3]) -> u32
    ensures { ReadTold blob.now list.old list.new values.new result }
{
    let answer = fdt_reader::read(blob, list);
    let told = fdt_reader::values_of(answer);
    *values = [told.boot as usize, told.reservations, told.entries];
    fdt_reader::number(answer)
}

// Surveys a blob, and returns the number of its first fault, or 0. Sets the place to that of the fault, or to 0.
#[unsafe(no_mangle)]
pub extern "C" fn blob_fault(blob: &[u8], place: &mut usize) -> u32
    ensures { FaultTold blob.now place.new result }
{
    let seen = fdt_reader::survey(blob);
    *place = fdt_reader::fault_place(seen);
    match seen {
        Ok(_) => 0,
        Err(fault) => fdt_walk::number(fault.refusal),
    }
}

// The look back for a name: whether one of the properties that the open node has so far has a name offset.
#![tactic(auto)]

ghost use Rattle.std.specs.Prelude.{◌≡◌, true, false, ◌≤◌, length};
ghost use Rattle.fdt_format.specs.LookBack.{look_back};

use fdt_format::FDT_PROP;
use fdt_search::{Clue, Clues};

// After so many bytes of properties, up to so many, the rest is searched. Short properties come there, long ones mostly do not.
const FROM: usize = 96;

const TO: usize = 128;

// True only if no property from `at` on has this name offset: nowhere are the last bytes of its token and of its offset.
fn ruled_out(blob: &[u8], start: usize, at: usize, end: usize, offset: usize) -> bool
    requires { (start ≤ at) × (at ≤ end) × (end ≤ length blob.now) }
    ensures { result ≡ true → look_back blob.now end offset at ≡ false }
{
    let passed = at - start;
    if passed < FROM || TO <= passed || end - at < FROM {
        return false;
    }
    let c = Clues {
        first: Clue {
            at: 11,
            byte: (offset % 256) as u8,
        },
        second: Clue {
            at: 10,
            byte: (offset / 256 % 256) as u8,
        },
        third: Clue {
            at: 3,
            byte: FDT_PROP as u8,
        },
    };
    let to = end - 11;
    fdt_search::next_gap(blob, at, to, c).is_none()
}

// Whether one of the properties from `start` on has this name offset. Stops at `end`, or at anything that is no whole property.
pub fn look_back(blob: &[u8], start: usize, end: usize, offset: usize) -> bool
    requires { (start ≤ end) × (end ≤ length blob.now) }
    ensures { result ≡ look_back blob.now end offset start }
{
    let mut at = start;
    while !ruled_out(blob, start, at, end, offset) {
        let Some(size) = fdt_read_token::property_size(blob, at, end) else {
            return false;
        };
        if fdt_bytes::read_u32(blob, at + 8) as usize == offset {
            return true;
        }
        at += size;
    }
    false
}

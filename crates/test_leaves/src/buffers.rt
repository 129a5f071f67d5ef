// Writing into a buffer, `CALL ..|BUFFER VALUE`: the answer is the buffer after the call.
use crate::cases::spelled;
use std::alloc::Global;
use std::io;
use std::io::Write;
use text_lines::numbers;
use text_lines::said::{Bytes, Style};

// Writes into a buffer, if there is room. `store` and `update_u32` write from a place on; a call that is not listed is taken for
// `align`, which aligns a length to 4.
fn change(call: &[u8], buffer: &mut [u8], at: usize, bytes: &[u8], number: u64) {
    let room = buffer.len();
    let rest = room.saturating_sub(at);
    match call {
        b"store" => if bytes.len() < rest {
            fdt_strings::store_string(buffer, at, bytes);
        },
        b"append_bytes" => if bytes.len() <= room {
            fdt_bytes::append_bytes(buffer, bytes);
        },
        b"append_u32" => if 4 <= room {
            fdt_bytes::append_u32(buffer, numbers::low(number));
        },
        b"append_u64" => if 8 <= room {
            fdt_bytes::append_u64(buffer, number);
        },
        b"update_u32" => if 4 <= rest {
            fdt_splice::update_u32(buffer, at, numbers::low(number));
        },
        _ => if 4 <= room {
            fdt_bytes::align(buffer, number as usize, 4);
        },
    }
}

// Makes the call, and writes the buffer out.
pub fn answer(
    alloc: Global,
    out: &mut impl Write,
    call: &[u8],
    at: usize,
    given: &[u8],
) -> io::Result<()> {
    let mut buffer = spelled(alloc, given, 0)?;
    let bytes = spelled(alloc, given, 1)?;
    change(call, &mut buffer, at, &bytes, numbers::number(given, 1));
    let text = Bytes {
        bytes: &buffer,
        style: Style::Bytes,
        led: false,
    };
    write!(out, "{text}")
}

// Big-endian numbers, bytes and padding, written to and read from buffers that the caller lends. `rest` is the unused rest of a buffer; the writers write to its front.
#![tactic(auto)]

ghost use Rattle.std.specs.Prelude.{◌≡◌, ℕ, ◌+◌, ◌≤◌, ◌<◌, ◌^◌, List, length, take, drop, refl};
ghost use Rattle.fdt_bytes.specs.BigEndian.{big_endian, word_at, wide_at};
ghost use Rattle.fdt_bytes.specs.Padding.{padding, round_up, zeros};
ghost use Rattle.fdt_bytes.specs.Splice.{over};

// A number that is written as a fixed count of bytes, highest byte first.
pub trait Cell: Copy {
    // How many bytes.
    const SIZE: usize;

    ghost SIZE: { ℕ };

    // The bytes of the number.
    ghost bytes: { Self → List ℕ };

    // Writes the number to the front of the rest.
    fn append(self, rest: &mut [u8])
        requires { SIZE ≤ length rest.old }
        ensures { rest.new ≡ over (bytes self) rest.old };

    ghost sized: { (x : Self) → length (bytes x) ≡ SIZE };
}

impl Cell for u32 {
    const SIZE: usize = 4;

    ghost SIZE = { 4 };

    ghost bytes = { big_endian 4 };

    ghost sized = { λ x. unfold big_endian in refl };

    fn append(self, rest: &mut [u8]) {
        append_u32(rest, self);
    }
}

impl Cell for u64 {
    const SIZE: usize = 8;

    ghost SIZE = { 8 };

    ghost bytes = { big_endian 8 };

    ghost sized = { λ x. unfold big_endian in refl };

    fn append(self, rest: &mut [u8]) {
        append_u64(rest, self);
    }
}

// Writes a number of 4 bytes to the front of the rest. `Cell::append` at u32 under its own name, which other crates call.
pub fn append_u32(rest: &mut [u8], val: u32)
    requires { 4 ≤ length rest.old }
    ensures { rest.new ≡ over (big_endian 4 val) rest.old }
{
    append_bytes(rest, &u32::to_be_bytes(val));
}

// Writes a number of 8 bytes to the front of the rest. `Cell::append` at u64 under its own name, which other crates call.
pub fn append_u64(rest: &mut [u8], val: u64)
    requires { 8 ≤ length rest.old }
    ensures { rest.new ≡ over (big_endian 8 val) rest.old }
{
    append_bytes(rest, &u64::to_be_bytes(val));
}

// A byte as a number of 32 bits.
fn widened(byte: u8) -> u32
    ensures { (result ≡ byte) × (result < 256) }
{
    u32::from(byte)
}

// Reads the number of 4 bytes at a place. By its bytes: a reading takes 1.1 to 2 times as long with `from_be_bytes`. Both widths keep
// their names, which other crates call.
pub fn read_u32(bytes: &[u8], at: usize) -> u32
    requires { at + 4 ≤ length bytes.now }
    ensures { result ≡ word_at bytes.now at }
{
    widened(bytes[at]) * 0x100_0000
        + widened(bytes[at + 1]) * 0x1_0000
        + widened(bytes[at + 2]) * 0x100
        + widened(bytes[at + 3])
}

// Reads the number of 8 bytes at a place: its high half, then its low half.
pub fn read_u64(bytes: &[u8], at: usize) -> u64
    requires { at + 8 ≤ length bytes.now }
    ensures { result ≡ wide_at bytes.now at }
{
    u64::from(read_u32(bytes, at)) * 0x1_0000_0000 + u64::from(read_u32(bytes, at + 4))
}

// Writes the bytes of a value to the front of the rest.
#[tactic(auto, unfolding(crate::specs::Splice::over))]
pub fn append_bytes(rest: &mut [u8], val: &[u8])
    requires { length val.now ≤ length rest.old }
    ensures { rest.new ≡ over val.now rest.old }
{
    rest[..val.len()].copy_from_slice(val);
}

// Writes zeros to the front of the rest.
#[tactic(auto, unfolding(crate::specs::Splice::over, crate::specs::Padding::zeros))]
pub fn pad(rest: &mut [u8], num_bytes: usize)
    requires { num_bytes ≤ length rest.old }
    ensures { rest.new ≡ over (zeros num_bytes) rest.old }
{
    rest[..num_bytes].fill(0);
}

// How many bytes bring a length to a multiple of the alignment.
pub fn padding_of(len: usize, alignment: usize) -> usize
    requires { 0 < alignment }
    ensures { result ≡ padding alignment len }
{
    let offset = len % alignment;
    if offset == 0 {
        return 0;
    }
    alignment - offset
}

// A length rounded up to a multiple of the alignment.
pub fn round_up(len: usize, alignment: usize) -> usize
    requires { (0 < alignment) × (len + alignment < 2 ^ 64) }
    ensures { result ≡ round_up alignment len }
{
    len + padding_of(len, alignment)
}

// Writes zeros to the front of the rest: as many as bring the length before it to a multiple of the alignment.
pub fn align(rest: &mut [u8], len: usize, alignment: usize)
    requires alignment_nonzero { 0 < alignment }
    requires room { padding alignment len ≤ length rest.old }
    ensures { rest.new ≡ over (zeros (padding alignment len)) rest.old }
{
    pad(rest, padding_of(len, alignment));
}

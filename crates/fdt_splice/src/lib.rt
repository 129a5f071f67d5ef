// Bytes written at a place of a buffer: the part from that place on is lent to the writers of fdt_bytes.
#![tactic(auto)]

ghost use Rattle.std.specs.Prelude.{◌≡◌, ◌+◌, ◌*◌, ◌≤◌, length, flat_map};
ghost use Rattle.fdt_bytes.specs.BigEndian.{big_endian};
ghost use Rattle.fdt_bytes.specs.Padding.{zeros};
ghost use Rattle.fdt_bytes.specs.Splice.{splice};

use fdt_bytes::Cell;

// Rewrites a number of 4 bytes at an offset of the blob.
pub fn update_u32(blob: &mut [u8], offset: usize, val: u32)
    requires { offset + 4 ≤ length blob.old }
    ensures { blob.new ≡ splice offset (big_endian 4 val) blob.old }
{
    fdt_bytes::append_u32(&mut blob[offset..], val);
}

// Writes the bytes of a value from a place of the blob on.
pub fn bytes_at(blob: &mut [u8], at: usize, val: &[u8])
    requires { at + length val.now ≤ length blob.old }
    ensures { blob.new ≡ splice at val.now blob.old }
{
    fdt_bytes::append_bytes(&mut blob[at..], val);
}

// Writes zeros from a place of the blob on.
pub fn zeros_at(blob: &mut [u8], at: usize, num_bytes: usize)
    requires { at + num_bytes ≤ length blob.old }
    ensures { blob.new ≡ splice at (zeros num_bytes) blob.old }
{
    fdt_bytes::pad(&mut blob[at..], num_bytes);
}

// Writes numbers of one width, one after the other, from a place of the blob on.
pub fn cells_at<T: Cell>(blob: &mut [u8], at: usize, cells: &[T])
    requires { at + T.SIZE * length cells.now ≤ length blob.old }
    ensures { blob.new ≡ splice at (flat_map T.bytes cells.now) blob.old }
{
    for (i, cell) in cells.iter().enumerate() {
        cell.append(&mut blob[at + T::SIZE * i..]);
    }
}

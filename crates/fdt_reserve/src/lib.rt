// Memory reservations: making one, and whether any two overlap.
#![tactic(auto)]

ghost use Rattle.std.specs.Prelude.{◌≡◌, true, ◌↔◌, ◌/◌, ◌<◌, length};
ghost use Rattle.fdt_reserve.specs.Entry.{reserved};
ghost use Rattle.fdt_reserve.specs.Overlap.{Overlap, entry_at, share};

// A region of physical memory that the operating system must not use.
#[derive(Clone, Copy, Debug, PartialEq, Eq)]
pub struct FdtReserveEntry {
    pub address: u64,
    pub size: u64,
}

// Refusal 8: size 0, or address + size at least 2^64.
#[derive(Clone, Copy, Debug, PartialEq, Eq)]
pub struct InvalidMemoryReservation;

impl FdtReserveEntry {
    // A reservation of `size` bytes from `address` on, or refusal 8.
    pub fn new(address: u64, size: u64) -> Result<FdtReserveEntry, InvalidMemoryReservation>
        ensures { result ≡ reserved address size }
    {
        if size == 0 {
            return Err(InvalidMemoryReservation);
        }
        if u64::MAX - address < size {
            return Err(InvalidMemoryReservation);
        }
        Ok(FdtReserveEntry { address, size })
    }
}

// Whether two regions share an address. If they do, they share the greater of their starts.
fn share_address(one: FdtReserveEntry, other: FdtReserveEntry) -> bool
    ensures { result ≡ share one.address one.size other.address other.size }
{
    if one.address <= other.address {
        if other.size == 0 {
            return false;
        }
        return other.address - one.address < one.size;
    }
    if one.size == 0 {
        return false;
    }
    one.address - other.address < other.size
}

// Reservation `k` of a list of addresses and sizes in turn, as C lends it.
#[tactic(auto, unfolding(crate::specs::Overlap::entry_at, crate::specs::Overlap::start, crate::specs::Overlap::size))]
pub fn entry_at(mem_reservations: &[u64], k: usize) -> FdtReserveEntry
    requires { k < length mem_reservations.now / 2 }
    ensures { result ≡ entry_at mem_reservations.now k }
{
    FdtReserveEntry {
        address: mem_reservations[2 * k],
        size: mem_reservations[2 * k + 1],
    }
}

// Whether some address lies in two of the reservations, which are a list of addresses and sizes in turn.
pub fn check_overlapping(mem_reservations: &[u64]) -> bool
    ensures { (result ≡ true) ↔ Overlap mem_reservations.now }
{
    let n = mem_reservations.len() / 2;
    let mut overlapping = false;
    'pairs: for i in 0..n {
        let one = entry_at(mem_reservations, i);
        for j in i + 1..n {
            if share_address(one, entry_at(mem_reservations, j)) {
                overlapping = true;
                break 'pairs;
            }
        }
    }
    overlapping
}

// The header of a blob, and where the structure begins.
#![tactic(auto)]

ghost use Rattle.std.specs.Prelude.{◌≡◌, ◌+◌, ◌≤◌, ◌<◌, ◌^◌};
ghost use Rattle.fdt_header.specs.Header.{structure_start, words_from};

// Bytes of a reservation: its address and its size. As many zeros end the reservations.
pub const RESERVATION_SIZE: usize = 16;

// Where the structure begins if there are no reservations: after the header and those zeros.
pub const STRUCTURE_START: usize = Header::SIZE + RESERVATION_SIZE;

// The numbers of a header that differ from blob to blob.
#[derive(Clone, Copy)]
pub struct Header {
    pub off_dt_struct: u32,
    pub off_dt_strings: u32,
    pub size_dt_strings: u32,
    pub boot_cpuid_phys: u32,
}

impl Header {
    pub const MAGIC: u32 = 0xd00d_feed;

    pub const VERSION: u32 = 17;

    pub const LAST_COMP_VERSION: u32 = 16;

    // Bytes of the header.
    pub const SIZE: usize = 40;

    // Where the reservations begin: just after the header.
    pub const OFF_MEM_RSVMAP: u32 = Self::SIZE as u32;

    // The words of the header, in order.
    pub fn words(self) -> [u32; 10]
        requires off_dt_struct_bound { self.off_dt_struct ≤ self.off_dt_strings }
        requires size_dt_strings_bound { self.off_dt_strings + self.size_dt_strings < 2 ^ 32 }
        ensures { result ≡ words_from self.off_dt_struct self.off_dt_strings self.size_dt_strings self.boot_cpuid_phys }
    {
        [
            Self::MAGIC,
            self.off_dt_strings + self.size_dt_strings,
            self.off_dt_struct,
            self.off_dt_strings,
            Self::OFF_MEM_RSVMAP,
            Self::VERSION,
            Self::LAST_COMP_VERSION,
            self.boot_cpuid_phys,
            self.size_dt_strings,
            self.off_dt_strings - self.off_dt_struct,
        ]
    }
}

// Where the structure begins in a blob with `n` reservations.
pub fn structure_start(n: usize) -> usize
    requires { n < 2 ^ 32 }
    ensures { result ≡ structure_start n }
{
    STRUCTURE_START + RESERVATION_SIZE * n
}

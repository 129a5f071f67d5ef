// The record's fields, by name.
use fdt_record::Record;
use text_lines::numbers;

// The names, in the order of a report.
pub const NAMES: [&str; 12] = [
    "blob_room",
    "blob_used",
    "strings_room",
    "strings_used",
    "phandles_room",
    "phandles_used",
    "reservations",
    "node_depth",
    "node_start",
    "boot_cpuid_phys",
    "node_ended",
    "finished",
];

// The fields as numbers, in their order.
pub fn apart(r: Record) -> [u64; 12] {
    [
        r.blob_room as u64,
        r.blob_used as u64,
        r.strings_room as u64,
        r.strings_used as u64,
        r.phandles_room as u64,
        r.phandles_used as u64,
        r.reservations as u64,
        r.node_depth as u64,
        r.node_start as u64,
        u64::from(r.boot_cpuid_phys),
        u64::from(r.node_ended),
        u64::from(r.finished),
    ]
}

// A record with the field set that the line names, as a report names it.
pub fn with(before: Record, line: &[u8]) -> Record {
    let mut r = before;
    let n = numbers::number(line, 2);
    let size = n as usize;
    match text_lines::word(line, 1) {
        b"blob_room" => r.blob_room = size,
        b"blob_used" => r.blob_used = size,
        b"strings_room" => r.strings_room = size,
        b"strings_used" => r.strings_used = size,
        b"phandles_room" => r.phandles_room = size,
        b"phandles_used" => r.phandles_used = size,
        b"reservations" => r.reservations = size,
        b"node_depth" => r.node_depth = size,
        b"node_start" => r.node_start = size,
        b"boot_cpuid_phys" => r.boot_cpuid_phys = numbers::low(n),
        b"node_ended" => r.node_ended = n != 0,
        b"finished" => r.finished = n != 0,
        _ => {}
    }
    r
}

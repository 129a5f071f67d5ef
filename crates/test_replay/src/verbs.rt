// What a line asks for, by its first word.

// The calls that write a property and take its name.
#[derive(Clone, Copy, PartialEq, Eq)]
pub enum Kind {
    Bytes,
    Null,
    String,
    StringList,
    U32,
    U64,
    ArrayU32,
    ArrayU64,
}

// The writer's calls.
#[derive(Clone, Copy, PartialEq, Eq)]
pub enum Call {
    New,
    NewWithMemReserv,
    SetBootCpuidPhys,
    BeginNode,
    EndNode,
    Finish,
    PropertyPhandle,
    Property(Kind),
}

// What is looked at.
#[derive(Clone, Copy, PartialEq, Eq)]
pub enum Look {
    Show,
    Record,
    Blob,
    Strings,
    Phandles,
    Fields,
}

// What the next calls are given.
#[derive(Clone, Copy, PartialEq, Eq)]
pub enum Change {
    Buffers,
    Lend,
    PutBlob,
    PutStrings,
    PutPhandles,
    Set,
}

// A call, a look, a change, how the lines after it are reported, or a remark.
#[derive(Clone, Copy, PartialEq, Eq)]
pub enum Verb {
    Call(Call),
    Look(Look),
    Change(Change),
    Aloud,
    Quiet,
    Remark,
}

impl Verb {
    // The verb that a word names.
    pub fn of(word: &[u8]) -> Verb {
        match word {
            b"new" => Verb::Call(Call::New),
            b"new_with_mem_reserv" => Verb::Call(Call::NewWithMemReserv),
            b"set_boot_cpuid_phys" => Verb::Call(Call::SetBootCpuidPhys),
            b"begin_node" => Verb::Call(Call::BeginNode),
            b"end_node" => Verb::Call(Call::EndNode),
            b"finish" => Verb::Call(Call::Finish),
            b"property_phandle" => Verb::Call(Call::PropertyPhandle),
            b"property" => Verb::Call(Call::Property(Kind::Bytes)),
            b"property_null" => Verb::Call(Call::Property(Kind::Null)),
            b"property_string" => Verb::Call(Call::Property(Kind::String)),
            b"property_string_list" => Verb::Call(Call::Property(Kind::StringList)),
            b"property_u32" => Verb::Call(Call::Property(Kind::U32)),
            b"property_u64" => Verb::Call(Call::Property(Kind::U64)),
            b"property_array_u32" => Verb::Call(Call::Property(Kind::ArrayU32)),
            b"property_array_u64" => Verb::Call(Call::Property(Kind::ArrayU64)),
            b"show" => Verb::Look(Look::Show),
            b"record" => Verb::Look(Look::Record),
            b"blob" => Verb::Look(Look::Blob),
            b"strings" => Verb::Look(Look::Strings),
            b"phandles" => Verb::Look(Look::Phandles),
            b"fields" => Verb::Look(Look::Fields),
            b"buffers" => Verb::Change(Change::Buffers),
            b"lend" => Verb::Change(Change::Lend),
            b"put_blob" => Verb::Change(Change::PutBlob),
            b"put_strings" => Verb::Change(Change::PutStrings),
            b"put_phandles" => Verb::Change(Change::PutPhandles),
            b"set" => Verb::Change(Change::Set),
            b"aloud" => Verb::Aloud,
            b"quiet" => Verb::Quiet,
            _ => Verb::Remark,
        }
    }
}

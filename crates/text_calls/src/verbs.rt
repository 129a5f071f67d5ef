// The words that name the calls of a list.

// What a line of a list asks for.
#[derive(Clone, Copy, Debug, PartialEq, Eq)]
pub enum Verb {
    Reserve,
    Boot,
    Phandle,
    End,
    Begin,
    Property(Kind),
}

// What kind of value a property has.
#[derive(Clone, Copy, Debug, PartialEq, Eq)]
pub enum Kind {
    Null,
    String,
    Strings,
    Bytes,
    U32,
    U64,
}

impl Verb {
    // The call that a word names.
    pub(crate) fn of(word: &[u8]) -> Option<Verb> {
        match word {
            b"reserve" => Some(Verb::Reserve),
            b"boot" => Some(Verb::Boot),
            b"phandle" => Some(Verb::Phandle),
            b"end" => Some(Verb::End),
            b"begin" => Some(Verb::Begin),
            b"null" => Some(Verb::Property(Kind::Null)),
            b"string" => Some(Verb::Property(Kind::String)),
            b"strings" => Some(Verb::Property(Kind::Strings)),
            b"bytes" => Some(Verb::Property(Kind::Bytes)),
            b"u32" => Some(Verb::Property(Kind::U32)),
            b"u64" => Some(Verb::Property(Kind::U64)),
            _ => None,
        }
    }

    // The form of a line that makes the call.
    pub(crate) fn form(self) -> &'static str {
        match self {
            Verb::Reserve => "reserve ADDRESS SIZE",
            Verb::Boot => "boot N, at most 4294967295",
            Verb::Phandle => "phandle N, at most 4294967295",
            Verb::End => "end",
            Verb::Begin => "begin NAME",
            Verb::Property(Kind::Null) => "null NAME",
            Verb::Property(Kind::String) =>
                "string NAME \"TEXT\", with the escapes \\\" \\\\ \\n \\t \\0 \\xHH",
            Verb::Property(Kind::Strings) => {
                "strings NAME \"TEXT\" .., with the escapes \\\" \\\\ \\n \\t \\0 \\xHH"
            }
            Verb::Property(Kind::Bytes) => "bytes NAME HH .., two hexadecimal digits each",
            Verb::Property(Kind::U32) => "u32 NAME N .., each at most 4294967295",
            Verb::Property(Kind::U64) => "u64 NAME N .., each at most 18446744073709551615",
        }
    }
}

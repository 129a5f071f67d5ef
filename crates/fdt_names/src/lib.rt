// Tests of names: of nodes, of properties, and for a byte 0.
#![tactic(auto)]

ghost use Rattle.std.specs.Prelude.{◌≡◌, ◌+◌, ◌<◌, ◌≤◌, length, drop, position, eqb};
ghost use Rattle.fdt_names.specs.Grammar.{all, matches};
ghost use Rattle.fdt_names.specs.Index.{index_of};
ghost use Rattle.fdt_names.specs.Names.{letter, one_of, name_byte, node_name, property_name, has_zero};

// The greatest length of a node name, without its unit address.
pub const NODE_NAME_MAX_LEN: usize = 31;

// The greatest length of a property name.
pub const PROPERTY_NAME_MAX_LEN: usize = 31;

// What a node name may have besides letters and digits.
const NODE_NAME_MARKS: [u8; 5] = *b",._+-";

// What a property name may have besides letters and digits.
const PROPERTY_NAME_MARKS: [u8; 7] = *b",._+?#-";

// From so many bytes on, every byte is tested, so that many are tested at once: a test that stops early takes up to eight times as long.
const MANY: usize = 32;

// Whether a byte is a letter.
#[tactic(auto, unfolding(crate::specs::Names::letter))]
fn node_name_valid_first_char(c: u8) -> bool
    ensures { result ≡ letter c }
{
    c.is_ascii_alphabetic()
}

// Whether a byte is a letter, a digit or one of the marks.
fn name_valid_char(c: u8, marks: &[u8]) -> bool
    ensures { result ≡ name_byte marks.now c }
{
    c.is_ascii_alphanumeric() || marks.contains(&c)
}

// Whether every byte is a letter, a digit or one of the marks.
#[tactic(auto, unfolding(crate::specs::Grammar::all))]
fn all_valid_chars(s: &[u8], marks: &[u8]) -> bool
    ensures { result ≡ all (name_byte marks.now) s.now }
{
    s.iter().all(|c| name_valid_char(*c, marks))
}

// Whether a byte is one of the marks. Every mark is compared.
#[tactic(auto, unfolding(crate::specs::Names::one_of))]
fn is_mark(marks: &[u8], c: u8) -> bool
    ensures { result ≡ one_of marks.now c }
{
    let mut any = false;
    for mark in marks {
        any |= *mark == c;
    }
    any
}

// As `name_valid_char`, without a branch.
#[tactic(auto, unfolding(crate::specs::Names::name_byte), using(crate::proofs::Names::letter_or_digit))]
fn plain_valid_char(c: u8, marks: &[u8]) -> bool
    ensures { result ≡ name_byte marks.now c }
{
    c.is_ascii_alphanumeric() | is_mark(marks, c)
}

// As `all_valid_chars`, with every byte tested.
#[tactic(auto, unfolding(crate::specs::Grammar::all))]
fn many_valid_chars(s: &[u8], marks: &[u8]) -> bool
    ensures { result ≡ all (name_byte marks.now) s.now }
{
    let mut good = true;
    for c in s {
        good &= plain_valid_char(*c, marks);
    }
    good
}

// As `all_valid_chars`, of a unit address, which may be long.
fn address_valid_chars(s: &[u8], marks: &[u8]) -> bool
    ensures { result ≡ all (name_byte marks.now) s.now }
{
    if s.len() < MANY {
        all_valid_chars(s, marks)
    } else {
        many_valid_chars(s, marks)
    }
}

// The place of the first @.
fn first_at(s: &[u8]) -> Option<usize>
    ensures { result ≡ position (λ b. eqb b 64) s.now }
{
    s.iter().position(|c| *c == b'@')
}

// The place of the first @ after the first byte, or the end.
fn base_end(name: &[u8]) -> usize
    requires { 0 < length name.now }
    ensures value { result ≡ 1 + index_of 64 (drop 1 name.now) }
    ensures within { result ≤ length name.now }
{
    let rest = &name[1..];
    1 + first_at(rest).unwrap_or(rest.len())
}

// Whether the bytes are a node name.
pub fn node_name_valid(name: &[u8]) -> bool
    ensures { result ≡ matches node_name name.now }
{
    let n = name.len();
    if n == 0 {
        return true;
    }
    let at = base_end(name);
    if NODE_NAME_MAX_LEN < at || !node_name_valid_first_char(name[0]) {
        return false;
    }
    if !all_valid_chars(&name[1..at], &NODE_NAME_MARKS) {
        return false;
    }
    if at == n {
        return true;
    }
    let next = at + 1;
    address_valid_chars(&name[next..], &NODE_NAME_MARKS)
}

// Whether the bytes are a property name.
pub fn property_name_valid(name: &[u8]) -> bool
    ensures { result ≡ matches property_name name.now }
{
    if name.len() == 0 || PROPERTY_NAME_MAX_LEN < name.len() {
        return false;
    }
    all_valid_chars(name, &PROPERTY_NAME_MARKS)
}

// Whether one of the bytes is 0.
pub fn has_zero(s: &[u8]) -> bool
    ensures { result ≡ has_zero s.now }
{
    s.contains(&0)
}

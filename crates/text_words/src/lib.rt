// Parts of a text and numbers in it, and input that is read whole.
#![tactic(auto)]

pub mod input;
mod numbers;

ghost use Rattle.std.specs.Prelude.{◌≡◌, take, drop};

pub use numbers::{digit, number};

// The part from one index up to another, as far as the slice reaches.
pub fn part<T>(s: &[T], from: usize, to: usize) -> &[T]
    ensures { result.now ≡ drop from (take to s.now) }
{
    let front = &s[..to.min(s.len())];
    front.get(from..).unwrap_or(&[])
}

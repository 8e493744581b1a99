// Digits and numbers in a line.
ghost use Rattle.std.specs.Prelude.{◌≡◌, ◌+◌, ◌^◌, ◌<◌, ◌≤◌, length};
ghost use Rattle.scan.specs.Readers.Digits.{digits_of, digits_at, number_at};

use crate::bytes;

#[derive(Clone, Copy)]
pub struct Digits {
    pub count: usize,
    pub value: usize,
}

// The digits at the front: how many, and their value.
fn digits_of(s: &[u8]) -> Digits
    requires { length s.now ≤ 10 }
    ensures { result ≡ digits_of s.now }
{
    let mut value = 0;
    for (count, b) in s.iter().enumerate() {
        if !b.is_ascii_digit() {
            return Digits { count, value };
        }
        value = value * 10 + usize::from(b - b'0');
    }
    Digits {
        count: s.len(),
        value,
    }
}

// The digits at a place, at most `most` and at most ten, which no form exceeds.
#[tactic(auto, unfolding(crate::specs::Readers::Digits::digits_at))]
pub fn digits_at(line: &[u8], at: usize, most: usize) -> Digits
    ensures value { result ≡ digits_at line.now at most }
    ensures inside { 0 < result.count → at + result.count ≤ length line.now }
    ensures few { result.count ≤ most }
    ensures small { result.value < 10 ^ 10 }
{
    digits_of(bytes::part(line, at, most.min(10)))
}

#[tactic(auto, unfolding(crate::specs::Readers::Digits::number_at))]
pub fn number_at(line: &[u8], at: usize, limit: usize) -> Option<(usize, usize)>
    ensures { result ≡ number_at line.now at limit }
{
    if bytes::byte(line, at) == b'0' {
        return None;
    }
    let digits = digits_at(line, at, 5);
    if digits.count == 0 || digits.value > limit {
        return None;
    }
    Some((digits.value, at + digits.count))
}

// Classes of bytes, and runs of bytes of one class.
ghost use Rattle.std.specs.Prelude.{◌≡◌, ◌≤◌, length};
ghost use Rattle.scan.specs.Run.{in_range, belongs, span};

#[derive(Clone, Copy)]
pub enum Class {
    // "each 0x20–0x7E or 0x0A"
    Allowed,
    // all but the line end 0x0A
    InLine,
    // all but the double quote
    InString,
    // "A–Z, 0–9"
    InName,
    Digit,
    // all but braces
    Unbraced,
}

#[tactic(auto, unfolding(crate::specs::Run::belongs))]
pub fn belongs_to(class: Class, b: u8) -> bool
    ensures { result ≡ belongs class b }
{
    match class {
        Class::Allowed => b == b'\n' || (32..=126).contains(&b),
        Class::InLine => b != b'\n',
        Class::InString => b != b'"',
        Class::InName => b.is_ascii_uppercase() || b.is_ascii_digit(),
        Class::Digit => b.is_ascii_digit(),
        Class::Unbraced => b != b'{' && b != b'}',
    }
}

// How many bytes at the front belong to a class.
#[tactic(auto, using(crate::proofs::RunLaws::length_span))]
pub fn count(s: &[u8], class: Class) -> usize
    ensures value { result ≡ length (span class s.now) }
    ensures within { result ≤ length s.now }
{
    s.iter()
        .position(|b| !belongs_to(class, *b))
        .unwrap_or(s.len())
}

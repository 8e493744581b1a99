// Integers and decimals in a line.
ghost use Rattle.std.specs.Prelude.{◌≡◌, ◌<◌, ◌^◌};
ghost use Rattle.numbers.specs.Sign.{signed};
ghost use Rattle.arguments.specs.Readers.Literal.{literal_at, unsigned_at, fraction_at};

use numbers::Quantity;
use scan::{bytes, digits};

const INTEGER_LIMIT: usize = 2_000_000_000;

const DECIMAL_LIMIT: usize = 2_000_000_000_000_000;

fn with_sign(negative: bool, magnitude: usize) -> i64
    requires { magnitude < 2 ^ 63 }
    ensures { result ≡ signed negative magnitude }
{
    if negative {
        -(magnitude as i64)
    } else {
        magnitude as i64
    }
}

// The digits behind a decimal's point, with what stands before it.
#[tactic(auto, using(crate::proofs::SignLaws::read_back, crate::proofs::ScaleLaws::scale_power), unfolding(crate::specs::Readers::Literal::fraction_at, crate::specs::Readers::Literal::in_millionths))]
fn fraction_at(line: &[u8], at: usize, negative: bool, whole: usize) -> Option<(Quantity, usize)>
    requires { whole < 10000000000 }
    ensures { result ≡ fraction_at line.now at negative whole }
{
    let fraction = digits::digits_at(line, at, 6);
    if fraction.count == 0 {
        return None;
    }
    let scale = numbers::places::scale(6 - fraction.count) as usize;
    let magnitude = whole * 1_000_000 + fraction.value * scale;
    if DECIMAL_LIMIT < magnitude {
        return None;
    }
    let millionths = with_sign(negative, magnitude);
    Some((Quantity::Decimal(millionths), at + fraction.count))
}

// A number without its sign.
#[tactic(auto, using(crate::proofs::SignLaws::read_back), unfolding(crate::specs::Readers::Literal::unsigned_at))]
fn unsigned_at(line: &[u8], at: usize, negative: bool) -> Option<(Quantity, usize)>
    ensures { result ≡ unsigned_at line.now at negative }
{
    let whole = digits::digits_at(line, at, 10);
    if whole.count == 0 {
        return None;
    }
    let end = at + whole.count;
    let behind = bytes::byte(line, end);
    if behind == b'.' {
        return fraction_at(line, end + 1, negative, whole.value);
    }
    if INTEGER_LIMIT < whole.value {
        return None;
    }
    let value = with_sign(negative, whole.value);
    Some((Quantity::Integer(value), end))
}

// "an integer (optional `-`, 1–10 digits); a decimal (the same, a point, 1–6 digits)"
#[tactic(auto, unfolding(crate::specs::Readers::Literal::literal_at))]
pub fn literal_at(line: &[u8], at: usize) -> Option<(Quantity, usize)>
    ensures { result ≡ literal_at line.now at }
{
    let first = bytes::byte(line, at);
    if first == b'-' {
        return unsigned_at(line, at + 1, true);
    }
    unsigned_at(line, at, false)
}

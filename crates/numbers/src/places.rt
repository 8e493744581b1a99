// "rounded to d places, halves away from zero"
ghost use Rattle.std.specs.Prelude.{◌≡◌, ◌<◌, ◌^◌};
ghost use Rattle.numbers.specs.Places.{rounded_to};
ghost use Rattle.numbers.specs.Inner.Places.{scale_of};

use crate::range::{DECIMAL_LIMIT, INTEGER_LIMIT};
use crate::{Quantity, range, sign};

const POWERS: [u64; 7] = [1, 10, 100, 1_000, 10_000, 100_000, 1_000_000];

fn power(n: usize) -> u64
    requires { n < 7 }
    ensures { result ≡ 10 ^ n }
{
    POWERS[n]
}

// Units of the last of some places in one whole. More than 6 places count as 6.
#[tactic(auto, unfolding(crate::specs::Inner::Places::scale_of))]
pub fn scale(places: usize) -> u64
    ensures { result ≡ scale_of places }
{
    power(places.min(6))
}

// The magnitude of a quantity in millionths, which are units of 6 places.
#[tactic(auto, using(crate::proofs::Machine::abs_mul, crate::proofs::Laws::sixth, crate::proofs::Laws::places_out), unfolding(crate::specs::Range::within))]
fn millionths(q: Quantity) -> Option<u64>
    ensures { result ≡ rounded_to q 6 }
{
    match q {
        Quantity::Integer(n) if range::in_range(INTEGER_LIMIT, n) => {
            Some(sign::magnitude(n) * 1_000_000)
        }
        Quantity::Decimal(m) if range::in_range(DECIMAL_LIMIT, m) => Some(sign::magnitude(m)),
        _ => None,
    }
}

// The magnitude of a quantity, rounded, in units of the last of some places.
#[tactic(auto, using(crate::proofs::Laws::places_many, crate::proofs::Laws::coarser, crate::proofs::Laws::refused_all, crate::proofs::Laws::units_bound, crate::proofs::Rounding::rounded_half, crate::proofs::Rounding::power_above))]
pub fn rounded(q: Quantity, places: usize) -> Option<u64>
    ensures { result ≡ rounded_to q places }
{
    if places > 6 {
        return None;
    }
    let m = millionths(q)?;
    let unit = power(6 - places);
    Some((m + unit / 2) / unit)
}

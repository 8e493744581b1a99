// Decimals, counts of millionths within ±2×10^15.
ghost use Rattle.std.specs.Prelude.{◌≡◌, ◌≤◌, ◌<◌, ◌*◌};
ghost use Rattle.numbers.specs.Sign.{signed};
ghost use Rattle.numbers.specs.Rounding.{rounded};
ghost use Rattle.numbers.specs.Range.{decimal_limit};
ghost use Rattle.numbers.specs.Arithmetic.{checked, sum_of, difference_of, absolute_of, decimal_product, decimal_quotient};

use crate::range::DECIMAL_LIMIT;
use crate::{ArithmeticError, range, sign};

const SCALE: u64 = 1_000_000;

pub fn add(a: i64, b: i64) -> Result<i64, ArithmeticError>
    ensures { result ≡ sum_of decimal_limit a b }
{
    range::sum(DECIMAL_LIMIT, a, b)
}

pub fn subtract(a: i64, b: i64) -> Result<i64, ArithmeticError>
    ensures { result ≡ difference_of decimal_limit a b }
{
    range::difference(DECIMAL_LIMIT, a, b)
}

// The rounded product of two magnitudes, with a sign. A product of the whole parts past the limit
// is past it after rounding too; any other fits 64 bits.
#[tactic(auto, using(crate::proofs::Millionths::product_is, crate::proofs::Millionths::product_fits, crate::proofs::Machine::abs_signed), unfolding(crate::specs::Arithmetic::checked, crate::specs::Range::within))]
fn product(negative: bool, a: u64, b: u64) -> Result<i64, ArithmeticError>
    requires { (a ≤ decimal_limit) × (b ≤ decimal_limit) }
    ensures { result ≡ checked decimal_limit (signed negative (rounded (a * b) 1000000)) }
{
    let ah = a / SCALE;
    let al = a % SCALE;
    let bh = b / SCALE;
    let bl = b % SCALE;
    let high = ah * bh;
    if high > 2_000_000_000 {
        return Err(ArithmeticError::OutOfRange);
    }
    range::check_signed(
        DECIMAL_LIMIT,
        negative,
        high * SCALE + (ah * bl + al * bh) + (al * bl + 500_000) / SCALE,
    )
}

// The rounded quotient of two magnitudes, with a sign: three digits of millionths at a time, so that
// no dividend passes 64 bits.
#[tactic(auto, using(crate::proofs::Millionths::quotient_is, crate::proofs::Millionths::quotient_fits, crate::proofs::Machine::abs_signed), unfolding(crate::specs::Arithmetic::checked, crate::specs::Range::within))]
fn quotient(negative: bool, a: u64, b: u64) -> Result<i64, ArithmeticError>
    requires { (a ≤ decimal_limit) × ((b ≤ decimal_limit) × (0 < b)) }
    ensures { result ≡ checked decimal_limit (signed negative (rounded (a * 1000000) b)) }
{
    let whole = a / b;
    let first = a % b * 1000;
    let second = first % b * 1000;
    let last = second % b;
    if whole > 2_000_000_000 {
        return Err(ArithmeticError::OutOfRange);
    }
    range::check_signed(
        DECIMAL_LIMIT,
        negative,
        whole * SCALE + (first / b * 1000 + second / b) + (last + b / 2) / b,
    )
}

#[tactic(auto, unfolding(crate::specs::Arithmetic::decimal_product, crate::specs::Arithmetic::operands, crate::specs::Range::within))]
pub fn multiply(a: i64, b: i64) -> Result<i64, ArithmeticError>
    ensures { result ≡ decimal_product a b }
{
    if !range::both_in_range(DECIMAL_LIMIT, a, b) {
        return Err(ArithmeticError::OutOfRange);
    }
    product(sign::opposite(a, b), sign::magnitude(a), sign::magnitude(b))
}

#[tactic(auto, unfolding(crate::specs::Arithmetic::decimal_quotient, crate::specs::Arithmetic::operands, crate::specs::Arithmetic::divided_by, crate::specs::Range::within))]
pub fn divide(a: i64, b: i64) -> Result<i64, ArithmeticError>
    ensures { result ≡ decimal_quotient a b }
{
    if !range::both_in_range(DECIMAL_LIMIT, a, b) {
        return Err(ArithmeticError::OutOfRange);
    }
    let divisor = sign::magnitude(b);
    if divisor == 0 {
        return Err(ArithmeticError::ZeroDivisor);
    }
    quotient(sign::opposite(a, b), sign::magnitude(a), divisor)
}

pub fn absolute(m: i64) -> Result<i64, ArithmeticError>
    ensures { result ≡ absolute_of decimal_limit m }
{
    range::absolute(DECIMAL_LIMIT, m)
}

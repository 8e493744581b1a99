// Integers within ±2,000,000,000.
ghost use Rattle.std.specs.Prelude.{◌≡◌};
ghost use Rattle.numbers.specs.Range.{integer_limit};
ghost use Rattle.numbers.specs.Arithmetic.{sum_of, difference_of, absolute_of, integer_product, integer_quotient, in_millionths};

use crate::range::INTEGER_LIMIT;
use crate::{ArithmeticError, range};

pub fn add(a: i64, b: i64) -> Result<i64, ArithmeticError>
    ensures { result ≡ sum_of integer_limit a b }
{
    range::sum(INTEGER_LIMIT, a, b)
}

pub fn subtract(a: i64, b: i64) -> Result<i64, ArithmeticError>
    ensures { result ≡ difference_of integer_limit a b }
{
    range::difference(INTEGER_LIMIT, a, b)
}

#[tactic(auto, using(crate::proofs::Machine::abs_product, crate::proofs::Machine::abs_fits), unfolding(crate::specs::Arithmetic::integer_product, crate::specs::Arithmetic::operands, crate::specs::Arithmetic::checked, crate::specs::Range::within))]
pub fn multiply(a: i64, b: i64) -> Result<i64, ArithmeticError>
    ensures { result ≡ integer_product a b }
{
    if !range::both_in_range(INTEGER_LIMIT, a, b) {
        return Err(ArithmeticError::OutOfRange);
    }
    range::check(INTEGER_LIMIT, a * b)
}

// The quotient toward zero. It is in range, since its magnitude is at most the dividend's.
#[tactic(auto, using(crate::proofs::Machine::abs_quot, crate::proofs::Machine::abs_fits), unfolding(crate::specs::Arithmetic::integer_quotient, crate::specs::Arithmetic::operands, crate::specs::Arithmetic::divided_by, crate::specs::Arithmetic::checked, crate::specs::Range::within))]
pub fn divide(a: i64, b: i64) -> Result<i64, ArithmeticError>
    ensures { result ≡ integer_quotient a b }
{
    if !range::both_in_range(INTEGER_LIMIT, a, b) {
        return Err(ArithmeticError::OutOfRange);
    }
    if b == 0 {
        return Err(ArithmeticError::ZeroDivisor);
    }
    Ok(a / b)
}

pub fn absolute(n: i64) -> Result<i64, ArithmeticError>
    ensures { result ≡ absolute_of integer_limit n }
{
    range::absolute(INTEGER_LIMIT, n)
}

// The same value as a decimal.
#[tactic(auto, using(crate::proofs::Machine::abs_mul, crate::proofs::Machine::abs_fits), unfolding(crate::specs::Arithmetic::in_millionths, crate::specs::Arithmetic::checked, crate::specs::Range::within))]
pub fn to_decimal(n: i64) -> Result<i64, ArithmeticError>
    ensures { result ≡ in_millionths n }
{
    if !range::in_range(INTEGER_LIMIT, n) {
        return Err(ArithmeticError::OutOfRange);
    }
    Ok(n * 1_000_000)
}

// "A result is out of range": sums and differences of both kinds, which have only their limit to tell them apart.
ghost use Rattle.std.specs.Prelude.{◌≡◌, ◌&&◌, ◌≤◌};
ghost use Rattle.numbers.specs.Sign.{signed};
ghost use Rattle.numbers.specs.Range.{within, decimal_limit};
ghost use Rattle.numbers.specs.Arithmetic.{checked, sum_of, difference_of, absolute_of};

use crate::{ArithmeticError, sign};

pub const INTEGER_LIMIT: u64 = 2_000_000_000;

pub const DECIMAL_LIMIT: u64 = 2_000_000_000_000_000;

#[tactic(auto, unfolding(crate::specs::Range::within))]
pub fn in_range(limit: u64, z: i64) -> bool
    ensures { result ≡ within limit z }
{
    sign::magnitude(z) <= limit
}

pub fn both_in_range(limit: u64, a: i64, b: i64) -> bool
    ensures { result ≡ within limit a && within limit b }
{
    in_range(limit, a) && in_range(limit, b)
}

// A result, where it is in range.
#[tactic(auto, unfolding(crate::specs::Arithmetic::checked))]
pub fn check(limit: u64, z: i64) -> Result<i64, ArithmeticError>
    ensures { result ≡ checked limit z }
{
    if in_range(limit, z) {
        Ok(z)
    } else {
        Err(ArithmeticError::OutOfRange)
    }
}

// The same of a result that is given by its sign and magnitude.
#[tactic(auto, using(crate::proofs::Machine::abs_signed, crate::proofs::Machine::abs_fits), unfolding(crate::specs::Arithmetic::checked, crate::specs::Range::within))]
pub fn check_signed(limit: u64, negative: bool, m: u64) -> Result<i64, ArithmeticError>
    requires { limit ≤ decimal_limit }
    ensures { result ≡ checked limit (signed negative m) }
{
    if m > limit {
        return Err(ArithmeticError::OutOfRange);
    }
    let z = m as i64;
    if negative { Ok(-z) } else { Ok(z) }
}

#[tactic(auto, using(crate::proofs::Machine::abs_add, crate::proofs::Machine::abs_fits), unfolding(crate::specs::Arithmetic::sum_of, crate::specs::Arithmetic::operands, crate::specs::Arithmetic::checked, crate::specs::Range::within))]
pub fn sum(limit: u64, a: i64, b: i64) -> Result<i64, ArithmeticError>
    requires { limit ≤ decimal_limit }
    ensures { result ≡ sum_of limit a b }
{
    if !both_in_range(limit, a, b) {
        return Err(ArithmeticError::OutOfRange);
    }
    check(limit, a + b)
}

#[tactic(auto, using(crate::proofs::Machine::abs_sub, crate::proofs::Machine::abs_fits), unfolding(crate::specs::Arithmetic::difference_of, crate::specs::Arithmetic::operands, crate::specs::Arithmetic::checked, crate::specs::Range::within))]
pub fn difference(limit: u64, a: i64, b: i64) -> Result<i64, ArithmeticError>
    requires { limit ≤ decimal_limit }
    ensures { result ≡ difference_of limit a b }
{
    if !both_in_range(limit, a, b) {
        return Err(ArithmeticError::OutOfRange);
    }
    check(limit, a - b)
}

#[tactic(auto, unfolding(crate::specs::Arithmetic::absolute_of))]
pub fn absolute(limit: u64, z: i64) -> Result<i64, ArithmeticError>
    requires { limit ≤ decimal_limit }
    ensures { result ≡ absolute_of limit z }
{
    check_signed(limit, false, sign::magnitude(z))
}

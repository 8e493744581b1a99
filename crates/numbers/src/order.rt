// "two numbers, by value": by their whole parts and, where those are equal, by the millionths left.
// Nothing is multiplied, so the order is exact for all numbers.
ghost use Rattle.std.specs.Prelude.{◌≡◌};
ghost use Rattle.numbers.specs.Order.{less_than, at_most, equal_to, is_zero};

use crate::Quantity;
use crate::parts::{rest, whole};

pub fn less(p: Quantity, q: Quantity) -> bool
    ensures { result ≡ less_than p q }
{
    let a = whole(p);
    let b = whole(q);
    a < b || a == b && rest(p) < rest(q)
}

pub fn at_most(p: Quantity, q: Quantity) -> bool
    ensures { result ≡ at_most p q }
{
    !less(q, p)
}

pub fn equal(p: Quantity, q: Quantity) -> bool
    ensures { result ≡ equal_to p q }
{
    !less(p, q) && !less(q, p)
}

pub fn is_zero(q: Quantity) -> bool
    ensures { result ≡ is_zero q }
{
    equal(q, Quantity::Integer(0))
}

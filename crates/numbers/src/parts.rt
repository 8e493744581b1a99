// A quantity's whole part and what it leaves.
ghost use Rattle.std.specs.Prelude.{◌≡◌};
ghost use Rattle.numbers.specs.Parts.{whole_of};
ghost use Rattle.numbers.specs.Inner.Parts.{rest_of};

use crate::Quantity;

// The integer next to a quantity, toward zero.
pub fn whole(q: Quantity) -> i64
    ensures { result ≡ whole_of q }
{
    match q {
        Quantity::Integer(n) => n,
        Quantity::Decimal(m) => m / 1_000_000,
    }
}

// The millionths that the whole part leaves, with the quantity's sign.
pub fn rest(q: Quantity) -> i64
    ensures { result ≡ rest_of q }
{
    match q {
        Quantity::Integer(_) => 0,
        Quantity::Decimal(m) => m % 1_000_000,
    }
}

// A signed number as a sign and a magnitude.
ghost use Rattle.std.specs.Prelude.{◌≡◌, pos, nat_abs};
ghost use Rattle.std.specs.Int.Signed.{lt_z};
ghost use Rattle.numbers.specs.Sign.{opposed};

// Whether a number is below zero.
pub fn negative(x: i64) -> bool
    ensures { result ≡ lt_z x (pos 0) }
{
    x < 0
}

// Whether exactly one of two numbers is below zero.
#[tactic(auto, unfolding(crate::specs::Sign::opposed))]
pub fn opposite(a: i64, b: i64) -> bool
    ensures { result ≡ opposed a b }
{
    negative(a) != negative(b)
}

// The magnitude of any number, the least included.
pub fn magnitude(x: i64) -> u64
    ensures { result ≡ nat_abs x }
{
    x.unsigned_abs()
}

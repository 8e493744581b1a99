// Calculations on integers and decimals.
ghost use Rattle.std.specs.Prelude.{◌≡◌};
ghost use Rattle.numbers.specs.Parts.{whole_of};
ghost use Rattle.numbers.specs.Places.{rounded_to};
ghost use Rattle.station_testing.specs.Codes.{on_integers, on_decimals, on_one, quantity_of, compared_by, ToldResult, ToldUnits};

use numbers::{ArithmeticError, Quantity};

// The number of a calculation; its value, where there is one, goes to `result`.
fn hand_back(n: Result<i64, ArithmeticError>, res: &mut i64) -> u32
    ensures { ToldResult n res.old res.new result }
{
    match n {
        Ok(z) => {
            *res = z;
            0
        }
        Err(ArithmeticError::ZeroDivisor) => 12,
        Err(ArithmeticError::OutOfRange) => 13,
    }
}

#[tactic(auto, unfolding(crate::specs::Codes::on_integers))]
fn of_integers(operation: u32, a: i64, b: i64) -> Result<i64, ArithmeticError>
    ensures { result ≡ on_integers operation a b }
{
    match operation {
        0 => numbers::integer::add(a, b),
        1 => numbers::integer::subtract(a, b),
        2 => numbers::integer::multiply(a, b),
        _ => numbers::integer::divide(a, b),
    }
}

#[tactic(auto, unfolding(crate::specs::Codes::on_decimals))]
fn of_decimals(operation: u32, a: i64, b: i64) -> Result<i64, ArithmeticError>
    ensures { result ≡ on_decimals operation a b }
{
    match operation {
        0 => numbers::decimal::add(a, b),
        1 => numbers::decimal::subtract(a, b),
        2 => numbers::decimal::multiply(a, b),
        _ => numbers::decimal::divide(a, b),
    }
}

#[tactic(auto, unfolding(crate::specs::Codes::on_one))]
fn of_one(operation: u32, a: i64) -> Result<i64, ArithmeticError>
    ensures { result ≡ on_one operation a }
{
    match operation {
        0 => numbers::integer::absolute(a),
        1 => numbers::decimal::absolute(a),
        _ => numbers::integer::to_decimal(a),
    }
}

pub fn station_integers(operation: u32, a: i64, b: i64, res: &mut i64) -> u32
    ensures { ToldResult (on_integers operation a b) res.old res.new result }
{
    hand_back(of_integers(operation, a, b), res)
}

pub fn station_decimals(operation: u32, a: i64, b: i64, res: &mut i64) -> u32
    ensures { ToldResult (on_decimals operation a b) res.old res.new result }
{
    hand_back(of_decimals(operation, a, b), res)
}

pub fn station_one(operation: u32, a: i64, res: &mut i64) -> u32
    ensures { ToldResult (on_one operation a) res.old res.new result }
{
    hand_back(of_one(operation, a), res)
}

// A number of the kind that the byte of a cell names.
#[tactic(auto, unfolding(crate::specs::Codes::quantity_of))]
pub fn quantity(kind: u8, n: i64) -> Quantity
    ensures { result ≡ quantity_of kind n }
{
    match kind {
        b'I' => Quantity::Integer(n),
        _ => Quantity::Decimal(n),
    }
}

#[tactic(auto, unfolding(crate::specs::Codes::compared_by))]
fn compare(test: u32, p: Quantity, q: Quantity) -> bool
    ensures { result ≡ compared_by test p q }
{
    match test {
        0 => numbers::order::less(p, q),
        1 => numbers::order::at_most(p, q),
        _ => numbers::order::equal(p, q),
    }
}

pub fn station_compare(test: u32, kind: u8, a: i64, other: u8, b: i64) -> bool
    ensures { result ≡ compared_by test (quantity_of kind a) (quantity_of other b) }
{
    compare(test, quantity(kind, a), quantity(other, b))
}

// The integer next to a number, toward zero.
pub fn station_whole(kind: u8, n: i64) -> i64
    ensures { result ≡ whole_of (quantity_of kind n) }
{
    numbers::parts::whole(quantity(kind, n))
}

// Whether there is a rounded magnitude; it goes to `units`.
pub fn station_rounded(kind: u8, n: i64, places: usize, units: &mut u64) -> bool
    ensures { ToldUnits (rounded_to (quantity_of kind n) places) units.old units.new result }
{
    match numbers::places::rounded(quantity(kind, n), places) {
        Some(u) => {
            *units = u;
            true
        }
        None => false,
    }
}

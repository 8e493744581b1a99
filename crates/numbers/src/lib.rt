// Integers within ±2,000,000,000, and decimals as counts of millionths within ±2×10^15.
//
// integer::add, subtract, multiply, divide    of two integers; a quotient is toward zero
// integer::absolute, to_decimal               of an integer
// decimal::add, subtract, multiply, divide    of two decimals; products and quotients are rounded
// decimal::absolute                           of a decimal
// order::less, at_most, equal, is_zero        of quantities, by value
// parts::whole, rest                          a quantity's integer, toward zero, and the millionths left
// places::rounded                             a quantity's magnitude, rounded to some places
// places::scale                               units of the last place in one whole
// sign::negative, opposite, magnitude         a number's sign and magnitude
#![tactic(auto)]

mod range; // range.rt: what is out of range
pub mod sign; // sign.rt: sign and magnitude
pub mod integer; // integer.rt: integers
pub mod decimal; // decimal.rt: decimals
pub mod parts; // parts.rt: whole parts
pub mod order; // order.rt: comparison
pub mod places; // places.rt: rounding to places

// Why a calculation has no result.
#[derive(Clone, Copy, Debug, PartialEq, Eq)]
pub enum ArithmeticError {
    ZeroDivisor,
    OutOfRange,
}

// A number of either kind.
#[derive(Clone, Copy)]
pub enum Quantity {
    Integer(i64),
    // a count of millionths
    Decimal(i64),
}

// What a command takes from the value of an argument and what it comes to, or why its line is refused.
ghost use Rattle.std.specs.Prelude.{◌≡◌};
ghost use Rattle.commands.specs.Settling.{result_of, millionths_of, integer_from, decimal_from};
ghost use Rattle.commands.specs.Inner.Taking.{integer_or, Takes, TakesQuantity, TakesText};

use arguments::argument::Argument;
use meaning::refusal::Refusal;
use numbers::{ArithmeticError, Quantity};
use values::string::Text;
use values::worth::Worth;

// 12 and 13
#[tactic(auto, unfolding(crate::specs::Settling::result_of))]
pub fn result_of(number: Result<i64, ArithmeticError>) -> Result<i64, Refusal>
    ensures { result ≡ result_of number }
{
    Ok(number?)
}

// A number in millionths.
#[tactic(auto, unfolding(crate::specs::Settling::millionths_of))]
fn millionths_of(q: Quantity) -> Result<i64, Refusal>
    ensures { result ≡ millionths_of q }
{
    match q {
        Quantity::Integer(n) => result_of(numbers::integer::to_decimal(n)),
        Quantity::Decimal(m) => Ok(m),
    }
}

#[tactic(auto, unfolding(crate::specs::Settling::integer_from, values::specs::Inner::Yielding::meant))]
fn integer_in(q: Quantity) -> Result<i64, Refusal>
    ensures { Takes integer_from (Worth.Number q) result }
{
    match q {
        Quantity::Integer(n) => Ok(n),
        Quantity::Decimal(_) => Err(Refusal::WrongKind),
    }
}

// 10 and 11: "IV takes an integer"
#[tactic(auto, unfolding(crate::specs::Settling::integer_from, values::specs::Inner::Yielding::meant))]
pub fn integer_of(worth: Worth) -> Result<i64, Refusal>
    ensures { Takes integer_from worth result }
{
    match worth {
        Worth::Missing => Err(Refusal::MissingArgument),
        Worth::Wrong => Err(Refusal::WrongKind),
        Worth::Number(q) => integer_in(q),
        Worth::Text(_) => Err(Refusal::WrongKind),
    }
}

// `$ET [k]`, `$NP [n]`: the integer, or the one that stands for none
#[tactic(auto, unfolding(crate::specs::Inner::Taking::integer_or))]
pub fn integer_or(absent: i64, optional: Option<Argument>, worth: Worth) -> Result<i64, Refusal>
    ensures { Takes (integer_or absent optional) worth result }
{
    match optional {
        None => Ok(absent),
        Some(_) => integer_of(worth),
    }
}

// "FV takes a number"
#[tactic(auto, unfolding(crate::specs::Settling::decimal_from, crate::specs::Settling::quantity_from, values::specs::Inner::Yielding::meant))]
pub fn decimal_of(worth: Worth) -> Result<i64, Refusal>
    ensures { Takes decimal_from worth result }
{
    match worth {
        Worth::Missing => Err(Refusal::MissingArgument),
        Worth::Wrong => Err(Refusal::WrongKind),
        Worth::Number(q) => millionths_of(q),
        Worth::Text(_) => Err(Refusal::WrongKind),
    }
}

// "one number", "two numbers"
#[tactic(auto, unfolding(crate::specs::Settling::quantity_from, values::specs::Inner::Yielding::meant))]
pub fn quantity_of(worth: Worth) -> Result<Quantity, Refusal>
    ensures { TakesQuantity worth result }
{
    match worth {
        Worth::Missing => Err(Refusal::MissingArgument),
        Worth::Wrong => Err(Refusal::WrongKind),
        Worth::Number(q) => Ok(q),
        Worth::Text(_) => Err(Refusal::WrongKind),
    }
}

// "two strings"; "SV takes a string"
#[tactic(auto, unfolding(crate::specs::Settling::string_from, values::specs::Inner::Yielding::meant))]
pub fn text_of(worth: Worth) -> Result<Text, Refusal>
    ensures { TakesText worth result }
{
    match worth {
        Worth::Missing => Err(Refusal::MissingArgument),
        Worth::Wrong => Err(Refusal::WrongKind),
        Worth::Number(_) => Err(Refusal::WrongKind),
        Worth::Text(t) => Ok(t),
    }
}

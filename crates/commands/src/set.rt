// $SETE, $SETA, $SETS, $SETM, $SETD.
ghost use Rattle.std.specs.Prelude.{◌≡◌, ◌≤◌};
ghost use Rattle.values.specs.Inner.State.{held};
ghost use Rattle.commands.specs.Setting.{integer_result, decimal_result, integer_new, decimal_new};
ghost use Rattle.commands.specs.Inner.Taking.{Takes};
ghost use Rattle.commands.specs.Inner.Assigning.{Rowed, StoresNumber, Assigns};

use crate::{settle, string};
use lines::command::{Operation, Target};
use meaning::refusal::Refusal;
use numbers::{ArithmeticError, decimal, integer};
use values::registers;
use values::registers::{Numbers, Words};
use values::worth::Worth;

// "set, add, subtract, multiply, divide"
#[tactic(auto, unfolding(crate::specs::Setting::integer_result))]
fn integer_result(o: Operation, a: i64, b: i64) -> Result<i64, ArithmeticError>
    ensures { result ≡ integer_result o a b }
{
    match o {
        Operation::Assign => Ok(b),
        Operation::Add => integer::add(a, b),
        Operation::Subtract => integer::subtract(a, b),
        Operation::Multiply => integer::multiply(a, b),
        Operation::Divide => integer::divide(a, b),
    }
}

#[tactic(auto, unfolding(crate::specs::Setting::decimal_result))]
// Not one function with the other: each calls a module of its own.
fn decimal_result(o: Operation, a: i64, b: i64) -> Result<i64, ArithmeticError>
    ensures { result ≡ decimal_result o a b }
{
    match o {
        Operation::Assign => Ok(b),
        Operation::Add => decimal::add(a, b),
        Operation::Subtract => decimal::subtract(a, b),
        Operation::Multiply => decimal::multiply(a, b),
        Operation::Divide => decimal::divide(a, b),
    }
}

// A result as IVn or FVn, or the refusal.
#[tactic(auto, unfolding(crate::specs::Setting::as_variable))]
fn stored(
    taken: Result<i64, Refusal>,
    from: usize,
    n: usize,
    numbers: &mut Numbers,
) -> Result<(), Refusal>
    requires { from ≤ 99 }
    ensures { StoresNumber numbers.old from n taken numbers.new result }
{
    registers::put(numbers, from, 99, n, taken?);
    Ok(())
}

// What an integer variable becomes.
#[tactic(auto, unfolding(crate::specs::Setting::new_from))]
fn integer_new(o: Operation, a: i64, worth: Worth) -> Result<i64, Refusal>
    ensures { Takes (integer_new o a) worth result }
{
    let b = settle::integer_of(worth)?;
    settle::result_of(integer_result(o, a, b))
}

#[tactic(auto, unfolding(crate::specs::Setting::new_from))]
fn decimal_new(o: Operation, a: i64, worth: Worth) -> Result<i64, Refusal>
    ensures { Takes (decimal_new o a) worth result }
{
    let b = settle::decimal_of(worth)?;
    settle::result_of(decimal_result(o, a, b))
}

// $SETE to $SETD: a value that is given to a variable.
pub fn assigned<'a>(
    line: &'a [u8],
    store: &'a [u8],
    numbers: &mut Numbers,
    strings: &mut [[u8; 16]; 99],
    words: &mut Words,
    o: Operation,
    target: Target,
    worth: Worth,
) -> Result<(), Refusal>
    requires { Rowed strings.old }
    ensures { Assigns line.now store.now (held numbers.old strings.old words.old) o target worth (held numbers.new strings.new words.new) result }
{
    match target {
        Target::IntegerTarget(n) => {
            let a = registers::integer(numbers, n);
            let taken = integer_new(o, a, worth);
            stored(taken, registers::INTEGERS, n, numbers)
        }
        Target::DecimalTarget(n) => {
            let a = registers::decimal(numbers, n);
            let taken = decimal_new(o, a, worth);
            stored(taken, registers::DECIMALS, n, numbers)
        }
        Target::StringTarget(n) => string::stored(line, store, strings, words, n, worth),
    }
}

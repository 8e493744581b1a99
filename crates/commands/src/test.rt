// $IF, $IFNOT, $IFEQ to $IFGE, $IFEQSS, $IFEQSI.
ghost use Rattle.std.specs.Prelude.{◌≡◌};
ghost use Rattle.values.specs.Inner.Texts.{strings as stringsOf};
ghost use Rattle.values.specs.Inner.Yielding.{meant};
ghost use Rattle.commands.specs.Testing as T;
ghost use Rattle.commands.specs.Inner.Kinds as K;
ghost use Rattle.commands.specs.Inner.Judging.{Lacks, JudgesNumbers, JudgesZero};

use crate::settle;
use lines::command::Comparison;
use meaning::refusal::Refusal;
use numbers::{Quantity, order};
use values::string;
use values::worth::Worth;

#[tactic(auto, unfolding(crate::specs::Testing::is_missing, values::specs::Inner::Yielding::meant))]
fn lacks(worth: Worth) -> bool
    ensures { Lacks worth result }
{
    matches!(worth, Worth::Missing)
}

// Whether a test of numbers holds; no test of strings does.
#[tactic(auto, unfolding(crate::specs::Inner::Kinds::numbers_hold))]
fn numbers_hold(c: Comparison, p: Quantity, q: Quantity) -> bool
    ensures { result ≡ K.numbers_hold c p q }
{
    match c {
        Comparison::SameString => false,
        Comparison::SameLetters => false,
        Comparison::Equal => order::equal(p, q),
        Comparison::NotEqual => !order::equal(p, q),
        Comparison::Less => order::less(p, q),
        Comparison::AtMost => order::at_most(p, q),
        Comparison::Greater => order::less(q, p),
        Comparison::AtLeast => order::at_most(q, p),
    }
}

#[tactic(auto, unfolding(crate::specs::Testing::zero_test))]
fn zero_test(zero: bool, q: Quantity) -> bool
    ensures { result ≡ T.zero_test zero q }
{
    order::is_zero(q) == zero
}

#[tactic(auto, unfolding(crate::specs::Testing::of_numbers))]
fn numbers_judged(c: Comparison, v: Worth, w: Worth) -> Result<bool, Refusal>
    ensures { JudgesNumbers c v w result }
{
    let p = settle::quantity_of(v)?;
    let q = settle::quantity_of(w)?;
    Ok(numbers_hold(c, p, q))
}

#[tactic(auto, unfolding(crate::specs::Testing::of_strings))]
fn strings_judged<'a>(
    line: &'a [u8],
    store: &'a [u8],
    strings: &[[u8; 16]; 99],
    ignoring: bool,
    v: Worth,
    w: Worth,
) -> Result<bool, Refusal>
    ensures { result ≡ T.of_strings ignoring (meant (stringsOf line.now store.now strings.now) v) (meant (stringsOf line.now store.now strings.now) w) }
{
    let p = settle::text_of(v)?;
    let q = settle::text_of(w)?;
    Ok(string::same(line, store, strings, p, q, ignoring))
}

// $IFEQ to $IFGE, $IFEQSS, $IFEQSI: 10 over both, then 11 over both
#[tactic(auto, using(crate::proofs::Tests::kind_numbers), unfolding(crate::specs::Testing::compared, crate::specs::Testing::judged))]
pub fn compare<'a>(
    line: &'a [u8],
    store: &'a [u8],
    strings: &[[u8; 16]; 99],
    c: Comparison,
    v: Worth,
    w: Worth,
) -> Result<bool, Refusal>
    ensures { result ≡ T.compared c (meant (stringsOf line.now store.now strings.now) v) (meant (stringsOf line.now store.now strings.now) w) }
{
    if lacks(v) || lacks(w) {
        return Err(Refusal::MissingArgument);
    }
    match c {
        Comparison::SameString => strings_judged(line, store, strings, false, v, w),
        Comparison::SameLetters => strings_judged(line, store, strings, true, v, w),
        _ => numbers_judged(c, v, w),
    }
}

// $IFNOT, $IF
#[tactic(auto, unfolding(crate::specs::Testing::zero_judged))]
pub fn if_zero(zero: bool, worth: Worth) -> Result<bool, Refusal>
    ensures { JudgesZero zero worth result }
{
    let q = settle::quantity_of(worth)?;
    Ok(zero_test(zero, q))
}

// Arguments as seven numbers, indexes as two.
ghost use Rattle.std.specs.Prelude.{◌≡◌};
ghost use Rattle.form_codes.specs.Argument.{index_codes, filter_code, below_zero, signed_codes, literal_codes, cell_codes, operand_codes, argument_codes};

use crate::row::{Pair, Seven};
use arguments::argument::{Argument, Filter};
use arguments::index::Index;
use arguments::operand::Operand;
use numbers::Quantity;

pub fn index_codes(index: Index) -> Pair
    ensures { result ≡ index_codes index }
{
    match index {
        Index::Fixed(n) => Pair(1, n as u64),
        Index::Variable(n) => Pair(2, n as u64),
        Index::Loop => Pair(3, 0),
    }
}

fn filter_code(filter: Filter) -> u64
    ensures { result ≡ filter_code filter }
{
    match filter {
        Filter::Unfiltered => 0,
        Filter::Absolute => 1,
        Filter::Truncated => 2,
        Filter::UpperCase => 3,
        Filter::Length => 4,
        Filter::RecordCount => 5,
        Filter::EntryCount => 6,
    }
}

fn below_zero(z: i64) -> u64
    ensures { result ≡ below_zero z }
{
    u64::from(z < 0)
}

fn signed_codes(kind: u64, filter: u64, z: i64) -> Seven
    ensures { result ≡ signed_codes kind filter z }
{
    Seven(kind, below_zero(z), z.unsigned_abs(), 0, 0, 0, filter)
}

fn literal_codes(q: Quantity, filter: u64) -> Seven
    ensures { result ≡ literal_codes q filter }
{
    match q {
        Quantity::Integer(z) => signed_codes(1, filter, z),
        Quantity::Decimal(z) => signed_codes(2, filter, z),
    }
}

// A cell with one index, or with two.
fn cell_codes(kind: u64, n: usize, r: Pair, e: Pair, filter: u64) -> Seven
    ensures { result ≡ cell_codes kind n r e filter }
{
    Seven(kind, n as u64, r.0, r.1, e.0, e.1, filter)
}

#[tactic(auto, unfolding(crate::specs::Argument::operand_codes))]
fn operand_codes(operand: Operand, filter: u64) -> Seven
    ensures { result ≡ operand_codes operand filter }
{
    match operand {
        Operand::NumberLiteral(q) => literal_codes(q, filter),
        Operand::StringLiteral(a, e) => Seven(3, a as u64, e as u64, 0, 0, 0, filter),
        Operand::IntegerVariable(n) => Seven(4, n as u64, 0, 0, 0, 0, filter),
        Operand::DecimalVariable(n) => Seven(5, n as u64, 0, 0, 0, 0, filter),
        Operand::StringVariable(n) => Seven(6, n as u64, 0, 0, 0, 0, filter),
        Operand::PageNumber => Seven(7, 0, 0, 0, 0, 0, filter),
        Operand::LineNumber => Seven(8, 0, 0, 0, 0, 0, filter),
        Operand::LoopCounter => Seven(9, 0, 0, 0, 0, 0, filter),
        Operand::RecordElement(n) => Seven(10, n as u64, 0, 0, 0, 0, filter),
        Operand::EntryElement(n) => Seven(11, n as u64, 0, 0, 0, 0, filter),
        Operand::Parameter(n) => Seven(12, n as u64, 0, 0, 0, 0, filter),
        Operand::Record(n, r) => cell_codes(13, n, index_codes(r), Pair(0, 0), filter),
        Operand::Entry(n, r, e) => cell_codes(14, n, index_codes(r), index_codes(e), filter),
    }
}

pub fn argument_codes(argument: Argument) -> Seven
    ensures { result ≡ argument_codes argument }
{
    let operand = argument.operand;
    let filter = argument.filter;
    operand_codes(operand, filter_code(filter))
}

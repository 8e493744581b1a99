// What stands before a filter: strings, numbers, variables, counters and cells.
ghost use Rattle.std.specs.Prelude.{◌≡◌};
ghost use Rattle.arguments.specs.Readers.Operand.{string_at, cell_at, numbered_at, named_at, operand_at};
ghost use Rattle.arguments.specs.Inner.Named.{numbered, limit_of};

use crate::index::Index;
use crate::name::{Name, NumberedName};
use crate::{index, literal, name};
use numbers::Quantity;
use scan::run::Class;
use scan::{bytes, digits, run};

#[derive(Clone, Copy)]
pub enum Operand {
    NumberLiteral(Quantity),
    // a string's first byte in the line, and the place behind its last
    StringLiteral(usize, usize),
    // IVn, FVn, SVn
    IntegerVariable(usize),
    DecimalVariable(usize),
    StringVariable(usize),
    // PAGENUM, LINENUM, LOOP
    PageNumber,
    LineNumber,
    LoopCounter,
    // Rn, Tn
    RecordElement(usize),
    EntryElement(usize),
    // Pn, Pn.r, Pn.r.e
    Parameter(usize),
    Record(usize, Index),
    Entry(usize, Index, Index),
}

// A string behind its first quote.
#[tactic(auto, unfolding(crate::specs::Readers::Operand::string_at))]
fn string_at(line: &[u8], at: usize) -> Option<(Operand, usize)>
    ensures { result ≡ string_at line.now at }
{
    let length = run::count(bytes::part(line, at, 16), Class::InString);
    let end = at + length;
    if bytes::byte(line, end) == b'"' {
        return Some((Operand::StringLiteral(at, end), end + 1));
    }
    None
}

// A cell behind its P.
#[tactic(auto, unfolding(crate::specs::Readers::Operand::cell_at, crate::specs::Readers::Operand::cell_of, crate::specs::Readers::Operand::record_read_of, crate::specs::Readers::Operand::entry_of))]
fn cell_at(line: &[u8], at: usize) -> Option<(Operand, usize)>
    ensures { result ≡ cell_at line.now at }
{
    let (n, next) = digits::number_at(line, at, 65_535)?;
    if bytes::byte(line, next) != b'.' {
        return Some((Operand::Parameter(n), next));
    }
    let (r, after) = index::index_at(line, next + 1)?;
    if bytes::byte(line, after) != b'.' {
        return Some((Operand::Record(n, r), after));
    }
    let (e, end) = index::index_at(line, after + 1)?;
    Some((Operand::Entry(n, r, e), end))
}

#[tactic(auto, unfolding(crate::specs::Inner::Named::numbered))]
fn numbered_of(kind: NumberedName, n: usize) -> Operand
    ensures { result ≡ numbered kind n }
{
    match kind {
        NumberedName::IntegerVariable => Operand::IntegerVariable(n),
        NumberedName::DecimalVariable => Operand::DecimalVariable(n),
        NumberedName::StringVariable => Operand::StringVariable(n),
        NumberedName::RecordElement => Operand::RecordElement(n),
        NumberedName::EntryElement => Operand::EntryElement(n),
    }
}

// "IVn, FVn, SVn (n 1–99)", "Rn, Tn (n 1–10)"
#[tactic(auto, unfolding(crate::specs::Inner::Named::limit_of))]
fn limit_of(kind: NumberedName) -> usize
    ensures { result ≡ limit_of kind }
{
    match kind {
        NumberedName::RecordElement | NumberedName::EntryElement => 10,
        _ => 99,
    }
}

#[tactic(auto, unfolding(crate::specs::Readers::Operand::numbered_at, crate::specs::Readers::Operand::numbered_of))]
fn numbered_at(line: &[u8], at: usize, kind: NumberedName) -> Option<(Operand, usize)>
    ensures { result ≡ numbered_at (numbered kind) (limit_of kind) line.now at }
{
    let (n, next) = digits::number_at(line, at, limit_of(kind))?;
    Some((numbered_of(kind, n), next))
}

// What begins with a name.
#[tactic(auto, using(crate::proofs::NameLaws::name_by_kind), unfolding(crate::specs::Inner::Named::name_at, crate::specs::Readers::Operand::whole_at))]
fn named_at(line: &[u8], at: usize) -> Option<(Operand, usize)>
    ensures { result ≡ named_at line.now at }
{
    let (name, next) = name::operand_name(line, at)?;
    match name {
        Name::PageNumber => Some((Operand::PageNumber, next)),
        Name::LineNumber => Some((Operand::LineNumber, next)),
        Name::LoopCounter => Some((Operand::LoopCounter, next)),
        Name::Numbered(kind) => numbered_at(line, next, kind),
        Name::Cell => cell_at(line, next),
    }
}

#[tactic(auto, unfolding(crate::specs::Readers::Operand::operand_at, crate::specs::Readers::Operand::number_or))]
pub fn operand_at(line: &[u8], at: usize) -> Option<(Operand, usize)>
    ensures { result ≡ operand_at line.now at }
{
    if bytes::byte(line, at) == b'"' {
        return string_at(line, at + 1);
    }
    let Some((q, next)) = literal::literal_at(line, at) else {
        return named_at(line, at);
    };
    Some((Operand::NumberLiteral(q), next))
}

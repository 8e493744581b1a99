// Operands with filters.
ghost use Rattle.std.specs.Prelude.{◌≡◌};
ghost use Rattle.arguments.specs.Admitted.{count_of, admits};
ghost use Rattle.arguments.specs.Readers.Argument.{argument_at};

use crate::operand::Operand;
use crate::{name, operand};
use scan::bytes;

#[derive(Clone, Copy)]
pub enum Filter {
    Unfiltered,
    // ABS, INT, UPPER, LEN
    Absolute,
    Truncated,
    UpperCase,
    Length,
    // RECCNT, ENTCNT
    RecordCount,
    EntryCount,
}

#[derive(Clone, Copy)]
pub struct Argument {
    pub operand: Operand,
    pub filter: Filter,
}

// "RECCNT and ENTCNT elsewhere are 3. Other filters may stand after any argument"
#[tactic(auto, unfolding(crate::specs::Admitted::admits, crate::specs::Admitted::count_of))]
fn is_admitted(operand: Operand, filter: Filter) -> bool
    ensures { result ≡ admits filter (count_of operand) }
{
    match filter {
        Filter::RecordCount => matches!(operand, Operand::Parameter(_)),
        Filter::EntryCount => matches!(operand, Operand::Record(_, _)),
        _ => true,
    }
}

#[tactic(auto, using(crate::proofs::NameLaws::filter_by_kind), unfolding(crate::specs::Readers::Argument::argument_at, crate::specs::Readers::Argument::argument_of, crate::specs::Readers::Argument::filtered_at))]
pub fn argument_at(line: &[u8], at: usize) -> Option<(Argument, usize)>
    ensures { result ≡ argument_at line.now at }
{
    let (operand, next) = operand::operand_at(line, at)?;
    if bytes::byte(line, next) != b'|' {
        let filter = Filter::Unfiltered;
        return Some((Argument { operand, filter }, next));
    }
    let (filter, end) = name::filter_name(line, next + 1)?;
    if !is_admitted(operand, filter) {
        return None;
    }
    Some((Argument { operand, filter }, end))
}

// The argument that most fields have: a cell without entry and filter. It is read at once, and any other is left to
// argument::argument_at, which tries every form and hands each part on in an enum of its own.
ghost use Rattle.std.specs.Prelude.{◌≡◌};
ghost use Rattle.arguments.specs.Inner.CellArgument.{record_at, ReadsCell};

use crate::index;
use crate::index::Index;
use scan::{bytes, digits};

// What stands behind a cell's parameter: "absent parts 0".
#[tactic(auto, unfolding(crate::specs::Inner::CellArgument::record_at))]
fn record_at(line: &[u8], at: usize) -> Option<(Index, usize)>
    ensures { result ≡ record_at line.now at }
{
    if bytes::byte(line, at) == b'.' {
        return index::index_at(line, at + 1);
    }
    Some((Index::Fixed(0), at))
}

#[tactic(auto, using(crate::proofs::CellLaws::other_reads))]
pub fn cell_at(line: &[u8], at: usize) -> Option<(usize, Index, usize)>
    ensures { ReadsCell line.now at result }
{
    if bytes::byte(line, at) != b'P' {
        return None;
    }
    let (n, next) = digits::number_at(line, at + 1, 65_535)?;
    let (r, end) = record_at(line, next)?;
    if bytes::byte(line, end) != b',' {
        return None;
    }
    Some((n, r, end))
}

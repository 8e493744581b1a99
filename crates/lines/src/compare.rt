// $IFEQSS, $IFEQSI, $IFEQ, $IFNE, $IFLT, $IFLE, $IFGT and $IFGE.
ghost use Rattle.std.specs.Prelude.{◌≡◌};
ghost use Rattle.lines.specs.Readers.Compare.{compare_at};

use crate::behind;
use crate::command::{Comparison, Line};
use arguments::argument;

#[tactic(auto, unfolding(crate::specs::Readers::Compare::compare_at))]
pub fn compare_at(line: &[u8], at: usize, comparison: Comparison) -> Option<Line>
    ensures { result ≡ compare_at comparison line.now at }
{
    let start = behind::behind_space(line, at);
    let (left, next) = argument::argument_at(line, start)?;
    let second = behind::behind_space(line, next);
    let (right, end) = argument::argument_at(line, second)?;
    if end < line.len() {
        return None;
    }
    Some(Line::Compare(comparison, left, right))
}

// Commands of one argument, of none, and of one that may be absent.
ghost use Rattle.std.specs.Prelude.{◌≡◌};
ghost use Rattle.lines.specs.Inner.Dispatch.{single_of, bare_of, optional_of};
ghost use Rattle.lines.specs.Readers.Simple.{single_at, bare_at, optional_at};

use crate::behind;
use crate::command::Line;
use crate::word::{Bare, Optional, Single};
use arguments::argument;
use arguments::argument::Argument;

// $IFNOT, $IF, $BT
#[tactic(auto, unfolding(crate::specs::Inner::Dispatch::single_of, crate::specs::Readers::Simple::single_at))]
pub fn single_at(line: &[u8], at: usize, single: Single) -> Option<Line>
    ensures { result ≡ single_at (single_of single) line.now at }
{
    let start = behind::behind_space(line, at);
    let (argument, end) = argument::argument_at(line, start)?;
    if end < line.len() {
        return None;
    }
    Some(match single {
        Single::IfNot => Line::IfNot(argument),
        Single::If => Line::If(argument),
        Single::BeginTable => Line::BeginTable(argument),
    })
}

// $ELSE, $ENDIF, $NOFF
#[tactic(auto, unfolding(crate::specs::Inner::Dispatch::bare_of, crate::specs::Readers::Simple::bare_at))]
pub fn bare_at(line: &[u8], at: usize, bare: Bare) -> Option<Line>
    ensures { result ≡ bare_at (bare_of bare) line.now at }
{
    if at < line.len() {
        return None;
    }
    Some(match bare {
        Bare::Else => Line::Else,
        Bare::EndIf => Line::EndIf,
        Bare::NoFormFeed => Line::NoFormFeed,
    })
}

// $ET, $NP
#[tactic(auto, unfolding(crate::specs::Inner::Dispatch::optional_of))]
fn optional_of(optional: Optional, argument: Option<Argument>) -> Line
    ensures { result ≡ optional_of optional argument }
{
    match optional {
        Optional::EndTable => Line::EndTable(argument),
        Optional::NewPage => Line::NewPage(argument),
    }
}

// "[k]": an argument, or the end of the line.
#[tactic(auto, unfolding(crate::specs::Readers::Simple::optional_at))]
pub fn optional_at(line: &[u8], at: usize, optional: Optional) -> Option<Line>
    ensures { result ≡ optional_at (optional_of optional) line.now at }
{
    if line.len() <= at {
        return Some(optional_of(optional, None));
    }
    let start = behind::behind_space(line, at);
    let (argument, end) = argument::argument_at(line, start)?;
    if end < line.len() {
        return None;
    }
    Some(optional_of(optional, Some(argument)))
}

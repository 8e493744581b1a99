// $SEC, $PH and $REM: what stands behind them is a name, a text or unread, no argument.
ghost use Rattle.std.specs.Prelude.{◌≡◌};
ghost use Rattle.lines.specs.Readers.Title.{section_at, heading_of, heading_at, remark_at};
ghost use Rattle.lines.specs.Inner.Known.{known_of, known_heading};

use crate::behind;
use crate::command::Line;
use scan::run::Class;
use scan::{bytes, digits, run};

// "name: 1–16 of A–Z, 0–9"
#[tactic(auto, unfolding(crate::specs::Readers::Title::section_at, crate::specs::Readers::Title::name_at))]
pub fn section_at(line: &[u8], at: usize) -> Option<Line>
    ensures { result ≡ section_at line.now at }
{
    let start = behind::behind_space(line, at);
    let length = run::count(bytes::part(line, start, 16), Class::InName);
    if length == 0 {
        return None;
    }
    let end = start + length;
    if end < line.len() {
        return None;
    }
    Some(Line::Section(start, end))
}

// A heading behind its word and number: "no space after the word undefines it, a space alone defines a blank".
#[tactic(auto, unfolding(crate::specs::Readers::Title::heading_of))]
fn heading_of(line: &[u8], at: usize, n: usize) -> Option<Line>
    ensures { result ≡ heading_of line.now at n }
{
    if line.len() <= at {
        return Some(Line::NoHeading(n));
    }
    if bytes::byte(line, at) != b' ' {
        return None;
    }
    texts::text::text_fits(line, at + 1).then_some(Line::Heading(n, at + 1))
}

// "n 1–9, `$PH` is `$PH1`"
#[tactic(auto, unfolding(crate::specs::Readers::Title::heading_at))]
pub fn heading_at(line: &[u8], at: usize) -> Option<Line>
    ensures { result ≡ heading_at line.now at }
{
    let Some((n, next)) = digits::number_at(line, at, 9) else {
        return heading_of(line, at, 1);
    };
    heading_of(line, next, n)
}

// The same of a line that has a form.
#[tactic(auto, unfolding(crate::specs::Inner::Known::known_of))]
fn known_of(line: &[u8], at: usize, n: usize) -> Line
    ensures { result ≡ known_of line.now at n }
{
    if line.len() <= at {
        return Line::NoHeading(n);
    }
    Line::Heading(n, at + 1)
}

#[tactic(auto, unfolding(crate::specs::Inner::Known::known_heading))]
pub fn known_heading(line: &[u8], at: usize) -> Line
    ensures { result ≡ known_heading line.now at }
{
    let Some((n, next)) = digits::number_at(line, at, 9) else {
        return known_of(line, at, 1);
    };
    known_of(line, next, n)
}

// "alone or with a space and any text, unread"
#[tactic(auto, unfolding(crate::specs::Readers::Title::remark_at))]
pub fn remark_at(line: &[u8], at: usize) -> Option<Line>
    ensures { result ≡ remark_at line.now at }
{
    if line.len() <= at {
        return Some(Line::Remark);
    }
    if bytes::byte(line, at) != b' ' {
        return None;
    }
    Some(Line::Remark)
}

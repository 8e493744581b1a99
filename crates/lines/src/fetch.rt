// $REC and $TBL: "n Pm record entry count".
ghost use Rattle.std.specs.Prelude.{◌≡◌};
ghost use Rattle.lines.specs.Inner.Dispatch.{fetch_of};
ghost use Rattle.lines.specs.Readers.Fetch.{parameter_at, fetched_at, fetch_at};

use crate::behind;
use crate::command::{Fetch, Line};
use crate::word::Fetched;
use arguments::index;
use scan::{bytes, digits};

// "Pm", without a filter.
#[tactic(auto, unfolding(crate::specs::Readers::Fetch::parameter_at))]
fn parameter_at(line: &[u8], at: usize) -> Option<(usize, usize)>
    ensures { result ≡ parameter_at line.now at }
{
    if bytes::byte(line, at) != b'P' {
        return None;
    }
    digits::number_at(line, at + 1, 65_535)
}

// "record entry count"
#[tactic(auto, unfolding(crate::specs::Readers::Fetch::fetched_at))]
fn fetched_at(line: &[u8], at: usize, number: usize, parameter: usize) -> Option<(Fetch, usize)>
    ensures { result ≡ fetched_at line.now at number parameter }
{
    let start = behind::behind_space(line, at);
    let (first, next) = index::index_at(line, start)?;
    let middle = behind::behind_space(line, next);
    let (second, after) = index::index_at(line, middle)?;
    let last = behind::behind_space(line, after);
    let (count, end) = index::index_at(line, last)?;
    Some((
        Fetch {
            number,
            parameter,
            record: first,
            entry: second,
            count,
        },
        end,
    ))
}

#[tactic(auto, unfolding(crate::specs::Inner::Dispatch::fetch_of, crate::specs::Readers::Fetch::fetch_at))]
pub fn fetch_at(line: &[u8], at: usize, fetched: Fetched) -> Option<Line>
    ensures { result ≡ fetch_at (fetch_of fetched) line.now at }
{
    let start = behind::behind_space(line, at);
    let (number, next) = digits::number_at(line, start, 10)?;
    let second = behind::behind_space(line, next);
    let (parameter, after) = parameter_at(line, second)?;
    let (fetch, end) = fetched_at(line, after, number, parameter)?;
    if end < line.len() {
        return None;
    }
    Some(match fetched {
        Fetched::Records => Line::Records(fetch),
        Fetched::Entries => Line::Entries(fetch),
    })
}

// 6: "The section asked for isn't there, or the name is empty and there is no $SEC."
ghost use Rattle.std.specs.Prelude.{◌≡◌, ◌+◌, ◌<◌, ◌≤◌, length, drop};
ghost use Rattle.template.specs.Lines.{lines_of};
ghost use Rattle.template.specs.Sections.{selects, section_from, section_end};
ghost use Rattle.template.specs.Order.{section_checked};
ghost use Rattle.template.specs.Inner.Within.{Within};

use crate::{Extent, names};
use meaning::refusal::Refusal;

// Whether a name selects a line: "an empty name selects all".
#[tactic(auto, unfolding(crate::specs::Sections::selects))]
fn selects_line(name: &[u8], line: &[u8]) -> bool
    ensures { result ≡ selects name.now line.now }
{
    let other = names::name_of(line);
    if name.is_empty() {
        return !other.is_empty();
    }
    let front = scan::bytes::part(name, 0, 8);
    names::same_bytes(front, other)
}

// The first line from a place on that a name selects.
fn section_from(template: &[u8], from: usize, before: u32, name: &[u8]) -> Option<(usize, u32)>
    requires { (length template.now ≤ 32768) × (before ≤ from) }
    ensures { (result ≡ section_from name.now from before (lines_of (drop from template.now))) × Within template.now result }
{
    let mut at = from;
    let mut lines: u32 = before;
    // A slice's `split` has an empty line behind the last line end, and no places.
    while at < template.len() {
        let line = scan::bytes::line_of(&template[at..]);
        if selects_line(name, line) {
            return Some((at, lines + 1));
        }
        at += line.len() + 1;
        lines += 1;
    }
    None
}

// "to the line before the next $SEC (or to the end)"; the section starts at a place and its line has a number.
fn section_end(template: &[u8], name: &[u8], at: usize, number: u32) -> usize
    requires { (length template.now ≤ 32768) × (at < length template.now) × (number ≤ at + 1) }
    ensures { result ≡ section_end template.now name.now at number }
{
    if name.is_empty() {
        return template.len();
    }
    let first = scan::bytes::line_of(&template[at..]);
    let next = at + first.len() + 1;
    match section_from(template, next, number, b"") {
        Some((end, _)) => end,
        None => template.len(),
    }
}

pub fn select(template: &[u8], name: &[u8]) -> Result<Extent, (Refusal, u32)>
    requires { length template.now ≤ 32768 }
    ensures { result ≡ section_checked template.now name.now }
{
    let (start, line) = section_from(template, 0, 0, name).ok_or((Refusal::NoSection, 0))?;
    let until = section_end(template, name, start, line);
    Ok(Extent { start, line, until })
}

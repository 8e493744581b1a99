// The checks of a whole template, in document 01's order, where the run of a section starts and ends, and where a jump goes on.
//
// check              2 to 5, each over the whole template, then 6
// bytes::check       2: too long, a byte or a line outside its limits
// seek::skip_lines   where a failed test, an executed $ELSE and a $BT with n below 1 go on
#![tactic(auto)]

ghost use Rattle.std.specs.Prelude.{◌≡◌};
ghost use Rattle.template.specs.Order.{template_checked};

use meaning::refusal::Refusal;

pub mod bytes; // bytes.rt: check 2
mod shapes; // shapes.rt: what a line is to the checks and to a search
mod forms; // forms.rt: checks 3 and 4
mod names; // names.rt: the names of sections
mod repeats; // repeats.rt: check 5
mod sections; // sections.rt: check 6
pub mod seek; // seek.rt: where a failed test, an executed $ELSE and a skipped table go on

// "A template has at most 32,768 bytes"
const LONGEST_TEMPLATE: usize = 32_768;

// A run's lines: where the first starts, its number, and where the line behind the last would start.
#[derive(Clone, Copy)]
pub struct Extent {
    pub start: usize,
    pub line: u32,
    pub until: usize,
}

// "Checks 2–5 each cover the whole template, then the next."
pub fn check(template: &[u8], section: &[u8]) -> Result<Extent, (Refusal, u32)>
    ensures { result ≡ template_checked template.now section.now }
{
    bytes::check(template)?;
    forms::check(template)?;
    repeats::check(template)?;
    sections::select(template, section)
}

// 3: "A line has no form above, a number literal exceeds ±2,000,000,000, or fields widen a line past 132 bytes."
// 4: nesting, from the first line to the last. One walk for both parses a line once.
ghost use Rattle.std.specs.Prelude.{◌≡◌, ◌+◌, ◌≤◌, length, drop};
ghost use Rattle.template.specs.Lines.{lines_of};
ghost use Rattle.meaning.specs.declared.refusal.Refusal.TheVariants.{BadLine};
ghost use Rattle.template.specs.Verdicts.{fault_refused, first_fault};
ghost use Rattle.template.specs.Shape.{is_formed};
ghost use Rattle.template.specs.Checks.{form_check, nest_check, form_before_nesting};

use crate::shapes;
use meaning::refusal::Refusal;
use nesting::Open;

// 3 on the lines from a place on, where a line with a number starts.
fn formed_from(template: &[u8], from: usize, first: u32) -> Result<(), (Refusal, u32)>
    requires { (length template.now ≤ 32768) × (first ≤ from + 1) }
    ensures { result ≡ fault_refused BadLine (first_fault is_formed first (lines_of (drop from template.now))) }
{
    let mut at = from;
    let mut number: u32 = first;
    // A slice's `split` has an empty line behind the last line end, and no places.
    while at < template.len() {
        let line = scan::bytes::line_of(&template[at..]);
        if !shapes::is_formed(line) {
            return Err((Refusal::BadLine, number));
        }
        at += line.len() + 1;
        number += 1;
    }
    Ok(())
}

// 3, then 4. A line that is wrong in nesting is named only where 3 finds nothing behind it.
pub fn check(template: &[u8]) -> Result<(), (Refusal, u32)>
    requires { length template.now ≤ 32768 }
    ensures { result ≡ form_before_nesting (form_check template.now) (nest_check template.now) }
{
    let mut at = 0;
    let mut lines: u32 = 0;
    let mut state = Open {
        marks: 0,
        tests: 0,
        tables: 0,
    };
    // A slice's `split` has an empty line behind the last line end, and no places.
    while at < template.len() {
        let line = scan::bytes::line_of(&template[at..]);
        let shape = shapes::shape_of(line);
        if !shapes::has_form(shape) {
            return Err((Refusal::BadLine, lines + 1));
        }
        let Some(next) = nesting::after_line(state, shape) else {
            formed_from(template, at, lines + 1)?;
            return Err((Refusal::BadNesting, lines + 1));
        };
        state = next;
        at += line.len() + 1;
        lines += 1;
    }
    if !nesting::all_closed(state) {
        return Err((Refusal::BadNesting, lines));
    }
    Ok(())
}

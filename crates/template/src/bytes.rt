// 2: "The template is too long (line 0), has a byte or line outside its limits."
ghost use Rattle.std.specs.Prelude.{◌≡◌, ◌≤◌, length};
ghost use Rattle.scan.specs.Inner.Bytes.{first_refused};
ghost use Rattle.template.specs.Lines.{lines_of};
ghost use Rattle.meaning.specs.declared.refusal.Refusal.TheVariants.{BadTemplate};
ghost use Rattle.template.specs.Verdicts.{fault_refused, first_fault, line_allowed, bytes_check};

use crate::LONGEST_TEMPLATE;
use meaning::refusal::Refusal;

const LONGEST_LINE: usize = 132;

// The first line that is too long or has the first byte that isn't allowed, whose place is `refused`.
fn lines(template: &[u8], refused: usize) -> Result<(), (Refusal, u32)>
    requires { (length template.now ≤ 32768) × (refused ≡ first_refused template.now) }
    ensures { result ≡ fault_refused BadTemplate (first_fault line_allowed 1 (lines_of template.now)) }
{
    let mut at = 0;
    let mut number: u32 = 1;
    // A slice's `split` has an empty line behind the last line end, and no places.
    while at < template.len() {
        let line = scan::bytes::line_of(&template[at..]);
        let length = line.len();
        if LONGEST_LINE < length || refused < at + length {
            return Err((Refusal::BadTemplate, number));
        }
        at += length + 1;
        number += 1;
    }
    Ok(())
}

pub fn check(template: &[u8]) -> Result<(), (Refusal, u32)>
    ensures { result ≡ fault_refused BadTemplate (bytes_check template.now) }
{
    if LONGEST_TEMPLATE < template.len() {
        return Err((Refusal::BadTemplate, 0));
    }
    let refused = scan::bytes::first_refused(template);
    lines(template, refused)
}

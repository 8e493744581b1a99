// The report, with a read list of its own.
ghost use Rattle.std.specs.Prelude.{◌≡◌, length};
ghost use Rattle.sheet.specs.Sheet.{Sheet};
ghost use Rattle.sheet.specs.Inner.Printed.{Fits, Printed};

use meaning::question::Question;
use report::{Report, reporting};

// "its read list 4,096 places"
fn printed<'a>(
    template: &'a [u8],
    section: &'a [u8],
    store: &'a [u8],
    len: usize,
    text: &mut [u8],
) -> Report
    ensures { Printed template.now section.now store.now len text.old text.new result }
{
    let mut reads = [Question::default(); 4096];
    reporting::report(template, section, store, len, text, &mut reads)
}

// "Its text buffer has 65,536 bytes"
pub fn sheet<'a>(
    template: &'a [u8],
    section: &'a [u8],
    store: &'a [u8],
    len: usize,
    text: &mut [u8],
) -> Report
    requires { length text.old ≡ 65536 }
    ensures { (Sheet template.now section.now store.now len text.old text.new result) × (Fits text.new result) }
{
    printed(template, section, store, len, text)
}

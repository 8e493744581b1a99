// A report.
ghost use Rattle.std.specs.Prelude.{◌≡◌};
ghost use Rattle.report.specs.Reported.{Reported};
ghost use Rattle.station.specs.Reports.{report_from};

use meaning::question::Question;
use report::{Report, reporting};

// The number of a report is returned, its other numbers go out.
fn hand_report<'b>(
    made: Report,
    line: &'b mut u32,
    pages: &'b mut u32,
    bytes: &'b mut usize,
    questions: &'b mut usize,
) -> u32
    ensures { report_from result line.new pages.new bytes.new questions.new ≡ made }
{
    *line = made.line;
    *pages = made.pages;
    *bytes = made.bytes;
    *questions = made.questions;
    made.number as u32
}

pub fn station_report<'a, 'b>(
    template: &'a [u8],
    section: &'a [u8],
    buffer: &'a [u8],
    length: usize,
    text: &mut [u8],
    reads: &mut [Question],
    line: &'b mut u32,
    pages: &'b mut u32,
    bytes: &'b mut usize,
    questions: &'b mut usize,
) -> u32
    ensures { Reported template.now section.now buffer.now length text.old reads.old text.new reads.new (report_from result line.new pages.new bytes.new questions.new) }
{
    let made = reporting::report(template, section, buffer, length, text, reads);
    hand_report(made, line, pages, bytes, questions)
}

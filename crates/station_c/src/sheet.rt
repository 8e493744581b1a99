// A report.
ghost use Rattle.report.specs.Reported.{Reported};
ghost use Rattle.station.specs.Reports.{report_from};

use meaning::question::Question;

#[unsafe(no_mangle)]
pub extern "C" fn station_report<'a, 'b>(
    template: &'a [u8],
    section: &'a [u8],
    buffer: &'a [u8],
    length: usize,
    text: &mut [u8],
    reads: &mut [Question],
    line: &'b mut u32,
    pages: &'b mut u32,
    bytes: &'b mut usize,
    questions: &'b mut usize,
) -> u32
    ensures { Reported template.now section.now buffer.now length text.old reads.old text.new reads.new (report_from result line.new pages.new bytes.new questions.new) }
{
    station::sheet::station_report(
        template, section, buffer, length, text, reads, line, pages, bytes, questions,
    )
}

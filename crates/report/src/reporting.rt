// The whole: a stretch of lines, its questions on the read list, and the next.
ghost use Rattle.report.specs.Reported.{Reported};

use crate::{Report, reads, start, stretch};
use meaning::question::Question;

// The report of a template on a store: the text and the questions asked, each from its buffer's start, and how it ended.
pub fn report<'a>(
    template: &'a [u8],
    section: &'a [u8],
    store: &'a [u8],
    len: usize,
    text: &mut [u8],
    reads: &mut [Question],
) -> Report
    ensures { Reported template.now section.now store.now len text.old reads.old text.new reads.new result }
{
    let mut index = [0u16; 5461];
    let mut strings = start::no_strings();
    let mut s = start::begin(template, section, store, len, &mut index, reads.len());
    // A stretch says itself whether there is another.
    while s.more {
        s = stretch::run(template, store, &mut index, text, &mut strings, s);
        reads::append(reads, s.log);
    }
    s.report
}

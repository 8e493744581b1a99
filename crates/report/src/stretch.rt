// A stretch of lines: as many as the log has places for.
ghost use Rattle.std.specs.Prelude.{◌≡◌};
ghost use Rattle.report.specs.Inner.Stretch.{RunReady, Ran};

use crate::ends;
use crate::state::{Saved, Stretch};
use executed_line::line;
use meaning::end::Stop;
use meaning::refusal::Refusal;
use values::log::Log;

// From a stretch on: lines are executed while the log has places for all questions that a line may ask.
pub fn run<'a, 'b, 'c>(
    template: &'a [u8],
    store: &'a [u8],
    index: &'b mut [u16; 5461],
    text: &'c mut [u8],
    strings: &'c mut [[u8; 16]; 99],
    s: Stretch,
) -> Stretch
    requires { RunReady template.now store.now index.old text.old strings.old s.saved }
    ensures { (Ran template.now store.now index.old text.old strings.old s text.new strings.new result) × (index.new ≡ index.old) }
{
    let saved = s.saved;
    let len = saved.len;
    let part = &store[0..len];
    let end = saved.end;
    let count = saved.count;
    let whole = &index[..];
    let cells = &whole[0..count];
    let asked = saved.asked;
    let mut numbers = saved.numbers;
    let mut words = saved.words;
    let mut flow = saved.flow;
    let mut left = saved.left;
    let mut printed = saved.printed;
    let mut log = Log {
        words: [0; 512],
        asked: 0,
        places: saved.places - asked,
    };
    // Counted down and not up: what is left goes into the next stretch.
    while 0 < left {
        let at = flow.at;
        if end <= at {
            return ends::over(Ok(()), flow.page.number, printed, asked, &log);
        }
        if 180 < log.asked {
            let next = Saved {
                flow,
                left,
                end,
                len,
                count,
                printed,
                asked: asked + log.asked,
                places: saved.places,
                numbers,
                words,
            };
            return ends::full(asked, &log, next);
        }
        let ended = line::line(
            template,
            part,
            cells,
            &mut numbers,
            strings,
            &mut words,
            text,
            &mut printed,
            &mut log,
            &mut flow,
        );
        match ended {
            Ok(()) => left -= 1,
            Err(stop) => {
                return ends::over(Err(stop), flow.page.number, printed, asked, &log);
            }
        }
    }
    let due = flow.at;
    if due < end {
        let stop = Stop::refused(Refusal::TooManyLines, flow.line);
        return ends::over(Err(stop), flow.page.number, printed, asked, &log);
    }
    ends::over(Ok(()), flow.page.number, printed, asked, &log)
}

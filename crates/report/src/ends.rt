// How a stretch ends: the run is over, or the log is full.
ghost use Rattle.std.specs.Prelude.{◌≡◌, ◌+◌, ◌<◌, ◌^◌};
ghost use Rattle.report.specs.Inner.Start.{over_at, full_at};

use crate::state::{Batch, Saved, Stretch};
use crate::{Report, start};
use meaning::end;
use meaning::end::Stop;
use values::log::Log;

// The run is over: how it ended, and what it left.
pub fn over(end: Result<(), Stop>, page: u32, printed: usize, at: usize, log: &Log) -> Stretch
    requires { at + log.now.asked < 2 ^ 64 }
    ensures { result ≡ over_at end page printed at log.now.words log.now.asked }
{
    let saved = start::nothing();
    let words = log.words;
    let logged = log.asked;
    let questions = at + logged;
    Stretch {
        more: false,
        log: Batch {
            at,
            n: logged,
            words,
        },
        report: Report {
            number: end::number(end),
            line: end::line(end),
            pages: page,
            bytes: printed,
            questions,
        },
        saved,
    }
}

// The log is full: its questions stand on the read list from a place on, and the run goes on as saved.
pub fn full(at: usize, log: &Log, saved: Saved) -> Stretch
    ensures { result ≡ full_at at log.now.words log.now.asked saved }
{
    let words = log.words;
    let logged = log.asked;
    Stretch {
        more: true,
        log: Batch {
            at,
            n: logged,
            words,
        },
        report: Report {
            number: 0,
            line: 0,
            pages: 0,
            bytes: 0,
            questions: 0,
        },
        saved,
    }
}

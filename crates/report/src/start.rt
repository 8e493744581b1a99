// The checks, and what the first stretch of a run starts from.
ghost use Rattle.std.specs.Prelude.{◌≡◌, ◌≤◌, length, replicate};
ghost use Rattle.report.specs.Inner.Start.{no_log, start_flow, start_saved, nothing_saved, refused_at, started_at};
ghost use Rattle.report.specs.Inner.Begun.{Begun};

use crate::Report;
use crate::state::{Batch, Saved, Stretch};
use cells::index;
use control::state::Flow;
use meaning::refusal::Refusal;
use pages::page::Page;
use template::Extent;

// A log without questions.
fn no_log() -> Batch
    ensures { result ≡ no_log }
{
    Batch {
        at: 0,
        n: 0,
        words: [0; 512],
    }
}

// The rows of SV1 to SV99, no byte of which is set.
pub fn no_strings() -> [[u8; 16]; 99]
    ensures { result ≡ replicate 99 (replicate 16 0) }
{
    [[0; 16]; 99]
}

// Where the lines of a run start: "Cells ask in the selected datasource, 1 at the start"; "PAGENUM starts at 1".
fn flow(run: Extent) -> Flow
    ensures { result ≡ start_flow run }
{
    let page = Page::new();
    Flow {
        at: run.start,
        line: run.line,
        datasource: 1,
        feeds: true,
        page,
        depth: 0,
    }
}

fn saved(run: Extent, len: usize, count: usize, places: usize) -> Saved
    ensures { result ≡ start_saved run len count places }
{
    let f = flow(run);
    Saved {
        flow: f,
        left: 50_000,
        end: run.until,
        len,
        count,
        printed: 0,
        asked: 0,
        places,
        numbers: [0; 198],
        words: [0; 212],
    }
}

// Nothing is saved: there is no next stretch.
pub fn nothing() -> Saved
    ensures { result ≡ nothing_saved }
{
    let none = Extent {
        start: 0,
        line: 0,
        until: 0,
    };
    saved(none, 0, 0, 0)
}

// The call is refused: "A report ending in 1–6 gives pages, text bytes and questions 0".
fn refused(refusal: Refusal, line: u32) -> Stretch
    ensures { result ≡ refused_at refusal line }
{
    let v = nothing();
    let log = no_log();
    Stretch {
        more: false,
        log,
        report: Report {
            number: refusal.number(),
            line,
            pages: 0,
            bytes: 0,
            questions: 0,
        },
        saved: v,
    }
}

// The run may start.
fn started(run: Extent, len: usize, count: usize, places: usize) -> Stretch
    ensures { result ≡ started_at run len count places }
{
    let v = saved(run, len, count, places);
    let log = no_log();
    Stretch {
        more: true,
        log,
        report: Report {
            number: 0,
            line: 0,
            pages: 0,
            bytes: 0,
            questions: 0,
        },
        saved: v,
    }
}

// "Checks 2–5 each cover the whole template, then the next"; check 1 comes first.
pub fn begin<'a>(
    template: &'a [u8],
    section: &'a [u8],
    store: &'a [u8],
    len: usize,
    index: &mut [u16; 5461],
    places: usize,
) -> Stretch
    requires { 5461 ≤ length index.old }
    ensures { Begun template.now section.now store.now len places index.new result }
{
    let Some(count) = index::build(store, len, index) else {
        return refused(Refusal::BadStore, 0);
    };
    let checked = template::check(template, section);
    match checked {
        Err((refusal, line)) => refused(refusal, line),
        Ok(run) => started(run, len, count, places),
    }
}

// A report: the checks, then the run, stretch by stretch, with its questions on the caller's read list.
//
// reporting::report   the text and the questions of a template's section on a store, and how it ended
#![tactic(auto)]

mod state; // state.rt: what stands between two stretches
mod ends; // ends.rt: how a stretch ends
mod start; // start.rt: the checks, and what the first stretch starts from
mod stretch; // stretch.rt: a stretch of lines, as many as the log has places for
mod reads; // reads.rt: the questions of a stretch, on the caller's read list
pub mod reporting; // reporting.rt: the whole

#[derive(Clone, Copy)]
pub struct Report {
    pub number: u8,
    pub line: u32,
    pub pages: u32,
    pub bytes: usize,
    pub questions: usize,
}

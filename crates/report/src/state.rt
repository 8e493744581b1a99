// What stands between two stretches of lines.
use crate::Report;
use control::state::Flow;
use values::registers::{Numbers, Words};

// The questions of a stretch, each as one number, how many they are, and the place of the first of them on the read list.
#[derive(Clone, Copy)]
pub struct Batch {
    pub at: usize,
    pub n: usize,
    pub words: [u64; 512],
}

// What the next stretch starts from, beside the rows of SV: how many lines may still be executed, where the run's lines end,
// the store's length and its number of cells, how far the text and the read list are filled, the variables.
#[derive(Clone, Copy)]
pub struct Saved {
    pub flow: Flow,
    pub left: u32,
    pub end: usize,
    pub len: usize,
    pub count: usize,
    pub printed: usize,
    pub asked: usize,
    pub places: usize,
    pub numbers: Numbers,
    pub words: Words,
}

// Whether the run goes on, the questions of the last stretch, the report where it doesn't, and where it goes on where it does.
#[derive(Clone, Copy)]
pub struct Stretch {
    pub more: bool,
    pub log: Batch,
    pub report: Report,
    pub saved: Saved,
}

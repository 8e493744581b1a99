// The control flow of a run: what stands between two lines, and what follows from each command's values.
//
// flow::scene_of, past, jumped, again    what a line is executed in, and where the run goes on
// inputs::inputs_of                      the arguments that are worked out before a command
// arms::                                 what each command does to the flow, the page and the rows that it sets
#![tactic(auto)]

pub mod state; // state.rt: what stands between two lines
pub mod flow; // flow.rt: where a run goes on
pub mod inputs; // inputs.rt: the arguments of a line
pub mod arms; // arms.rt: each command

// One line of a run.
//
// line::line   the line that is due: what it asks, prints and sets, and where the run goes on
#![tactic(auto)]

mod execute; // execute.rt: the forms
pub mod line; // line.rt: the line

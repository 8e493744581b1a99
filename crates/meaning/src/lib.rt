// What a run means. The types that all later crates share are here; trees of runs, with their laws, are in specs/ and proofs/.
//
// question::Question            a question, as it is asked and listed
// refusal::Refusal, Overflow    what a run can be refused for, or cut off at; number() gives document 01's number
// end::Stop, Halt               where a run stops early, and why; a call of a run ends with a Result<_, Stop>
// end::Ended                    how ask, put and remove ended
// end::number, line             of a run's end, as document 01 gives them; Ended has its own
#![tactic(auto)]

pub mod end; // end.rt: how a call ended
pub mod question; // question.rt: questions
pub mod refusal; // refusal.rt: refusals and full buffers, with their numbers

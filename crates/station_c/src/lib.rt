// The exports of libstation.a, declared in ../station/include/station.h: each hands its call on to the function of that name in
// the crate station, whose clauses it repeats.
#![tactic(auto)]

mod question; // question.rt: questions to a store
mod edit; // edit.rt: puts and removes
mod check; // check.rt: the checks of a template
mod sheet; // sheet.rt: a report

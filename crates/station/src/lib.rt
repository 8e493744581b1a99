// The calls for C and Rust, declared in include/station.h: numbers, slices of them, and the read list.
#![tactic(auto)]

pub mod question; // question.rt: questions to a store
pub mod edit; // edit.rt: puts and removes
pub mod check; // check.rt: the checks of a template
pub mod sheet; // sheet.rt: a report

// The calls that only tests and benchmarks need, declared in include/station_testing.h: a library of its own, which users don't link.
#![tactic(auto)]

pub mod arithmetic; // arithmetic.rt: calculations, comparison, rounding
pub mod field; // field.rt: fields
pub mod index; // index.rt: the index of a store, and questions over it
pub mod jump; // jump.rt: where a failed test, an executed $ELSE and a skipped table go on
pub mod line; // line.rt: the parsed form of a line

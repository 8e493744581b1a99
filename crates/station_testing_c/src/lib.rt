// The exports of libstation_testing.a, declared in ../station_testing/include/station_testing.h: each hands its call on to the
// function of that name in the crate station_testing, whose clauses it repeats.
#![tactic(auto)]

mod arithmetic; // arithmetic.rt: calculations, comparison, rounding
mod field; // field.rt: fields
mod index; // index.rt: the index of a store, and questions over it
mod jump; // jump.rt: where a failed test, an executed $ELSE and a skipped table go on
mod line; // line.rt: the parsed form of a line

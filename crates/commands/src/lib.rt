// Commands of values: what a command takes from the values of its arguments, and what $SETE to $SETD, tests and tables do with them.
//
// settle::integer_of, integer_or, decimal_of, quantity_of, text_of    what is taken from a value, or the refusal: 10, 11
// settle::result_of                                                   what is taken from a calculation, or the refusal: 12, 13
// set::assigned                                                       $SETE, $SETA, $SETS, $SETM, $SETD
// test::if_zero                                                       $IF, $IFNOT
// test::compare                                                       $IFEQ to $IFGE, $IFEQSS, $IFEQSI
// table::begin_table, end_table                                       $BT, $ET
// table::innermost, turn_of                                           the open tables, LOOP
#![tactic(auto)]

pub mod settle; // settle.rt: what is taken from values
mod string; // string.rt: a string as SVn
pub mod set; // set.rt: $SETE to $SETD
pub mod test; // test.rt: $IF to $IFEQSI
pub mod table; // table.rt: $BT and $ET

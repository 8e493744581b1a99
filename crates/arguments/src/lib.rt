// The arguments of commands and fields, as document 01 says under "Lines and arguments".
//
// literal::literal_at    an integer or a decimal
// index::index_at        1–3 digits, IVn or LOOP
// operand::operand_at    what stands before a filter
// argument::argument_at  an operand with at most one filter
// variable::variable_at  IVn, FVn or SVn alone, or that something else is there
// cell::cell_at          a cell without entry and filter before the comma of a field, or that something else is there
//
// Each reads what stands in a line at a place, and answers it with the place behind it, or that there is none.
#![tactic(auto)]

pub mod literal; // literal.rt: integers and decimals
pub mod index; // index.rt: indexes
mod name; // name.rt: the names of operands and filters
pub mod operand; // operand.rt: strings, numbers, variables, cells
pub mod variable; // variable.rt: the variable that a command sets
pub mod argument; // argument.rt: operands with filters
pub mod cell; // cell.rt: the argument that most fields have

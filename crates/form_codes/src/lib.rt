// The parsed form of a line, and of a piece of its text, as a row of 16 numbers for the calls for tests.
//
// line::write_line     a line's command with its arguments
// piece::write_piece   a byte of a text, or a field
//
// Numbers stand for kinds in the rows, since these cross the boundary to C.
// Each writes its row at the front of a lent buffer and answers whether there was room.
#![tactic(auto)]

mod row; // row.rt: rows
mod argument; // argument.rt: arguments
pub mod line; // line.rt: lines
pub mod piece; // piece.rt: pieces of texts

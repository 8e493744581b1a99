// Texts and headings with their fields, as document 01 says under "Lines and arguments".
//
// text::field_at               a field behind its brace
// text::piece_at               one byte of a text, or a field
// text::plain_run              the bytes of a text up to the next brace
// text::text_fits              whether braces stand in fields only and the line has at most 132 bytes with its fields
// cell_field::cell_field_at    a field of a cell without entry and filter, or that something else is there
#![tactic(auto)]

pub mod text; // text.rt: fields and texts
pub mod cell_field; // cell_field.rt: the field that is printed most

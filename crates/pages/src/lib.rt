// Text lines on pages: each field's value in its bytes, the line printed whole or not at all, with the break and the headings before it.
//
// page::Page         PAGENUM and LINENUM
// page::break_page   a break
// heading::packed    a heading as one number
// step::step         a text line with the break and the headings before it
#![tactic(auto)]

mod field; // field.rt: a value in the bytes of its field
mod text; // text.rt: a line, made in one pass
pub mod heading; // heading.rt: headings as numbers
pub mod page; // page.rt: the page and its break
pub mod step; // step.rt: headings, and all that a text line does

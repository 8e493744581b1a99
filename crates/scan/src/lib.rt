// The bytes of a template: which are allowed, where a line ends, and the smallest parts of a line.
//
// bytes::first_refused           where the first byte is that isn't "0x20–0x7E or 0x0A"
// bytes::line_of                 the line that a part of a template starts with
// bytes::byte, part, rest        a byte of a line; some bytes of it, or all, from a place on
// run::count, belongs_to         how many bytes at the front belong to a class; whether one does
// digits::digits_at, number_at   a run of digits and its value; a number without leading zeros
// words::begins_with             whether a line has a fixed byte string at a place
// words::word_or                 what a fixed byte string is for, or what else was found
// words::word_at                 the first of some fixed byte strings, with what it is for
#![tactic(auto)]

pub mod run; // run.rt: classes of bytes and runs of them
pub mod bytes; // bytes.rt: bytes and lines of a template
pub mod digits; // digits.rt: digits and numbers
pub mod words; // words.rt: fixed byte strings

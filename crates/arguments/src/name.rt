// Which name stands at a place: its first letter tells which names can, and these are compared with the line.
ghost use Rattle.std.specs.Prelude.{◌≡◌};
ghost use Rattle.scan.specs.Inner.Tables.{word_at};
ghost use Rattle.arguments.specs.Inner.Named.{name_words};
ghost use Rattle.arguments.specs.Inner.Filtered.{filter_words};

use crate::argument::Filter;
use scan::{bytes, words};

// What stands behind a name with a number.
#[derive(Clone, Copy)]
pub enum NumberedName {
    IntegerVariable,
    DecimalVariable,
    StringVariable,
    RecordElement,
    EntryElement,
}

// What the names of operands begin.
#[derive(Clone, Copy)]
pub enum Name {
    PageNumber,
    LineNumber,
    LoopCounter,
    Numbered(NumberedName),
    Cell,
}

// The first name of an operand that stands at a place.
pub fn operand_name(line: &[u8], at: usize) -> Option<(Name, usize)>
    ensures { result ≡ word_at name_words line.now at }
{
    match bytes::byte(line, at) {
        b'P' => {
            let cell = words::word_or(line, at, b"P", Name::Cell, None);
            words::word_or(line, at, b"PAGENUM", Name::PageNumber, cell)
        }
        b'L' => {
            let turn = words::word_or(line, at, b"LOOP", Name::LoopCounter, None);
            words::word_or(line, at, b"LINENUM", Name::LineNumber, turn)
        }
        b'I' => words::word_or(
            line,
            at,
            b"IV",
            Name::Numbered(NumberedName::IntegerVariable),
            None,
        ),
        b'F' => words::word_or(
            line,
            at,
            b"FV",
            Name::Numbered(NumberedName::DecimalVariable),
            None,
        ),
        b'S' => words::word_or(
            line,
            at,
            b"SV",
            Name::Numbered(NumberedName::StringVariable),
            None,
        ),
        b'R' => words::word_or(
            line,
            at,
            b"R",
            Name::Numbered(NumberedName::RecordElement),
            None,
        ),
        b'T' => words::word_or(
            line,
            at,
            b"T",
            Name::Numbered(NumberedName::EntryElement),
            None,
        ),
        _ => None,
    }
}

// The first name of a filter that stands at a place.
pub fn filter_name(line: &[u8], at: usize) -> Option<(Filter, usize)>
    ensures { result ≡ word_at filter_words line.now at }
{
    match bytes::byte(line, at) {
        b'A' => words::word_or(line, at, b"ABS", Filter::Absolute, None),
        b'I' => words::word_or(line, at, b"INT", Filter::Truncated, None),
        b'U' => words::word_or(line, at, b"UPPER", Filter::UpperCase, None),
        b'L' => words::word_or(line, at, b"LEN", Filter::Length, None),
        b'R' => words::word_or(line, at, b"RECCNT", Filter::RecordCount, None),
        b'E' => words::word_or(line, at, b"ENTCNT", Filter::EntryCount, None),
        _ => None,
    }
}

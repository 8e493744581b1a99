// Which command's word stands behind the `$`: letters of the line tell which words can, and these are compared with it.
ghost use Rattle.std.specs.Prelude.{◌≡◌};
ghost use Rattle.scan.specs.Line.{byte_at};
ghost use Rattle.scan.specs.Inner.Tables.{word_else};
ghost use Rattle.lines.specs.Inner.Dispatch.{command_word};

use crate::command::{Comparison, Operation};
use scan::{bytes, words};

// $IFNOT, $IF, $BT
#[derive(Clone, Copy)]
pub enum Single {
    IfNot,
    If,
    BeginTable,
}

// $ELSE, $ENDIF, $NOFF
#[derive(Clone, Copy)]
pub enum Bare {
    Else,
    EndIf,
    NoFormFeed,
}

// $ET, $NP
#[derive(Clone, Copy)]
pub enum Optional {
    EndTable,
    NewPage,
}

// $REC, $TBL
#[derive(Clone, Copy)]
pub enum Fetched {
    Records,
    Entries,
}

// What the words of commands begin.
#[derive(Clone, Copy)]
pub enum Word {
    // $SETDS
    Datasource,
    Set(Operation),
    Compare(Comparison),
    Single(Single),
    Bare(Bare),
    Optional(Optional),
    Fetched(Fetched),
    // $SEC, $PH, $REM
    Section,
    Heading,
    Remark,
}

// The word where it stands behind the `$`, else what another search gave.
fn word_or(
    line: &[u8],
    word: &[u8],
    begins: Word,
    other: Option<(Word, usize)>,
) -> Option<(Word, usize)>
    ensures { result ≡ word_else word.now line.now 1 begins other }
{
    words::word_or(line, 1, word, begins, other)
}

// The words that begin with S.
fn set_word(line: &[u8]) -> Option<(Word, usize)>
    requires { byte_at line.now 1 ≡ 83 }
    ensures { result ≡ command_word line.now }
{
    let section = word_or(line, b"SEC", Word::Section, None);
    match bytes::byte(line, 4) {
        b'A' => word_or(line, b"SETA", Word::Set(Operation::Add), section),
        b'D' => {
            let divide = word_or(line, b"SETD", Word::Set(Operation::Divide), section);
            word_or(line, b"SETDS", Word::Datasource, divide)
        }
        b'E' => word_or(line, b"SETE", Word::Set(Operation::Assign), section),
        b'M' => word_or(line, b"SETM", Word::Set(Operation::Multiply), section),
        b'S' => word_or(line, b"SETS", Word::Set(Operation::Subtract), section),
        _ => section,
    }
}

// The words that begin with I.
fn test_word(line: &[u8]) -> Option<(Word, usize)>
    requires { byte_at line.now 1 ≡ 73 }
    ensures { result ≡ command_word line.now }
{
    let shortest = word_or(line, b"IF", Word::Single(Single::If), None);
    match bytes::byte(line, 3) {
        b'E' => {
            let equal = word_or(line, b"IFEQ", Word::Compare(Comparison::Equal), shortest);
            let letters = word_or(
                line,
                b"IFEQSI",
                Word::Compare(Comparison::SameLetters),
                equal,
            );
            word_or(
                line,
                b"IFEQSS",
                Word::Compare(Comparison::SameString),
                letters,
            )
        }
        b'G' => {
            let least = word_or(line, b"IFGE", Word::Compare(Comparison::AtLeast), shortest);
            word_or(line, b"IFGT", Word::Compare(Comparison::Greater), least)
        }
        b'L' => {
            let most = word_or(line, b"IFLE", Word::Compare(Comparison::AtMost), shortest);
            word_or(line, b"IFLT", Word::Compare(Comparison::Less), most)
        }
        b'N' => {
            let zero = word_or(line, b"IFNOT", Word::Single(Single::IfNot), shortest);
            word_or(line, b"IFNE", Word::Compare(Comparison::NotEqual), zero)
        }
        _ => shortest,
    }
}

// The first word of a command that stands behind the `$`.
pub fn command_word(line: &[u8]) -> Option<(Word, usize)>
    ensures { result ≡ command_word line.now }
{
    match bytes::byte(line, 1) {
        b'S' => set_word(line),
        b'I' => test_word(line),
        b'B' => word_or(line, b"BT", Word::Single(Single::BeginTable), None),
        b'E' => {
            let table = word_or(line, b"ET", Word::Optional(Optional::EndTable), None);
            let end = word_or(line, b"ENDIF", Word::Bare(Bare::EndIf), table);
            word_or(line, b"ELSE", Word::Bare(Bare::Else), end)
        }
        b'N' => {
            let page = word_or(line, b"NP", Word::Optional(Optional::NewPage), None);
            word_or(line, b"NOFF", Word::Bare(Bare::NoFormFeed), page)
        }
        b'P' => word_or(line, b"PH", Word::Heading, None),
        b'R' => {
            let remark = word_or(line, b"REM", Word::Remark, None);
            word_or(line, b"REC", Word::Fetched(Fetched::Records), remark)
        }
        b'T' => word_or(line, b"TBL", Word::Fetched(Fetched::Entries), None),
        _ => None,
    }
}

// What a line is, and which command stands in it.
ghost use Rattle.std.specs.Prelude.{◌≡◌, None};
ghost use Rattle.scan.specs.Words.{first_of};
ghost use Rattle.lines.specs.Readers.Command.{commands, parse_line};
ghost use Rattle.lines.specs.Inner.Dispatch.{command_at};
ghost use Rattle.lines.specs.Inner.Known.{form_of};

use crate::word::Word;
use crate::{compare, fetch, set, simple, title, word};
use arguments::argument::Argument;
use arguments::index::Index;
use scan::bytes;

// $SETE, $SETA, $SETS, $SETM, $SETD
#[derive(Clone, Copy)]
pub enum Operation {
    Assign,
    Add,
    Subtract,
    Multiply,
    Divide,
}

// IVn, FVn, SVn
#[derive(Clone, Copy)]
pub enum Target {
    IntegerTarget(usize),
    DecimalTarget(usize),
    StringTarget(usize),
}

// $IFEQSS, $IFEQSI, $IFEQ, $IFNE, $IFLT, $IFLE, $IFGT, $IFGE
#[derive(Clone, Copy)]
pub enum Comparison {
    SameString,
    SameLetters,
    Equal,
    NotEqual,
    Less,
    AtMost,
    Greater,
    AtLeast,
}

// "$REC n Pm record entry count"
#[derive(Clone, Copy)]
pub struct Fetch {
    pub number: usize,
    pub parameter: usize,
    pub record: Index,
    pub entry: Index,
    pub count: Index,
}

#[derive(Clone, Copy)]
pub enum Line {
    Text,
    // $SEC: the name's first byte in the line, and the place behind its last
    Section(usize, usize),
    Set(Operation, Target, Argument),
    // $IFNOT, $IF
    IfNot(Argument),
    If(Argument),
    Compare(Comparison, Argument, Argument),
    Else,
    EndIf,
    // $BT, $ET
    BeginTable(Argument),
    EndTable(Option<Argument>),
    // $REC, $TBL
    Records(Fetch),
    Entries(Fetch),
    // $SETDS
    Datasource(Index),
    // $NOFF, $NP
    NoFormFeed,
    NewPage(Option<Argument>),
    // $PHn: its number, and where its text starts in the line
    Heading(usize, usize),
    NoHeading(usize),
    Remark,
}

// The command of a word, which ends at a place of the line.
#[tactic(auto, unfolding(crate::specs::Inner::Dispatch::command_at))]
fn command_at(line: &[u8], at: usize, word: Word) -> Option<Line>
    ensures { result ≡ command_at word line.now at }
{
    match word {
        Word::Datasource => set::datasource_at(line, at),
        Word::Set(operation) => set::set_at(line, at, operation),
        Word::Compare(comparison) => compare::compare_at(line, at, comparison),
        Word::Single(single) => simple::single_at(line, at, single),
        Word::Bare(bare) => simple::bare_at(line, at, bare),
        Word::Optional(optional) => simple::optional_at(line, at, optional),
        Word::Fetched(fetched) => fetch::fetch_at(line, at, fetched),
        Word::Section => title::section_at(line, at),
        Word::Heading => title::heading_at(line, at),
        Word::Remark => title::remark_at(line, at),
    }
}

// The command whose word stands behind the `$`.
#[tactic(auto, using(crate::proofs::DispatchLaws::command_by_kind))]
fn command_in(line: &[u8]) -> Option<Line>
    ensures { result ≡ first_of None commands line.now 1 }
{
    let (word, at) = word::command_word(line)?;
    command_at(line, at, word)
}

// A line's command with its arguments, or a text; none where the line has no form: 3.
#[tactic(auto, unfolding(crate::specs::Readers::Command::parse_line))]
pub fn parse_line(line: &[u8]) -> Option<Line>
    ensures { result ≡ parse_line line.now }
{
    if bytes::byte(line, 0) == b'$' {
        return command_in(line);
    }
    texts::text::text_fits(line, 0).then_some(Line::Text)
}

// The form of a line that has one, which check 3 has judged: no text is walked for its width again. Only $PH begins with P.
#[tactic(auto, unfolding(crate::specs::Inner::Known::form_of))]
pub fn form_of(line: &[u8]) -> Option<Line>
    ensures { result ≡ form_of line.now }
{
    if bytes::byte(line, 0) != b'$' {
        return Some(Line::Text);
    }
    if bytes::byte(line, 1) == b'P' {
        return Some(title::known_heading(line, 3));
    }
    command_in(line)
}

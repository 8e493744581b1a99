// The store's cells: their form, the index of their places, and questions about them.
//
// ask                     one question to a store
// index::build            checks the form of a store and writes down where each cell begins
// question::allowed       whether a question is within its limits
// question::answer        a question over the index of a store
// question::answer_near   the same, first sought near a hint, with where the search ended
#![tactic(auto)]

mod bytes; // bytes.rt: big-endian numbers
mod form; // form.rt: the form of keys and cells
pub mod find; // find.rt: cells by their keys
pub mod question; // question.rt: questions over an index
pub mod request; // request.rt: what an edit is handed
mod value; // value.rt: the parts of a cell
pub mod index; // index.rt: the walk over a store

ghost use Rattle.std.specs.Prelude.{◌≡◌};
ghost use Rattle.cells.specs.Asking.{asked_as, asked_of};

use meaning::end::{Ended, Halt};
use meaning::question::Question;
use meaning::refusal::Refusal;

// The answer to a question. A string is a part of the store: its place and its length.
#[derive(Clone, Copy)]
pub enum Answered {
    Missing,
    Integer(i64),
    Decimal(i64),
    StringAt(usize, usize),
    Highest(u32),
}

// An end and no Result: the line that a refusal names is promised too, 0 for each of them.
#[derive(Clone, Copy)]
pub struct Asked {
    pub end: Ended,
    pub answer: Answered,
}

// The answer to a question, or how the question is refused. 1, then 15
fn answer_of(store: &[u8], len: usize, question: Question) -> Result<Answered, Refusal>
    ensures { asked_as result ≡ asked_of store.now len question }
{
    let mut starts = [0u16; 5461];
    let count = index::build(store, len, &mut starts).ok_or(Refusal::BadStore)?;
    if !question::allowed(question) {
        return Err(Refusal::BadRequest);
    }
    Ok(question::answer(store, &starts, count, question))
}

// "Ask answers one question." 1 and 15 are refused, and answer missing.
#[tactic(auto, unfolding(crate::specs::Asking::asked_as))]
pub fn ask(store: &[u8], len: usize, question: Question) -> Asked
    ensures { result ≡ asked_of store.now len question }
{
    match answer_of(store, len, question) {
        Ok(answer) => Asked {
            end: Ended::Finished,
            answer,
        },
        Err(refusal) => Asked {
            end: Ended::Halted(Halt::Refused(refusal), 0),
            answer: Answered::Missing,
        },
    }
}

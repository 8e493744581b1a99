// Questions: their limits, and their answers over the index of a store.
ghost use Rattle.std.specs.Prelude.{◌≡◌, ◌+◌, ◌<◌, ◌≤◌, true};
ghost use Rattle.cells.specs.Cell.{key_of, key_as_number, key_allowed};
ghost use Rattle.cells.specs.Asking.{question_allowed};
ghost use Rattle.cells.specs.Inner.Tests.{unused_zero};
ghost use Rattle.cells.specs.Inner.Index.{CellAnswer, Highest, Answers, reach_of, offset_of};

use crate::{Answered, find, form, value};
use meaning::question::Question;

// "Unused numbers are 0."
#[tactic(auto, unfolding(crate::specs::Inner::Tests::unused_zero))]
fn unused_zero(question: Question) -> bool
    ensures { result ≡ unused_zero question }
{
    match question.kind {
        1 => true,
        2 => question.record == 0 && question.entry == 0,
        3 => question.entry == 0,
        _ => false,
    }
}

pub fn allowed(question: Question) -> bool
    ensures { result ≡ question_allowed question }
{
    form::within_limits(
        u64::from(question.datasource),
        u64::from(question.parameter),
        u64::from(question.record),
        u64::from(question.entry),
    ) && unused_zero(question)
}

// A key within the limits as one number.
fn number_of(datasource: u32, parameter: u32, record_number: u32, entry: u32) -> u64
    requires { key_allowed (key_of datasource parameter record_number entry) ≡ true }
    ensures { (result ≡ key_as_number (key_of datasource parameter record_number entry)) × (result < 72057594037927936) }
{
    let d = u64::from(datasource) * 65536 + u64::from(parameter);
    (d * 65536 + u64::from(record_number)) * 65536 + u64::from(entry)
}

// An answer, and the position where its search ended: a hint for the next.
#[derive(Clone, Copy)]
pub struct Near {
    pub answer: Answered,
    pub position: usize,
}

// Kind 1: the value of the cell with a key.
fn cell_answer(store: &[u8], starts: &[u16], count: usize, key: u64, hint: usize) -> Near
    ensures { CellAnswer store.now starts.now count key result.answer }
{
    let position = find::near(store, starts, count, key, hint);
    let at = find::place_of(starts, position);
    let answer = if position < count && find::has_key(store, at, key) {
        value::value_at(store, at)
    } else {
        Answered::Missing
    };
    Near { answer, position }
}

// A kind is a number, since C hands in any. The keys of a parameter reach so far for kind 2, those of a record for kind 3.
#[tactic(auto, unfolding(crate::specs::Inner::Index::reach_of))]
fn reach_of(kind: u32) -> u64
    ensures { result ≡ reach_of kind }
{
    if kind == 2 { 4294967296 } else { 65536 }
}

// Where the record number or the entry number stands in a cell.
#[tactic(auto, unfolding(crate::specs::Inner::Index::offset_of))]
fn offset_of(kind: u32) -> usize
    ensures { result ≡ offset_of kind }
{
    if kind == 2 { 4 } else { 6 }
}

// Kinds 2 and 3: the number at an offset in the last of the cells whose keys lie from `low` up to `end`, 0 if there is none.
fn highest(store: &[u8], starts: &[u16], count: usize, low: u64, end: u64, offset: usize) -> u32
    requires { (offset ≤ 6) × (low < 72057594037927936) }
    ensures { Highest store.now starts.now count low end offset result }
{
    let i = find::position(store, starts, count, end);
    if i < 1 {
        return 0;
    }
    let at = find::place_of(starts, i - 1);
    if find::key_and_byte(store, at) < low * 256 {
        return 0;
    }
    value::number_at(store, at, offset)
}

// The answer to a question over the index of a store, first sought near a hint, which may be any number; a question out of
// its limits is answered missing. Kinds 2 and 3 hand the hint back.
pub fn answer_near(
    store: &[u8],
    starts: &[u16],
    count: usize,
    question: Question,
    hint: usize,
) -> Near
    ensures { Answers store.now starts.now count question result.answer }
{
    if !allowed(question) {
        return Near {
            answer: Answered::Missing,
            position: hint,
        };
    }
    let kind = question.kind;
    let key = number_of(
        question.datasource,
        question.parameter,
        question.record,
        question.entry,
    );
    if kind == 1 {
        return cell_answer(store, starts, count, key, hint);
    }
    let end = key + reach_of(kind);
    let offset = offset_of(kind);
    let n = highest(store, starts, count, key, end, offset);
    Near {
        answer: Answered::Highest(n),
        position: hint,
    }
}

// The same without a hint.
pub fn answer(store: &[u8], starts: &[u16], count: usize, question: Question) -> Answered
    ensures { Answers store.now starts.now count question result }
{
    let sought = answer_near(store, starts, count, question, count);
    sought.answer
}

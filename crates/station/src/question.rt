// Questions to a store.
ghost use Rattle.cells.specs.Asking.{asked_of};
ghost use Rattle.station.specs.Answers.{question_of, ToldParts, ToldAnswer};

use crate::edit;
use cells::Answered;
use meaning::question::Question;

// An answer as a kind, with what that kind needs: a value, the place and the length of a string, or a highest number as the
// count. The rest is 0.
pub fn hand_answer(
    answer: Answered,
    kind: &mut u8,
    value: &mut i64,
    place: &mut usize,
    count: &mut usize,
)
    ensures { ToldParts answer kind.new value.new place.new count.new }
{
    *value = 0;
    *place = 0;
    *count = 0;
    match answer {
        Answered::Missing => {
            *kind = 0;
        }
        Answered::Integer(z) => {
            *kind = 0x49;
            *value = z;
        }
        Answered::Decimal(z) => {
            *kind = 0x46;
            *value = z;
        }
        Answered::StringAt(at, n) => {
            *kind = 0x53;
            *place = at;
            *count = n;
        }
        Answered::Highest(n) => {
            *kind = 1;
            *count = n as usize;
        }
    }
}

pub fn station_ask(
    buffer: &[u8],
    length: usize,
    kind: u32,
    datasource: u32,
    parameter: u32,
    item: u32,
    entry: u32,
    answered: &mut u8,
    value: &mut i64,
    place: &mut usize,
    count: &mut usize,
) -> u32
    ensures { ToldAnswer (asked_of buffer.now length (question_of kind datasource parameter item entry)) answered.new value.new place.new count.new result }
{
    let question = Question {
        kind: kind,
        datasource: datasource,
        parameter: parameter,
        record: item,
        entry: entry,
    };
    let asked = cells::ask(buffer, length, question);
    let answer = asked.answer;
    hand_answer(answer, answered, value, place, count);
    let end = asked.end;
    edit::number_of(end)
}

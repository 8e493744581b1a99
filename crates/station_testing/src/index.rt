// The index of a store, and questions over it.
ghost use Rattle.std.specs.Prelude.{◌≡◌};
ghost use Rattle.cells.specs.Store.{cells_held};
ghost use Rattle.station.specs.Answers.{question_of};
ghost use Rattle.station_testing.specs.Index.{listing, listed, ToldLookUp};

use meaning::question::Question;
use station::question;

// The places of the cells, and how many there are; 1 where the store is out of form, 16 where there are too few places.
pub fn station_index(buffer: &[u8], length: usize, starts: &mut [u16], count: &mut usize) -> u32
    ensures { listing result count.new starts.new ≡ listed starts.old count.old (cells_held buffer.now length) }
{
    let mut found = [0u16; 5461];
    let Some(n) = cells::index::build(buffer, length, &mut found) else {
        return 1;
    };
    if starts.len() < n {
        return 16;
    }
    starts[..n].copy_from_slice(&found[..n]);
    *count = n;
    0
}

// A question over the index of a store.
pub fn station_look_up(
    buffer: &[u8],
    starts: &[u16],
    known: usize,
    kind: u32,
    datasource: u32,
    parameter: u32,
    item: u32,
    entry: u32,
    answered: &mut u8,
    value: &mut i64,
    place: &mut usize,
    count: &mut usize,
)
    ensures { ToldLookUp buffer.now starts.now known (question_of kind datasource parameter item entry) answered.new value.new place.new count.new }
{
    let question = Question {
        kind: kind,
        datasource: datasource,
        parameter: parameter,
        record: item,
        entry: entry,
    };
    let answer = cells::question::answer(buffer, starts, known, question);
    question::hand_answer(answer, answered, value, place, count);
}

// The same, first sought near a hint; where the search ended goes to `ended`.
pub fn station_look_up_near(
    buffer: &[u8],
    starts: &[u16],
    known: usize,
    kind: u32,
    datasource: u32,
    parameter: u32,
    item: u32,
    entry: u32,
    hint: usize,
    answered: &mut u8,
    value: &mut i64,
    place: &mut usize,
    count: &mut usize,
    ended: &mut usize,
)
    ensures { ToldLookUp buffer.now starts.now known (question_of kind datasource parameter item entry) answered.new value.new place.new count.new }
{
    let question = Question {
        kind: kind,
        datasource: datasource,
        parameter: parameter,
        record: item,
        entry: entry,
    };
    let sought = cells::question::answer_near(buffer, starts, known, question, hint);
    *ended = sought.position;
    let answer = sought.answer;
    question::hand_answer(answer, answered, value, place, count);
}

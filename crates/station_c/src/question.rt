// Questions to a store.
ghost use Rattle.cells.specs.Asking.{asked_of};
ghost use Rattle.station.specs.Answers.{question_of, ToldAnswer};

#[unsafe(no_mangle)]
pub extern "C" fn station_ask(
    buffer: &[u8],
    length: usize,
    kind: u32,
    datasource: u32,
    parameter: u32,
    item: u32,
    entry: u32,
    answered: &mut u8,
    value: &mut i64,
    place: &mut usize,
    count: &mut usize,
) -> u32
    ensures { ToldAnswer (asked_of buffer.now length (question_of kind datasource parameter item entry)) answered.new value.new place.new count.new result }
{
    station::question::station_ask(
        buffer, length, kind, datasource, parameter, item, entry, answered, value, place, count,
    )
}

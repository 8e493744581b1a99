// Fields, with a number given by its kind's byte.
ghost use Rattle.std.specs.Prelude.{◌≡◌, false, Some, None};
ghost use Rattle.fields.specs.Field.{field_of};
ghost use Rattle.fields.specs.Inner.Putting.{Put};
ghost use Rattle.meaning.specs.Answer as G;
ghost use Rattle.station_testing.specs.Codes.{quantity_of, places_said};

use crate::arithmetic;

#[tactic(auto, unfolding(crate::specs::Codes::places_said))]
fn places_of(said: bool, places: usize) -> Option<usize>
    ensures { result ≡ places_said said places }
{
    said.then_some(places)
}

pub fn station_number_field(
    buffer: &mut [u8],
    at: usize,
    width: usize,
    said: bool,
    places: usize,
    kind: u8,
    n: i64,
) -> bool
    ensures { Put buffer.old at (field_of width (places_said said places) (Some (G.number (quantity_of kind n)))) buffer.new result }
{
    let d = places_of(said, places);
    let q = arithmetic::quantity(kind, n);
    fields::number(buffer, at, width, d, q)
}

pub fn station_string_field(buffer: &mut [u8], at: usize, width: usize, bytes: &[u8]) -> bool
    ensures { Put buffer.old at (field_of width (places_said false 0) (Some (G.string bytes.now))) buffer.new result }
{
    fields::string(buffer, at, width, bytes)
}

pub fn station_missing_field(buffer: &mut [u8], at: usize, width: usize) -> bool
    ensures { Put buffer.old at (field_of width (places_said false 0) None) buffer.new result }
{
    fields::missing(buffer, at, width)
}

// A value in the w bytes of a field, as document 01 says under "Fields".
//
// number: right-aligned and rounded, or asterisks. string: left-aligned, filled or cut. missing: `???`, like a string.
// Each answers whether the field was put. Where the width, the places or the number is out of its limits, or the
// buffer has no room for the field, nothing is written.
#![tactic(auto)]

mod digits; // digits.rt: decimal digits
mod text; // text.rt: a number's characters

ghost use Rattle.std.specs.Prelude.{◌≡◌, Option, Some, None};
ghost use Rattle.fields.specs.Field.{places_of, negative, width_allowed, field_of};
ghost use Rattle.fields.specs.Inner.Putting.{Put};
ghost use Rattle.meaning.specs.Answer as G;

use numbers::Quantity;

#[tactic(auto, unfolding(crate::specs::Field::places_of))]
fn places_of(places: Option<usize>, q: Quantity) -> usize
    ensures { result ≡ places_of places q }
{
    match (places, q) {
        (Some(d), _) => d,
        (None, Quantity::Integer(_)) => 0,
        (None, Quantity::Decimal(_)) => 6,
    }
}

#[tactic(auto, unfolding(crate::specs::Field::negative))]
fn below_zero(q: Quantity) -> bool
    ensures { result ≡ negative q }
{
    match q {
        Quantity::Integer(n) => numbers::sign::negative(n),
        Quantity::Decimal(m) => numbers::sign::negative(m),
    }
}

#[tactic(auto, unfolding(crate::specs::Field::width_allowed))]
fn width_allowed(width: usize) -> bool
    ensures { result ≡ width_allowed width }
{
    (1..=32).contains(&width)
}

#[tactic(auto, using(buffers::proofs::Laws::room_fits, numbers::proofs::Laws::given, crate::proofs::FieldLaws::length_right), unfolding(crate::specs::Field::field_of, crate::specs::Field::shown, crate::specs::Field::rounded_field, crate::specs::Inner::Putting::field_fits, crate::specs::Inner::Putting::buffer_with, buffers::specs::Buffer::stored))]
pub fn number(
    buffer: &mut [u8],
    at: usize,
    width: usize,
    places: Option<usize>,
    q: Quantity,
) -> bool
    ensures { Put buffer.old at (field_of width places (Some (G.number q))) buffer.new result }
{
    if !width_allowed(width) {
        return false;
    }
    let d = places_of(places, q);
    let Some(u) = numbers::places::rounded(q, d) else {
        return false;
    };
    if !buffers::has_room(buffer, at, width) {
        return false;
    }
    text::put_units(buffer, at, width, d, below_zero(q), u);
    true
}

#[tactic(auto, using(buffers::proofs::Laws::room_fits, crate::proofs::FieldLaws::length_left), unfolding(crate::specs::Field::field_of, crate::specs::Field::shown, crate::specs::Inner::Putting::field_fits, crate::specs::Inner::Putting::buffer_with, buffers::specs::Buffer::stored))]
pub fn string(buffer: &mut [u8], at: usize, width: usize, bytes: &[u8]) -> bool
    ensures { Put buffer.old at (field_of width None (Some (G.string bytes.now))) buffer.new result }
{
    if !width_allowed(width) || !buffers::has_room(buffer, at, width) {
        return false;
    }
    text::put_string(buffer, at, width, bytes);
    true
}

#[tactic(auto, unfolding(crate::specs::Field::field_of, crate::specs::Field::shown))]
pub fn missing(buffer: &mut [u8], at: usize, width: usize) -> bool
    ensures { Put buffer.old at (field_of width None None) buffer.new result }
{
    string(buffer, at, width, b"???")
}

// One byte of a text, or a field.
ghost use Rattle.std.specs.Prelude.{◌≡◌};
ghost use Rattle.buffers.specs.Buffer.{Stored};
ghost use Rattle.form_codes.specs.Piece.{places_codes, field_row, piece_row, read_row, piece_numbers};

use crate::row::{CodeRow, Pair, Seven};
use crate::{argument, row};
use texts::text;
use texts::text::{Field, Piece};

fn places_codes(places: Option<usize>) -> Pair
    ensures { result ≡ places_codes places }
{
    match places {
        None => Pair(0, 0),
        Some(d) => Pair(1, d as u64),
    }
}

fn field_row(field: Field, next: usize) -> CodeRow
    ensures { result ≡ field_row field next }
{
    let argument = field.argument;
    let places = field.places;
    let a = argument::argument_codes(argument);
    let d = places_codes(places);
    CodeRow(
        2,
        next as u64,
        a,
        Seven(field.width as u64, d.0, d.1, 0, 0, 0, 0),
    )
}

fn piece_row(piece: Piece, next: usize) -> CodeRow
    ensures { result ≡ piece_row piece next }
{
    match piece {
        Piece::Byte(b) => row::row_with(1, next as u64, Seven(b as u64, 0, 0, 0, 0, 0, 0)),
        Piece::Placed(field) => field_row(field, next),
    }
}

fn read_row(read: Option<(Piece, usize)>) -> CodeRow
    ensures { result ≡ read_row read }
{
    match read {
        None => row::bare_row(0, 0),
        Some((piece, next)) => piece_row(piece, next),
    }
}

pub fn write_piece(line: &[u8], at: usize, numbers: &mut [u64]) -> bool
    ensures { Stored numbers.old 0 (piece_numbers line.now at) numbers.new result }
{
    let read = text::piece_at(line, at);
    row::put_row(numbers, read_row(read))
}

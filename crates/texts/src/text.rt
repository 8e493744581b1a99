// The fields of texts and headings.
ghost use Rattle.std.specs.Prelude.{◌≡◌};
ghost use Rattle.texts.specs.Width.{width_of};
ghost use Rattle.texts.specs.Readers.Text.{places_at, field_at, piece_at, text_fits};
ghost use Rattle.texts.specs.Inner.Plain.{plain_run};

use arguments::argument;
use arguments::argument::Argument;
use scan::run::Class;
use scan::{bytes, digits, run};

#[derive(Clone, Copy)]
pub struct Field {
    pub argument: Argument,
    pub width: usize,
    pub places: Option<usize>,
}

#[derive(Clone, Copy)]
pub enum Piece {
    Byte(u8),
    Placed(Field),
}

// What stands behind a field's width, with the closing brace.
#[tactic(auto, unfolding(crate::specs::Readers::Text::places_at))]
pub fn places_at(line: &[u8], at: usize) -> Option<(Option<usize>, usize)>
    ensures { result ≡ places_at line.now at }
{
    match bytes::byte(line, at) {
        b'}' => Some((None, at + 1)),
        b'.' => {
            let d = digits::digits_at(line, at + 1, 1);
            if d.count == 0 || d.value > 6 || bytes::byte(line, at + 2) != b'}' {
                return None;
            }
            Some((Some(d.value), at + 3))
        }
        _ => None,
    }
}

// A field behind its opening brace.
#[tactic(auto, unfolding(crate::specs::Readers::Text::field_at, crate::specs::Readers::Text::field_of, crate::specs::Readers::Text::width_next, crate::specs::Readers::Text::places_of))]
pub fn field_at(line: &[u8], at: usize) -> Option<(Field, usize)>
    ensures { result ≡ field_at line.now at }
{
    let (argument, next) = argument::argument_at(line, at)?;
    if bytes::byte(line, next) != b',' {
        return None;
    }
    let (width, after) = digits::number_at(line, next + 1, 32)?;
    let (places, end) = places_at(line, after)?;
    Some((
        Field {
            argument,
            width,
            places,
        },
        end,
    ))
}

// Its answer goes through memory where it isn't inlined, once for every byte of a text.
#[inline(always)]
#[tactic(auto, unfolding(crate::specs::Readers::Text::piece_at, crate::specs::Readers::Text::placed))]
pub fn piece_at(line: &[u8], at: usize) -> Option<(Piece, usize)>
    ensures { result ≡ piece_at line.now at }
{
    if line.len() <= at {
        return None;
    }
    match bytes::byte(line, at) {
        b'{' => {
            let (field, next) = field_at(line, at + 1)?;
            Some((Piece::Placed(field), next))
        }
        b'}' => None,
        b => Some((Piece::Byte(b), at + 1)),
    }
}

// The bytes from a place on up to the next brace, each of which is a piece.
#[tactic(auto, using(scan::proofs::RunLaws::take_span), unfolding(crate::specs::Inner::Plain::plain_run))]
pub fn plain_run<'a>(line: &'a [u8], at: usize) -> &'a [u8]
    ensures { result.now ≡ plain_run line.now at }
{
    let rest = bytes::rest(line, at);
    let length = run::count(rest, Class::Unbraced);
    &rest[..length]
}

#[tactic(auto, unfolding(crate::specs::Width::width_of))]
fn width_of(piece: Piece) -> usize
    ensures { result ≡ width_of piece }
{
    match piece {
        Piece::Byte(_) => 1,
        Piece::Placed(field) => field.width,
    }
}

// "With fields at width w a line, command word included, has at most 132 bytes": the text starts at `from`.
pub fn text_fits(line: &[u8], from: usize) -> bool
    ensures { result ≡ text_fits line.now from }
{
    if 132 < from {
        return false;
    }
    let mut at = from;
    let mut width = from;
    // A while, since a piece is of any length: no iterator goes over pieces, which are read one behind the other.
    while at < line.len() {
        let Some((piece, next)) = piece_at(line, at) else {
            return false;
        };
        let w = width_of(piece);
        if 132 - width < w {
            return false;
        }
        width += w;
        at = next;
    }
    true
}

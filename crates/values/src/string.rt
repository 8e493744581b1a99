// Strings: a part of the line, of the store, or of the row of a string variable.
ghost use Rattle.std.specs.Prelude.{◌≡◌, cond, ◌≤◌, length, take, drop};
ghost use Rattle.values.specs.Letters as L;
ghost use Rattle.values.specs.Letters.{equal_strings};
ghost use Rattle.values.specs.Inner.Texts.{cased, text_of, Sized};
ghost use Rattle.values.specs.Inner.Texts as S;

use scan::bytes;

// "A string argument lies in the template, in a cell or in an SV."
#[derive(Clone, Copy)]
pub enum Source {
    Line,
    Store,
    Variable(usize),
}

// So many bytes of it, in upper case or as they are.
#[derive(Clone, Copy)]
pub struct Text {
    pub source: Source,
    pub at: usize,
    pub count: usize,
    pub upper: bool,
}

// A part of either the line, which is a part of the lent template, or the lent store.
pub fn part<'a>(line: &'a [u8], store: &'a [u8], stored: bool, at: usize, count: usize) -> &'a [u8]
    ensures { result.now ≡ take count (drop at (cond stored store.now line.now)) }
{
    bytes::part(if stored { store } else { line }, at, count)
}

// The 16 bytes of a string variable.
#[tactic(auto, unfolding(crate::specs::Inner::Texts::row_of))]
fn row_of(strings: &[[u8; 16]; 99], n: usize) -> [u8; 16]
    ensures { result ≡ S.row_of strings.now n }
{
    match n {
        1..=99 => strings[n - 1],
        _ => [0; 16],
    }
}

#[tactic(auto, unfolding(crate::specs::Inner::Texts::row_for))]
pub fn row_for(strings: &[[u8; 16]; 99], source: Source) -> [u8; 16]
    ensures { result ≡ S.row_for strings.now source }
{
    match source {
        Source::Line | Source::Store => [0; 16],
        Source::Variable(n) => row_of(strings, n),
    }
}

// The bytes of a text as they lie there; `row` is the row of the variable, where it lies in one.
pub fn bytes_of<'a>(line: &'a [u8], store: &'a [u8], row: &'a [u8], text: Text) -> &'a [u8]
    ensures { result.now ≡ take text.count (drop text.at (S.chosen line.now store.now row.now text.source)) }
{
    match text.source {
        Source::Line => part(line, store, false, text.at, text.count),
        Source::Store => part(line, store, true, text.at, text.count),
        Source::Variable(_) => bytes::part(row, text.at, text.count),
    }
}

pub fn length_of<'a>(line: &'a [u8], store: &'a [u8], strings: &[[u8; 16]; 99], text: Text) -> usize
    requires { Sized line.now store.now }
    ensures { (result ≡ length (text_of (S.strings line.now store.now strings.now) text)) × (result ≤ 65536) }
{
    let row = row_for(strings, text.source);
    bytes_of(line, store, &row, text).len()
}

#[tactic(auto, unfolding(crate::specs::Letters::upper))]
pub fn upper(b: u8) -> u8
    ensures { result ≡ L.upper b }
{
    b.to_ascii_uppercase()
}

// A byte, in upper case where the flag is set.
pub fn letter(raised: bool, b: u8) -> u8
    ensures { result ≡ L.letter raised b }
{
    if raised { upper(b) } else { b }
}

fn same_bytes(a: &[u8], a_upper: bool, b: &[u8], b_upper: bool, ignoring: bool) -> bool
    ensures { result ≡ equal_strings ignoring (cased a_upper a.now) (cased b_upper b.now) }
{
    for (&x, &y) in a.iter().zip(b) {
        if letter(ignoring, letter(a_upper, x)) != letter(ignoring, letter(b_upper, y)) {
            return false;
        }
    }
    true
}

// "two strings, up to the shorter length; SI ignores ASCII case"
#[tactic(auto, using(crate::proofs::Texts::text_is))]
pub fn same<'a>(
    line: &'a [u8],
    store: &'a [u8],
    strings: &[[u8; 16]; 99],
    p: Text,
    q: Text,
    ignoring: bool,
) -> bool
    ensures { result ≡ equal_strings ignoring (text_of (S.strings line.now store.now strings.now) p) (text_of (S.strings line.now store.now strings.now) q) }
{
    let row = row_for(strings, p.source);
    let other = row_for(strings, q.source);
    let a = bytes_of(line, store, &row, p);
    let b = bytes_of(line, store, &other, q);
    same_bytes(a, p.upper, b, q.upper, ignoring)
}

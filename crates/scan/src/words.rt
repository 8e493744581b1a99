// Fixed byte strings in a line.
ghost use Rattle.std.specs.Prelude.{◌≡◌, ◌≤◌, ◌-◌, IsTrue, length, map};
ghost use Rattle.scan.specs.Words.{stands_at};
ghost use Rattle.scan.specs.Inner.Tables.{word_at, word_else};

use crate::bytes;

// Whether the word stands in the line at a place.
#[tactic(auto, using(crate::proofs::WordLaws::begins_front), unfolding(crate::specs::Words::stands_at))]
pub fn begins_with(line: &[u8], at: usize, word: &[u8]) -> bool
    ensures value { result ≡ stands_at word.now line.now at }
    ensures inside { IsTrue result → length word.now ≤ length line.now - at }
{
    bytes::rest(line, at).starts_with(word)
}

// What the word is for and the place behind it, where it stands in the line at a place; else what another search gave.
pub fn word_or<T: Copy>(
    line: &[u8],
    at: usize,
    word: &[u8],
    kind: T,
    other: Option<(T, usize)>,
) -> Option<(T, usize)>
    ensures { result ≡ word_else word.now line.now at kind other }
{
    if begins_with(line, at, word) {
        return Some((kind, at + word.len()));
    }
    other
}

// The first of some words that stands in the line at a place: what it is for, and the place behind it.
pub fn word_at<T: Copy>(line: &[u8], at: usize, words: &[(&[u8], T)]) -> Option<(T, usize)>
    ensures { result ≡ word_at (map (λ e. (e.0.now, e.1)) words.now) line.now at }
{
    for entry in words {
        let found = word_or(line, at, entry.0, entry.1, None);
        if found.is_some() {
            return found;
        }
    }
    None
}

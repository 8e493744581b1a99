// Headings: each of nine is kept as one number.
ghost use Rattle.std.specs.Prelude.{◌≡◌, get_or};
ghost use Rattle.values.specs.Inner.State.{headings_in};
ghost use Rattle.pages.specs.Heading.{no_heading};
ghost use Rattle.pages.specs.Inner.Packed.{Small, heading_in, headings_of};

use values::registers;
use values::registers::Words;

// A line that is due on a page: the $PH line that defined a heading, or a text line. Where it starts in the template, how long it
// is, where its text starts in it, and its number; 0 for a heading that is undefined.
#[derive(Clone, Copy)]
pub struct Heading {
    pub start: usize,
    pub length: usize,
    pub from: usize,
    pub number: u32,
}

pub fn packed(heading: Heading) -> u64
    requires { Small heading }
    ensures { heading_in result ≡ heading }
{
    let line = heading.start as u64 * 256 + heading.length as u64;
    (line * 256 + heading.from as u64) * 65536 + heading.number as u64
}

#[tactic(auto, unfolding(crate::specs::Inner::Packed::heading_in))]
fn unpacked(word: u64) -> Heading
    ensures { result ≡ heading_in word }
{
    Heading {
        start: (word / 4294967296) as usize,
        length: (word / 16777216 % 256) as usize,
        from: (word / 65536 % 256) as usize,
        number: (word % 65536) as u32,
    }
}

// Heading k, counted from 0; an undefined one behind the last.
pub fn heading_at(words: &Words, k: usize) -> Heading
    ensures { result ≡ get_or (headings_of (headings_in words.now)) k no_heading }
{
    if k < 9 {
        let word = registers::heading_word(words, k + 1);
        return unpacked(word);
    }
    Heading {
        start: 0,
        length: 0,
        from: 0,
        number: 0,
    }
}

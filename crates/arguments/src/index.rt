// Indexes in a line.
ghost use Rattle.std.specs.Prelude.{◌≡◌};
ghost use Rattle.arguments.specs.Readers.Index.{index_at};

use scan::{digits, words};

#[derive(Clone, Copy)]
pub enum Index {
    // 1–3 digits
    Fixed(usize),
    // IVn
    Variable(usize),
    // LOOP
    Loop,
}

// "An index .. is 1–3 digits, IVn or LOOP"
#[tactic(auto, unfolding(crate::specs::Readers::Index::index_at, crate::specs::Readers::Index::variable_index))]
pub fn index_at(line: &[u8], at: usize) -> Option<(Index, usize)>
    ensures { result ≡ index_at line.now at }
{
    let digits = digits::digits_at(line, at, 3);
    if digits.count > 0 {
        return Some((Index::Fixed(digits.value), at + digits.count));
    }
    if words::begins_with(line, at, b"LOOP") {
        return Some((Index::Loop, at + 4));
    }
    if words::begins_with(line, at, b"IV") {
        let (n, next) = digits::number_at(line, at + 2, 99)?;
        return Some((Index::Variable(n), next));
    }
    None
}

// "word, then arguments, one space before each"
ghost use Rattle.std.specs.Prelude.{◌≡◌};
ghost use Rattle.lines.specs.Readers.Behind.{behind_space};

use scan::bytes;

// Where an argument starts: behind a space. Where there is none, the line's end, at which no argument starts.
#[tactic(auto, unfolding(crate::specs::Readers::Behind::behind_space))]
pub fn behind_space(line: &[u8], at: usize) -> usize
    ensures { result ≡ behind_space line.now at }
{
    if bytes::byte(line, at) != b' ' {
        return line.len();
    }
    at + 1
}

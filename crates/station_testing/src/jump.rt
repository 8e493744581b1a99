// Where a failed test, an executed $ELSE and a skipped table go on.
ghost use Rattle.std.specs.Prelude.{◌≡◌};
ghost use Rattle.template.specs.Seek.{skipped};
ghost use Rattle.station_testing.specs.Jumps.{sought_of, ToldSkip};

use template::seek::Sought;

#[tactic(auto, unfolding(crate::specs::Jumps::sought_of))]
fn sought_of(code: u32) -> Sought
    ensures { result ≡ sought_of code }
{
    match code {
        0 => Sought::Branch,
        1 => Sought::TestEnd,
        _ => Sought::TableEnd,
    }
}

// How many bytes and lines of a part of a template are passed over.
pub fn station_skip(rest: &[u8], code: u32, bytes: &mut usize, lines: &mut u32)
    ensures { ToldSkip (skipped rest.now (sought_of code)) bytes.new lines.new }
{
    let sought = sought_of(code);
    let skip = template::seek::skip_lines(rest, sought);
    *bytes = skip.bytes;
    *lines = skip.lines;
}

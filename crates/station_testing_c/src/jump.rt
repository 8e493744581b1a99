// Where a failed test, an executed $ELSE and a skipped table go on.
ghost use Rattle.template.specs.Seek.{skipped};
ghost use Rattle.station_testing.specs.Jumps.{sought_of, ToldSkip};

// How many bytes and lines of a part of a template are passed over.
#[unsafe(no_mangle)]
pub extern "C" fn station_skip(rest: &[u8], code: u32, bytes: &mut usize, lines: &mut u32)
    ensures { ToldSkip (skipped rest.now (sought_of code)) bytes.new lines.new }
{
    station_testing::jump::station_skip(rest, code, bytes, lines);
}

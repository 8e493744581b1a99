// Puts and removes.
ghost use Rattle.std.specs.Prelude.{◌≡◌};
ghost use Rattle.meaning.specs.Number.{number_of, end_of};
ghost use Rattle.store.specs.Edit.{put_of, remove_of};
ghost use Rattle.station.specs.Answers.{ToldEdit};

use meaning::end::Ended;

// The number of an end, as wide as the calls have it.
pub fn number_of(end: Ended) -> u32
    ensures { result ≡ number_of (end_of (tt {0}) end) }
{
    end.number() as u32
}

pub fn station_put(buffer: &mut [u8], length: usize, cell: &[u8], left: &mut usize) -> u32
    ensures { ToldEdit (put_of buffer.old length cell.now) buffer.new left.new result }
{
    let edited = store::put(buffer, length, cell);
    *left = edited.length;
    let end = edited.end;
    number_of(end)
}

pub fn station_remove(buffer: &mut [u8], length: usize, key: &[u8], left: &mut usize) -> u32
    ensures { ToldEdit (remove_of buffer.old length key.now) buffer.new left.new result }
{
    let edited = store::remove(buffer, length, key);
    *left = edited.length;
    let end = edited.end;
    number_of(end)
}

// Puts and removes.
ghost use Rattle.store.specs.Edit.{put_of, remove_of};
ghost use Rattle.station.specs.Answers.{ToldEdit};

#[unsafe(no_mangle)]
pub extern "C" fn station_put(
    buffer: &mut [u8],
    length: usize,
    cell: &[u8],
    left: &mut usize,
) -> u32
    ensures { ToldEdit (put_of buffer.old length cell.now) buffer.new left.new result }
{
    station::edit::station_put(buffer, length, cell, left)
}

#[unsafe(no_mangle)]
pub extern "C" fn station_remove(
    buffer: &mut [u8],
    length: usize,
    key: &[u8],
    left: &mut usize,
) -> u32
    ensures { ToldEdit (remove_of buffer.old length key.now) buffer.new left.new result }
{
    station::edit::station_remove(buffer, length, key, left)
}

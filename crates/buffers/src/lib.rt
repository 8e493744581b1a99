// Writes to a lent buffer: all of a stretch or none of it, and every other byte as it was.
//
// write: bytes at a place. fill: one byte, some times over. shift: a stretch to another place.
// Each answers whether there was room; where there was none the buffer is untouched.
#![tactic(auto)]

ghost use Rattle.std.specs.Prelude.{◌≡◌, replicate};
ghost use Rattle.buffers.specs.Buffer.{has_room, Stored, Shifted};

// Whether `count` bytes at `at` lie in the buffer. `at + count` could overflow.
pub fn has_room(buffer: &[u8], at: usize, count: usize) -> bool
    ensures { result ≡ has_room buffer.now at count }
{
    at <= buffer.len() && count <= buffer.len() - at
}

// A loop and no `copy_from_slice`, for which whoever links the calls for tests would have to supply a memmove.
#[tactic(auto, using(crate::proofs::Laws::room_fits))]
pub fn write(buffer: &mut [u8], at: usize, bytes: &[u8]) -> bool
    ensures { Stored buffer.old at bytes.now buffer.new result }
{
    if !has_room(buffer, at, bytes.len()) {
        return false;
    }
    for (i, &byte) in bytes.iter().enumerate() {
        buffer[at + i] = byte;
    }
    true
}

#[tactic(auto, using(crate::proofs::Laws::room_fits))]
pub fn fill(buffer: &mut [u8], at: usize, count: usize, byte: u8) -> bool
    ensures { Stored buffer.old at (replicate count byte) buffer.new result }
{
    if !has_room(buffer, at, count) {
        return false;
    }
    buffer[at..at + count].fill(byte);
    true
}

#[tactic(auto, using(crate::proofs::Laws::room_fits))]
pub fn shift(buffer: &mut [u8], from: usize, to: usize, count: usize) -> bool
    ensures { Shifted buffer.old from to count buffer.new result }
{
    if !has_room(buffer, from, count) || !has_room(buffer, to, count) {
        return false;
    }
    buffer.copy_within(from..from + count, to);
    true
}

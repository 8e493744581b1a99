// One stretch of the store in place of another, with the bytes behind it moved once.
ghost use Rattle.std.specs.Prelude.{◌≡◌, ◌+◌, ◌-◌, ◌≤◌, length};
ghost use Rattle.store.specs.Inner.Slot.{replaced};

// Of a store of `len` bytes, `size` bytes at a place give way to others; what it is shorter by becomes zero.
pub fn replace(store: &mut [u8], len: usize, at: usize, size: usize, bytes: &[u8])
    requires { (at + size ≤ len) × (len ≤ length store.old) × (at + length bytes.now + (len - (at + size)) ≤ length store.old) }
    ensures { store.new ≡ replaced store.old len at size bytes.now }
{
    let from = at + size;
    let tail = len - from;
    let to = at + bytes.len();
    buffers::shift(store, from, to, tail);
    buffers::write(store, at, bytes);
    let end = to + tail;
    buffers::fill(store, end, len.saturating_sub(end), 0);
}

// The walk over a store: the form of every cell, and where each begins.
ghost use Rattle.std.specs.Prelude.{◌≡◌, ◌+◌, ◌<◌, ◌≤◌, length, slice_set};
ghost use Rattle.cells.specs.Store.{cells, cells_held};
ghost use Rattle.cells.specs.Inner.Index.{Indexes};

use crate::{bytes, form};

// Writes down a place, where the list has room for it.
// An index is tested: the proof of a `get_mut` didn't close.
fn note(starts: &mut [u16], count: usize, at: usize)
    requires { at < 65536 }
    ensures { starts.new ≡ slice_set starts.old count at }
{
    if count < starts.len() {
        starts[count] = at as u16;
    }
}

fn walk(run: &[u8], starts: &mut [u16]) -> Option<usize>
    requires { length run.now ≤ 65536 }
    ensures { Indexes starts.old (cells run.now) starts.new result }
{
    let mut at = 0;
    let mut count = 0;
    let mut least: u64 = 0;
    // Each cell's own bytes say where the next begins: no iterator of slices steps so.
    while at < run.len() {
        let rest = &run[at..];
        let size = form::cell_size(rest)?;
        let key = bytes::key_number(rest, 1);
        if key < least {
            return None;
        }
        note(starts, count, at);
        least = key + 1;
        at += size;
        count += 1;
    }
    Some(count)
}

// Checks the form of a store, a buffer and a length, and writes down where each cell begins.
pub fn build(store: &[u8], len: usize, starts: &mut [u16]) -> Option<usize>
    ensures { Indexes starts.old (cells_held store.now len) starts.new result }
{
    if store.len() < len || 65536 < len {
        return None;
    }
    walk(&store[0..len], starts)
}

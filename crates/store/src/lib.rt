// Puts and removes, in a lent store: a buffer and a length.
//
// put       adds or replaces the cell of a key
// remove    takes the cell of a key out
#![tactic(auto)]

mod replace; // replace.rt: one stretch of the store in place of another

ghost use Rattle.std.specs.Prelude.{◌≡◌};
ghost use Rattle.store.specs.Edit.{put_of, remove_of, edit, edited_as};
ghost use Rattle.store.specs.Inner.Slot.{SlotOf};

use cells::{find, index, request};
use meaning::end::{Ended, Halt};
use meaning::refusal::Refusal;

// "0 to 65,536 bytes"
const LONGEST_STORE: usize = 65_536;

// How an edit ended, and the store's length after it.
// An end and no Result: a refusal hands the old length back, and the line that it names is promised too, 0.
#[derive(Clone, Copy)]
pub struct Edited {
    pub length: usize,
    pub end: Ended,
}

// Where the cell of a key is or belongs, and its size if it is there.
#[derive(Clone, Copy)]
pub struct Slot {
    pub at: usize,
    pub size: Option<usize>,
}

fn locate(store: &[u8], len: usize, starts: &[u16], count: usize, key: u64) -> Slot
    ensures { SlotOf store.now len starts.now count key result }
{
    let i = find::position(store, starts, count, key);
    if count <= i {
        return Slot {
            at: len,
            size: None,
        };
    }
    let at = find::place_of(starts, i);
    if find::has_key(store, at, key) {
        let size = find::size_at(store, at);
        return Slot {
            at,
            size: Some(size),
        };
    }
    Slot { at, size: None }
}

// What an edit of a store with a length hands back: the new length, or how it is refused. "hand back the old length"
#[tactic(auto, unfolding(crate::specs::Edit::edited_as))]
fn edited_as(len: usize, outcome: Result<usize, Refusal>) -> Edited
    ensures { result ≡ edited_as len outcome }
{
    match outcome {
        Ok(length) => Edited {
            length,
            end: Ended::Finished,
        },
        Err(refusal) => Edited {
            length: len,
            end: Ended::Halted(Halt::Refused(refusal), 0),
        },
    }
}

// The store's length after a put; where it is refused, the store stays.
fn put_cell(store: &mut [u8], len: usize, cell: &[u8]) -> Result<usize, Refusal>
    ensures { edit (edited_as len result) store.new ≡ put_of store.old len cell.now }
{
    let mut starts = [0u16; 5461];
    let count = index::build(store, len, &mut starts).ok_or(Refusal::BadStore)?;
    let key = request::cell_request(cell).ok_or(Refusal::BadRequest)?;
    let found = locate(store, len, &starts, count, key);
    let size = found.size.unwrap_or(0);
    let end = len - size + cell.len();
    let room = store.len().min(LONGEST_STORE);
    if room < end {
        return Err(Refusal::StoreFull);
    }
    replace::replace(store, len, found.at, size, cell);
    Ok(end)
}

// The store's length after a remove; where it is refused, the store stays.
fn remove_key(store: &mut [u8], len: usize, key: &[u8]) -> Result<usize, Refusal>
    ensures { edit (edited_as len result) store.new ≡ remove_of store.old len key.now }
{
    let mut starts = [0u16; 5461];
    let count = index::build(store, len, &mut starts).ok_or(Refusal::BadStore)?;
    let number = request::key_request(key).ok_or(Refusal::BadRequest)?;
    let found = locate(store, len, &starts, count, number);
    let size = found.size.ok_or(Refusal::NoCell)?;
    replace::replace(store, len, found.at, size, b"");
    Ok(len - size)
}

// 1, 15 and 16 are refused: the store stays, with its length.
pub fn put(store: &mut [u8], len: usize, cell: &[u8]) -> Edited
    ensures { edit result store.new ≡ put_of store.old len cell.now }
{
    let outcome = put_cell(store, len, cell);
    edited_as(len, outcome)
}

// 1, 15 and 17 are refused: the store stays, with its length.
pub fn remove(store: &mut [u8], len: usize, key: &[u8]) -> Edited
    ensures { edit result store.new ≡ remove_of store.old len key.now }
{
    let outcome = remove_key(store, len, key);
    edited_as(len, outcome)
}

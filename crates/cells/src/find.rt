// Cells by their keys, over the index of a store.
ghost use Rattle.std.specs.Prelude.{◌≡◌, ◌+◌, ◌/◌, ◌<◌, ◌≤◌, length, ◌==◌, slice_index};
ghost use Rattle.cells.specs.Cell.{key_as_number, key_at};
ghost use Rattle.cells.specs.Inner.Index.{Position, LowerAt, SizeAt, below_of, bound_of};

use crate::bytes;
use crate::form::ValueKind;

// So many keys have 7 bytes: 2^56.
const KEYS: u64 = 72057594037927936;

// More than any key within the limits: 2^54.
const KEYS_ALLOWED: u64 = 18014398509481984;

// 2^63
const HIGHEST_BIT: u64 = 9223372036854775808;

// Where the i-th cell begins; 0 past the index.
pub fn place_of(starts: &[u16], i: usize) -> usize
    ensures { result ≡ slice_index starts.now i }
{
    match starts.get(i) {
        Some(&place) => usize::from(place),
        None => 0,
    }
}

// The key of the cell at a place with the byte behind it, as one number: eight bytes are one load, seven are not. 0 where
// the store has no room.
pub fn key_and_byte(store: &[u8], at: usize) -> u64
    ensures { at + 9 ≤ length store.now → result / 256 ≡ key_as_number (key_at store.now (at + 1)) }
{
    if store.len() < 9 || store.len() - 9 < at {
        return 0;
    }
    bytes::octet(store, at + 1)
}

// Whether the cell at a place has a key. It compares, for the reason at `lower_at`.
pub fn has_key(store: &[u8], at: usize, key: u64) -> bool
    ensures { at + 9 ≤ length store.now → result ≡ (key_as_number (key_at store.now (at + 1)) == key) }
{
    let found = key_and_byte(store, at);
    key < KEYS && (key * 256..=key * 256 + 255).contains(&found)
}

// 1 where a number is below another, else 0, for numbers below 2^63. It has no branch, which a search would mostly
// mispredict.
fn below(a: u64, b: u64) -> usize
    ensures { (result ≤ 1) × (a < 9223372036854775808 → b < 9223372036854775808 → result ≡ below_of a b) }
{
    (std::num::wrapping_sub_u64(a, b) / HIGHEST_BIT) as usize
}

// What a key with the byte behind it is compared with.
#[tactic(auto, unfolding(crate::specs::Inner::Index::bound_of))]
fn bound_of(key: u64) -> u64
    ensures { result ≡ bound_of key }
{
    key.min(KEYS_ALLOWED) * 256
}

// The first cell whose key is not below a number, by halving; the count where there is none. It steps by `below`, and not by the
// library's `partition_point`, so that no step branches on a key.
pub fn position(store: &[u8], starts: &[u16], count: usize, key: u64) -> usize
    ensures { Position store.now starts.now count key result }
{
    if starts.len() < count {
        return 0;
    }
    let bound = bound_of(key);
    let mut low = 0;
    let mut size = count;
    while 0 < size {
        let half = size - size / 2;
        let at = usize::from(starts[low + half - 1]);
        low += half * below(key_and_byte(store, at), bound);
        size -= half;
    }
    low
}

// 1 where the key of the i-th cell is below the one that a bound was made of, else 0. It compares, since a difference whose
// lowest byte nobody asks for would be read in seven loads.
fn lower_at(store: &[u8], starts: &[u16], bound: u64, i: usize) -> usize
    requires { i < length starts.now }
    ensures { LowerAt store.now starts.now bound i result }
{
    let at = usize::from(starts[i]);
    if key_and_byte(store, at) < bound {
        return 1;
    }
    0
}

// The same position, tried first at a hint, which may be any number, and right behind it. The key at the hint rules one of
// the two out, and the key on the other side tells whether it is the other one, without a branch on either key alone.
pub fn near(store: &[u8], starts: &[u16], count: usize, key: u64, hint: usize) -> usize
    ensures { Position store.now starts.now count key result }
{
    if starts.len() < count {
        return 0;
    }
    if count <= hint {
        return position(store, starts, count, key);
    }
    let bound = bound_of(key);
    let lower = lower_at(store, starts, bound, hint);
    let i = hint + lower;
    if i < 1 {
        return 0;
    }
    let other = i + lower - 1;
    if count <= other {
        return i;
    }
    if lower_at(store, starts, bound, other) + lower == 1 {
        return i;
    }
    position(store, starts, count, key)
}

// How many bytes the cell at a place has; 0 past the store.
pub fn size_at(store: &[u8], at: usize) -> usize
    ensures { SizeAt store.now at result }
{
    match ValueKind::at(store, at) {
        Some(kind) => kind.size(),
        None => 0,
    }
}

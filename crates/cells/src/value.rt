// The parts of a cell at a place of the store, as answers.
ghost use Rattle.std.specs.Prelude.{◌≡◌, ◌+◌, ◌<◌, ◌≤◌, length};
ghost use Rattle.cells.specs.Bytes.{pair_at, from_complement};
ghost use Rattle.cells.specs.Inner.Index.{ValueAt};

use crate::form::ValueKind;
use crate::{Answered, bytes};

// The value of 32 bits in two's complement.
pub fn signed_quad(n: u64) -> i64
    requires { n < 4294967296 }
    ensures { result ≡ from_complement 4294967296 n }
{
    i64::from((n as u32).cast_signed())
}

// The value of 64 bits in two's complement.
pub fn signed_octet(n: u64) -> i64
    ensures { result ≡ from_complement 18446744073709551616 n }
{
    n.cast_signed()
}

// The two bytes at an offset of at most 6 in the cell at a place; 0 where the store has no room for one.
pub fn number_at(store: &[u8], at: usize, offset: usize) -> u32
    requires { offset ≤ 6 }
    ensures { at + 8 ≤ length store.now → result ≡ pair_at store.now (at + offset) }
{
    if store.len() < 8 || store.len() - 8 < at {
        return 0;
    }
    bytes::pair(store, at + offset) as u32
}

// The value of the cell at a place; missing where the store has no room for one.
#[tactic(auto, unfolding(crate::specs::Inner::Tests::kind_size))]
pub fn value_at(store: &[u8], at: usize) -> Answered
    ensures { ValueAt store.now at result }
{
    let Some(kind) = ValueKind::at(store, at) else {
        return Answered::Missing;
    };
    if store.len() - at < kind.size() {
        return Answered::Missing;
    }
    match kind {
        ValueKind::Integer => Answered::Integer(signed_quad(bytes::quad(store, at + 8))),
        ValueKind::Decimal => Answered::Decimal(signed_octet(bytes::octet(store, at + 8))),
        ValueKind::String => Answered::StringAt(at + 9, usize::from(store[at + 8])),
    }
}

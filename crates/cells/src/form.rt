// The form of keys and cells: every limit of document 01.
ghost use Rattle.std.specs.Prelude.{◌≡◌, ◌+◌, ◌<◌, ◌≤◌, length, slice_index, Some, IfSome};
ghost use Rattle.numbers.specs.Range.{within};
ghost use Rattle.cells.specs.Cell.{key_of, between, each, key_allowed, key_at};
ghost use Rattle.cells.specs.Inner.Tests.{kind_of, kind_size, string_formed, value_formed, FrontSized};

use crate::{bytes, value};

const INTEGER_LIMIT: u64 = 2_000_000_000;

const DECIMAL_LIMIT: u64 = 2_000_000_000_000_000;

// "Kinds: 0x49 integer .., 0x46 decimal .., 0x53 string"
#[derive(Clone, Copy)]
pub enum ValueKind {
    Integer,
    Decimal,
    String,
}

impl ValueKind {
    // The kind that a byte tells.
    #[tactic(auto, unfolding(crate::specs::Inner::Tests::kind_of))]
    fn told_by(byte: u8) -> Option<ValueKind>
        ensures { result ≡ kind_of byte }
    {
        match byte {
            0x49 => Some(ValueKind::Integer),
            0x46 => Some(ValueKind::Decimal),
            0x53 => Some(ValueKind::String),
            _ => None,
        }
    }

    // The kind of the cell at a place, if there is one.
    #[tactic(auto, unfolding(crate::specs::Inner::Tests::kind_of))]
    pub fn at(s: &[u8], at: usize) -> Option<ValueKind>
        ensures told { result ≡ kind_of (slice_index s.now at) }
        ensures inside { IfSome result (λ _. at < length s.now) }
    {
        ValueKind::told_by(*s.get(at)?)
    }

    // How many bytes a cell of the kind has.
    #[tactic(auto, unfolding(crate::specs::Inner::Tests::kind_size))]
    pub fn size(self) -> usize
        ensures { result ≡ kind_size self }
    {
        match self {
            ValueKind::Integer => 12,
            ValueKind::Decimal => 16,
            ValueKind::String => 25,
        }
    }
}

// "datasource 1–35 .., parameter 1–65,535, record 0–999, entry 0–999"
#[tactic(auto, unfolding(crate::specs::Cell::key_allowed, crate::specs::Cell::between))]
pub fn within_limits(datasource: u64, parameter: u64, record_number: u64, entry: u64) -> bool
    ensures { result ≡ key_allowed (key_of datasource parameter record_number entry) }
{
    (1..=35).contains(&datasource)
        && (1..=65535).contains(&parameter)
        && record_number <= 999
        && entry <= 999
}

// Whether the key at a place is within the limits.
pub fn key_allowed(s: &[u8], at: usize) -> bool
    requires { at + 7 ≤ length s.now }
    ensures { result ≡ key_allowed (key_at s.now at) }
{
    let datasource = u64::from(s[at]);
    let parameter = bytes::pair(s, at + 1);
    let record_number = bytes::pair(s, at + 3);
    let entry = bytes::pair(s, at + 5);
    within_limits(datasource, parameter, record_number, entry)
}

// Whether a number lies within ±limit.
#[tactic(auto, unfolding(numbers::specs::Range::within))]
fn number_allowed(n: i64, limit: u64) -> bool
    ensures { result ≡ within limit n }
{
    n.unsigned_abs() <= limit
}

// Whether every byte lies within low–high.
fn all_between(s: &[u8], low: u8, high: u8) -> bool
    ensures { result ≡ each (between low high) s.now }
{
    s.iter().all(|byte| (low..=high).contains(byte))
}

// "a length 0–16, then 16 bytes: that many of 0x20–0x7E, the rest zero"
fn string_allowed(s: &[u8]) -> bool
    requires { 25 ≤ length s.now }
    ensures { result ≡ string_formed s.now }
{
    let n = usize::from(s[8]);
    if 16 < n {
        return false;
    }
    let end = 9 + n;
    all_between(&s[9..end], 0x20, 0x7E) && all_between(&s[end..25], 0, 0)
}

// Whether the value of a cell is within the limits of its kind.
fn value_allowed(s: &[u8], kind: ValueKind) -> bool
    requires { (kind_of (slice_index s.now 0) ≡ Some kind) × (kind_size kind ≤ length s.now) }
    ensures { result ≡ value_formed s.now }
{
    match kind {
        ValueKind::Integer => number_allowed(value::signed_quad(bytes::quad(s, 8)), INTEGER_LIMIT),
        ValueKind::Decimal => number_allowed(
            value::signed_octet(bytes::octet(s, 8)),
            DECIMAL_LIMIT,
        ),
        ValueKind::String => string_allowed(s),
    }
}

// The size of the cell in form that the bytes begin with.
pub fn cell_size(s: &[u8]) -> Option<usize>
    ensures { FrontSized s.now result }
{
    let kind = ValueKind::at(s, 0)?;
    let size = kind.size();
    if size <= s.len() && key_allowed(s, 1) && value_allowed(s, kind) {
        return Some(size);
    }
    None
}

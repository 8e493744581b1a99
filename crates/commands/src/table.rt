// $BT and $ET: an open table is four of the words that are lent.
ghost use Rattle.std.specs.Prelude.{◌≡◌, ◌<◌, pos};
ghost use Rattle.std.specs.Int.Signed.{lt_z};
ghost use Rattle.values.specs.Inner.State.{tables_in};
ghost use Rattle.commands.specs.Looping as L;
ghost use Rattle.commands.specs.Looping.{no_table, counted_to};
ghost use Rattle.commands.specs.Inner.Open.{table_in, open_of, AtMostOpen, Pushes, BeginsTable, EndsTable};

use meaning::refusal::Refusal;
use numbers::sign;
use values::registers::Words;
use values::{registers, scene, worth};

// An open table: its counter, its n, and the line after its $BT by place and number.
#[derive(Clone, Copy)]
pub struct Table {
    pub counter: u32,
    pub last: u64,
    pub start: usize,
    pub line: u32,
}

fn below_one(z: i64) -> bool
    ensures { result ≡ lt_z z (pos 1) }
{
    z < 1
}

fn no_table() -> Table
    ensures { result ≡ no_table }
{
    Table {
        counter: 0,
        last: 0,
        start: 0,
        line: 0,
    }
}

// Table i, counted from 0.
fn table_in(words: &Words, i: usize) -> Table
    requires { i < 5 }
    ensures { result ≡ table_in (tables_in words.now) i }
{
    let k = registers::TABLES + i * 4;
    let counter = words[k];
    let last = words[k + 1];
    let start = words[k + 2];
    let line = words[k + 3];
    Table {
        counter: (counter % 4_294_967_296) as u32,
        last,
        start: start as usize,
        line: (line % 4_294_967_296) as u32,
    }
}

// The innermost table; one without passes where none is open.
pub fn innermost(words: &Words, depth: usize) -> Table
    ensures { result ≡ L.innermost (open_of words.now depth) }
{
    if depth < 1 {
        return no_table();
    }
    let i = depth - 1;
    if i < 5 {
        return table_in(words, i);
    }
    no_table()
}

// LOOP
pub fn turn_of(words: &Words, depth: usize) -> i64
    ensures { result ≡ pos (L.loop (open_of words.now depth)) }
{
    let table = innermost(words, depth);
    worth::signed(table.counter)
}

// A table more, behind so many.
fn pushed(words: &mut Words, depth: usize, table: Table)
    requires { AtMostOpen 4 words.old depth }
    ensures { Pushes words.old depth table words.new }
{
    let k = registers::TABLES + depth * 4;
    words[k] = table.counter as u64;
    words[k + 1] = table.last;
    words[k + 2] = table.start as u64;
    words[k + 3] = table.line as u64;
}

fn again(table: Table, counter: u32) -> Table
    ensures { result ≡ counted_to table counter }
{
    Table {
        counter,
        last: table.last,
        start: table.start,
        line: table.line,
    }
}

// "a counter past 2,000,000,000 has exceeded it"
fn exceeds(counter: u64, last: u64) -> bool
    ensures { result ≡ L.exceeds counter last }
{
    if 2_000_000_000 < counter {
        return true;
    }
    last < counter
}

// $BT: whether the table has a pass, so that it is open now; `start` and `next` are the line after it, by place and number.
#[tactic(auto, unfolding(crate::specs::Looping::begun))]
pub fn begin_table(
    taken: Result<i64, Refusal>,
    start: usize,
    next: u32,
    words: &mut Words,
    depth: usize,
) -> Result<bool, Refusal>
    requires { AtMostOpen 4 words.old depth }
    ensures { BeginsTable taken start next words.old depth words.new result }
{
    let z = taken?;
    if below_one(z) {
        return Ok(false);
    }
    let table = Table {
        counter: 1,
        last: sign::magnitude(z),
        start,
        line: next,
    };
    pushed(words, depth, table);
    Ok(true)
}

// $ET: whether the table has another pass; else it is closed.
#[tactic(auto, unfolding(crate::specs::Looping::counted, crate::specs::Looping::counting))]
pub fn end_table(
    taken: Result<i64, Refusal>,
    words: &mut Words,
    depth: usize,
) -> Result<bool, Refusal>
    requires { AtMostOpen 5 words.old depth }
    ensures { EndsTable taken words.old depth words.new result }
{
    let k = taken?;
    if below_one(k) {
        return Err(Refusal::OutOfRange);
    }
    let table = innermost(words, depth);
    let counter = table.counter as u64 + sign::magnitude(k);
    if exceeds(counter, table.last) {
        return Ok(false);
    }
    let rest = scene::less(depth, 1);
    pushed(words, rest, again(table, counter as u32));
    Ok(true)
}

// Where a run goes on, and what its lines are executed in.
ghost use Rattle.std.specs.Prelude.{◌≡◌, ◌+◌, ◌≤◌};
ghost use Rattle.values.specs.Inner.State.{tables_in};
ghost use Rattle.control.specs.Inner.Arms.{Jumpable};
ghost use Rattle.control.specs.Inner.Remembering.{jump_mark, jump_word, skip_in, Holdable, Remembers};
ghost use Rattle.control.specs.Inner.Going.{scene_of, placed_at, jumped_in, again_in};

use crate::state::Flow;
use commands::table;
use template::seek;
use template::seek::{Skip, Sought};
use values::registers;
use values::registers::Words;
use values::scene::Scene;

// What a line is executed in.
pub fn scene_of(words: &Words, flow: Flow, number: u32) -> Scene
    ensures { result ≡ scene_of (tables_in words.now) flow number }
{
    let page = flow.page;
    Scene {
        datasource: flow.datasource,
        page: page.number,
        row: page.row,
        number,
        turn: table::turn_of(words, flow.depth),
    }
}

fn placed(mut flow: Flow, at: usize, line: u32) -> Flow
    ensures { result ≡ placed_at flow at line }
{
    flow.at = at;
    flow.line = line;
    flow
}

// Behind a line of so many bytes.
pub fn past(flow: Flow, length: usize) -> Flow
    requires { (flow.at + length ≤ 65536) × (flow.line ≤ 65536) }
    ensures { result ≡ placed_at flow (flow.at + length + 1) (flow.line + 1) }
{
    let at = flow.at + length + 1;
    let line = flow.line + 1;
    placed(flow, at, line)
}

// A remembered jump is one word: from the highest bits down its mark, 17 bits of bytes, 17 of lines. The mark lies above both.
const PART: u64 = 131_072;

const PARTS: u64 = 17_179_869_184;

// A place and what is sought from there, as one number that is not 0.
fn jump_mark(at: usize, sought: Sought) -> u64
    requires { at ≤ 65536 }
    ensures { result ≡ jump_mark at sought }
{
    let place = at as u64 * 4;
    match sought {
        Sought::Branch => place + 1,
        Sought::TestEnd => place + 2,
        Sought::TableEnd => place + 3,
    }
}

// What a word remembers of a jump.
fn jump_word(mark: u64, skip: Skip) -> u64
    requires { Holdable mark skip }
    ensures { result ≡ jump_word mark skip }
{
    (mark * PART + skip.bytes as u64) * PART + skip.lines as u64
}

// How much such a word passes over.
fn skip_in(word: u64) -> Skip
    ensures { result ≡ skip_in word }
{
    Skip {
        bytes: (word / PART % PART) as usize,
        lines: (word % PART) as u32,
    }
}

// Behind what is passed over.
fn skipping(flow: Flow, skip: Skip) -> Flow
    requires { (flow.at + skip.bytes ≤ 262144) × (flow.line + skip.lines ≤ 262144) }
    ensures { result ≡ placed_at flow (flow.at + skip.bytes) (flow.line + skip.lines) }
{
    let at = flow.at + skip.bytes;
    let line = flow.line + skip.lines;
    placed(flow, at, line)
}

// Behind the line that matches, which is looked for where it isn't remembered. The word for places of one remainder holds the last
// of them: another mark is another jump.
pub fn jumped(template: &[u8], words: &mut Words, flow: Flow, sought: Sought) -> Flow
    requires { Jumpable template.now words.old flow }
    ensures { (result ≡ jumped_in template.now flow sought) × (Remembers template.now words.old words.new) }
{
    let at = flow.at;
    if template.len() < at {
        return flow;
    }
    let mark = jump_mark(at, sought);
    let slot = registers::JUMPS + at % 64;
    let known = words[slot];
    if known / PARTS == mark {
        return skipping(flow, skip_in(known));
    }
    let skip = seek::skip_lines(&template[at..], sought);
    words[slot] = jump_word(mark, skip);
    skipping(flow, skip)
}

// The line behind the $BT of the innermost table.
pub fn again(words: &Words, flow: Flow) -> Flow
    ensures { result ≡ again_in (tables_in words.now) flow }
{
    let table = table::innermost(words, flow.depth);
    placed(flow, table.start, table.line)
}

// Where a failed test, an executed $ELSE and a $BT with n below 1 go on.
ghost use Rattle.std.specs.Prelude.{◌≡◌, ◌≤◌, length};
ghost use Rattle.template.specs.Lines.{lines_of};
ghost use Rattle.template.specs.Seek.{role_of, way_past, skip_from, skipped};

use crate::{LONGEST_TEMPLATE, shapes};
use nesting::Shape;

#[derive(Clone, Copy)]
pub enum Sought {
    // a failed test: "the line after its matching `$ELSE`, or `$ENDIF` if there is none"
    Branch,
    // an executed $ELSE: "continues after `$ENDIF`"
    TestEnd,
    // "With n below 1 the run continues after the matching $ET"
    TableEnd,
}

// What a line is to the search.
#[derive(Clone, Copy)]
pub enum Role {
    Opens,
    Closes,
    Divides,
    Passes,
}

// How many bytes and lines are passed over.
#[derive(Clone, Copy)]
pub struct Skip {
    pub bytes: usize,
    pub lines: u32,
}

// A failed test and an executed $ELSE look among tests, a skipped table among tables. A $ELSE ends the search of a failed test
// only.
#[tactic(auto, unfolding(crate::specs::Seek::role_of, crate::specs::Seek::among_tests, crate::specs::Seek::among_tables, crate::specs::Seek::at_else))]
fn role_of(sought: Sought, shape: Shape) -> Role
    ensures { result ≡ role_of sought shape }
{
    match (sought, shape) {
        (Sought::Branch | Sought::TestEnd, Shape::Test) => Role::Opens,
        (Sought::Branch, Shape::Else) => Role::Divides,
        (Sought::Branch | Sought::TestEnd, Shape::EndTest) => Role::Closes,
        (Sought::TableEnd, Shape::Table) => Role::Opens,
        (Sought::TableEnd, Shape::EndTable) => Role::Closes,
        _ => Role::Passes,
    }
}

// How many lines are still to be closed behind a line; none where it is the match.
#[tactic(auto, unfolding(crate::specs::Seek::way_past))]
fn way_past(role: Role, depth: u32) -> Option<u32>
    requires { depth ≤ 32768 }
    ensures { result ≡ way_past role depth }
{
    match role {
        Role::Opens => Some(depth + 1),
        Role::Closes => depth.checked_sub(1),
        Role::Divides if depth == 0 => None,
        Role::Divides | Role::Passes => Some(depth),
    }
}

// The lines of a part of a template up to the one that matches, or all where none does, each with a line end.
fn lines_passed(rest: &[u8], sought: Sought) -> Skip
    requires { length rest.now ≤ 32768 }
    ensures { result ≡ skip_from sought 0 0 0 (lines_of rest.now) }
{
    let mut at = 0;
    let mut lines: u32 = 0;
    let mut depth: u32 = 0;
    // A slice's `split` has an empty line behind the last line end, and no places.
    while at < rest.len() {
        let line = scan::bytes::line_of(&rest[at..]);
        let shape = shapes::shape_by_word(line);
        let role = role_of(sought, shape);
        at += line.len() + 1;
        lines += 1;
        let Some(inside) = way_past(role, depth) else {
            return Skip { bytes: at, lines };
        };
        depth = inside;
    }
    Skip { bytes: at, lines }
}

// How much of a part of a template is passed over. Such a part isn't longer than a template may be; nothing of a longer
// one is passed over.
pub fn skip_lines(rest: &[u8], sought: Sought) -> Skip
    ensures { result ≡ skipped rest.now sought }
{
    if LONGEST_TEMPLATE < rest.len() {
        return Skip { bytes: 0, lines: 0 };
    }
    let passed = lines_passed(rest, sought);
    Skip {
        bytes: passed.bytes.min(rest.len()),
        ..passed
    }
}

// 4: "Nesting is crossed, unmatched, repeated ($ELSE), too deep, or open at the next $SEC or the last line, which is
// named; or a line other than $REM has no $SEC before it."
//
// after_line   what is open behind a line, or that the line is at fault
// all_closed   whether nothing but a section is open
#![tactic(auto)]

ghost use Rattle.nesting.specs.declared.Shape.TheVariants.{Section, Remark, Test, Else, EndTest, Table, EndTable, Plain};
ghost use Rattle.nesting.specs.Inner.Open.{Steps, Ends};

// What a line is to nesting. Plain lines open and close nothing.
#[derive(Clone, Copy)]
pub enum Shape {
    Section,
    Remark,
    Test,
    Else,
    EndTest,
    Table,
    EndTable,
    Plain,
    // 3 refuses it
    NoForm,
}

// What is open: the marks as digits in base 5, the innermost lowest, and how many tests and tables there are. One number in place of
// a stack, since a state is copied from line to line and nothing lies on a heap.
#[derive(Clone, Copy)]
pub struct Open {
    pub marks: u64,
    pub tests: u32,
    pub tables: u32,
}

const SECTION: u64 = 1;

const TEST: u64 = 2;

// A test in its $ELSE part.
const OTHER: u64 = 3;

const TABLE: u64 = 4;

const MOST_TESTS: u32 = 10;

const MOST_TABLES: u32 = 5;

// 5 to the power of 16: a section, ten tests and five tables have a smaller number.
const TOO_MANY: u64 = 152_587_890_625;

// A $SEC: nothing may be open but the section before it.
fn section_begun(state: Open) -> Option<Open>
    ensures { Steps state Section result }
{
    match state.marks % 5 {
        0 | SECTION => Some(Open {
            marks: SECTION,
            tests: 0,
            tables: 0,
        }),
        _ => None,
    }
}

fn test_begun(state: Open) -> Option<Open>
    ensures { Steps state Test result }
{
    if state.marks == 0 || MOST_TESTS <= state.tests || TOO_MANY <= state.marks {
        return None;
    }
    Some(Open {
        marks: state.marks * 5 + TEST,
        tests: state.tests + 1,
        ..state
    })
}

fn test_turned(state: Open) -> Option<Open>
    ensures { Steps state Else result }
{
    match state.marks % 5 {
        TEST => Some(Open {
            marks: state.marks + 1,
            ..state
        }),
        _ => None,
    }
}

#[tactic(auto, using(crate::proofs::OpenLaws::test_end_step))]
fn test_ended(state: Open) -> Option<Open>
    ensures { Steps state EndTest result }
{
    match state.marks % 5 {
        TEST | OTHER if 0 < state.tests => Some(Open {
            marks: state.marks / 5,
            tests: state.tests - 1,
            ..state
        }),
        _ => None,
    }
}

fn table_begun(state: Open) -> Option<Open>
    ensures { Steps state Table result }
{
    if state.marks == 0 || MOST_TABLES <= state.tables || TOO_MANY <= state.marks {
        return None;
    }
    Some(Open {
        marks: state.marks * 5 + TABLE,
        tables: state.tables + 1,
        ..state
    })
}

#[tactic(auto, using(crate::proofs::OpenLaws::table_end_step))]
fn table_ended(state: Open) -> Option<Open>
    ensures { Steps state EndTable result }
{
    match state.marks % 5 {
        TABLE if 0 < state.tables => Some(Open {
            marks: state.marks / 5,
            tables: state.tables - 1,
            ..state
        }),
        _ => None,
    }
}

fn passed(state: Open) -> Option<Open>
    ensures { Steps state Plain result }
{
    if state.marks == 0 {
        return None;
    }
    Some(state)
}

// What is open behind a line.
pub fn after_line(state: Open, shape: Shape) -> Option<Open>
    ensures { Steps state shape result }
{
    match shape {
        Shape::Section => section_begun(state),
        Shape::Remark => Some(state),
        Shape::Test => test_begun(state),
        Shape::Else => test_turned(state),
        Shape::EndTest => test_ended(state),
        Shape::Table => table_begun(state),
        Shape::EndTable => table_ended(state),
        Shape::Plain | Shape::NoForm => passed(state),
    }
}

// Whether nothing but a section is open.
pub fn all_closed(state: Open) -> bool
    ensures { Ends state result }
{
    state.marks % 5 <= SECTION
}

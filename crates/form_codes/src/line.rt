// A line's command with its arguments.
ghost use Rattle.std.specs.Prelude.{◌≡◌};
ghost use Rattle.buffers.specs.Buffer.{Stored};
ghost use Rattle.form_codes.specs.Line.{operation_code, comparison_code, target_codes, optional_codes, fetch_row, datasource_row, line_row, parsed_row, line_numbers};

use crate::row::{CodeRow, Seven};
use crate::{argument, row};
use arguments::argument::Argument;
use arguments::index::Index;
use lines::command;
use lines::command::{Comparison, Fetch, Line, Operation, Target};

fn operation_code(operation: Operation) -> u64
    ensures { result ≡ operation_code operation }
{
    match operation {
        Operation::Assign => 1,
        Operation::Add => 2,
        Operation::Subtract => 3,
        Operation::Multiply => 4,
        Operation::Divide => 5,
    }
}

fn comparison_code(comparison: Comparison) -> u64
    ensures { result ≡ comparison_code comparison }
{
    match comparison {
        Comparison::SameString => 1,
        Comparison::SameLetters => 2,
        Comparison::Equal => 3,
        Comparison::NotEqual => 4,
        Comparison::Less => 5,
        Comparison::AtMost => 6,
        Comparison::Greater => 7,
        Comparison::AtLeast => 8,
    }
}

// The variable as it would be an argument.
fn target_codes(target: Target) -> Seven
    ensures { result ≡ target_codes target }
{
    match target {
        Target::IntegerTarget(n) => Seven(4, n as u64, 0, 0, 0, 0, 0),
        Target::DecimalTarget(n) => Seven(5, n as u64, 0, 0, 0, 0, 0),
        Target::StringTarget(n) => Seven(6, n as u64, 0, 0, 0, 0, 0),
    }
}

fn optional_codes(optional: Option<Argument>) -> Seven
    ensures { result ≡ optional_codes optional }
{
    match optional {
        Some(a) => argument::argument_codes(a),
        None => Seven(0, 0, 0, 0, 0, 0, 0),
    }
}

fn fetch_row(form: u64, fetch: Fetch) -> CodeRow
    ensures { result ≡ fetch_row form fetch }
{
    let first = fetch.record;
    let second = fetch.entry;
    let count = fetch.count;
    let f = argument::index_codes(first);
    let s = argument::index_codes(second);
    let c = argument::index_codes(count);
    row::row_with(
        form,
        fetch.number as u64,
        Seven(fetch.parameter as u64, f.0, f.1, s.0, s.1, c.0, c.1),
    )
}

fn datasource_row(index: Index) -> CodeRow
    ensures { result ≡ datasource_row index }
{
    let i = argument::index_codes(index);
    row::row_with(13, 0, Seven(i.0, i.1, 0, 0, 0, 0, 0))
}

#[tactic(auto, unfolding(crate::specs::Line::line_row))]
fn line_row(line: Line) -> CodeRow
    ensures { result ≡ line_row line }
{
    match line {
        Line::Text => row::bare_row(1, 0),
        Line::Section(a, e) => row::row_with(2, 0, Seven(a as u64, e as u64, 0, 0, 0, 0, 0)),
        Line::Set(o, t, a) => {
            CodeRow(
                3,
                operation_code(o),
                target_codes(t),
                argument::argument_codes(a),
            )
        }
        Line::IfNot(a) => row::row_with(4, 0, argument::argument_codes(a)),
        Line::If(a) => row::row_with(5, 0, argument::argument_codes(a)),
        Line::Compare(c, a, b) => CodeRow(
            6,
            comparison_code(c),
            argument::argument_codes(a),
            argument::argument_codes(b),
        ),
        Line::Else => row::bare_row(7, 0),
        Line::EndIf => row::bare_row(8, 0),
        Line::BeginTable(a) => row::row_with(9, 0, argument::argument_codes(a)),
        Line::EndTable(k) => row::row_with(10, 0, optional_codes(k)),
        Line::Records(f) => fetch_row(11, f),
        Line::Entries(f) => fetch_row(12, f),
        Line::Datasource(i) => datasource_row(i),
        Line::NoFormFeed => row::bare_row(14, 0),
        Line::NewPage(n) => row::row_with(15, 0, optional_codes(n)),
        Line::Heading(n, at) => row::row_with(16, n as u64, Seven(at as u64, 0, 0, 0, 0, 0, 0)),
        Line::NoHeading(n) => row::bare_row(17, n as u64),
        Line::Remark => row::bare_row(18, 0),
    }
}

// A line without a form has 0.
fn parsed_row(parsed: Option<Line>) -> CodeRow
    ensures { result ≡ parsed_row parsed }
{
    match parsed {
        Some(form) => line_row(form),
        None => row::bare_row(0, 0),
    }
}

pub fn write_line(line: &[u8], numbers: &mut [u64]) -> bool
    ensures { Stored numbers.old 0 (line_numbers line.now) numbers.new result }
{
    let parsed = command::parse_line(line);
    row::put_row(numbers, parsed_row(parsed))
}

// What a line is to the checks of a whole template.
ghost use Rattle.std.specs.Prelude.{◌≡◌};
ghost use Rattle.scan.specs.Words.{first_of};
ghost use Rattle.nesting.specs.declared.Shape.TheVariants.{Plain};
ghost use Rattle.template.specs.Shape.{shape_in, shape_of, has_form, is_formed, shape_words, word_shape};

use lines::command;
use lines::command::Line;
use nesting::Shape;

#[tactic(auto, unfolding(crate::specs::Shape::shape_in))]
fn shape_in(form: Option<Line>) -> Shape
    ensures { result ≡ shape_in form }
{
    let Some(form) = form else {
        return Shape::NoForm;
    };
    match form {
        Line::Section(_, _) => Shape::Section,
        Line::IfNot(_) | Line::If(_) | Line::Compare(_, _, _) => Shape::Test,
        Line::Else => Shape::Else,
        Line::EndIf => Shape::EndTest,
        Line::BeginTable(_) => Shape::Table,
        Line::EndTable(_) => Shape::EndTable,
        Line::Remark => Shape::Remark,
        _ => Shape::Plain,
    }
}

#[tactic(auto, unfolding(crate::specs::Shape::shape_of))]
pub fn shape_of(line: &[u8]) -> Shape
    ensures { result ≡ shape_of line.now }
{
    shape_in(command::parse_line(line))
}

// 3: "A line has no form above, a number literal exceeds ±2,000,000,000, or fields widen a line past 132 bytes."
#[tactic(auto, unfolding(crate::specs::Shape::has_form))]
pub fn has_form(shape: Shape) -> bool
    ensures { result ≡ has_form shape }
{
    !matches!(shape, Shape::NoForm)
}

#[tactic(auto, unfolding(crate::specs::Shape::is_formed))]
pub fn is_formed(line: &[u8]) -> bool
    ensures { result ≡ is_formed line.now }
{
    has_form(shape_of(line))
}

// What a command is by its word.
#[tactic(auto, unfolding(crate::specs::Shape::shape_words, scan::specs::Words::first_of))]
fn command_shape(line: &[u8]) -> Shape
    ensures { result ≡ first_of Plain shape_words line.now 1 }
{
    if scan::words::begins_with(line, 1, b"IF") {
        Shape::Test
    } else if scan::words::begins_with(line, 1, b"ELSE") {
        Shape::Else
    } else if scan::words::begins_with(line, 1, b"ENDIF") {
        Shape::EndTest
    } else if scan::words::begins_with(line, 1, b"BT") {
        Shape::Table
    } else if scan::words::begins_with(line, 1, b"ET") {
        Shape::EndTable
    } else if scan::words::begins_with(line, 1, b"SEC") {
        Shape::Section
    } else if scan::words::begins_with(line, 1, b"REM") {
        Shape::Remark
    } else {
        Shape::Plain
    }
}

// What a line is by its word alone.
pub fn shape_by_word(line: &[u8]) -> Shape
    ensures { result ≡ word_shape line.now }
{
    if scan::bytes::byte(line, 0) == b'$' {
        return command_shape(line);
    }
    Shape::Plain
}

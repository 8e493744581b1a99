// The arguments of a line that are worked out before its command.
ghost use Rattle.std.specs.Prelude.{◌≡◌};
ghost use Rattle.control.specs.Inner.Forms.{optional_input, parsed_inputs};

use arguments::argument::Argument;
use lines::command::Line;
use values::working::Inputs;

#[tactic(auto, unfolding(crate::specs::Inner::Forms::optional_input))]
fn optional_input(optional: Option<Argument>) -> Inputs
    ensures { result ≡ optional_input optional }
{
    match optional {
        None => Inputs::None,
        Some(a) => Inputs::One(a),
    }
}

// A line without a form has none.
#[tactic(auto, unfolding(crate::specs::Inner::Forms::inputs_of, crate::specs::Inner::Forms::parsed_inputs))]
pub fn inputs_of(parsed: Option<Line>) -> Inputs
    ensures { result ≡ parsed_inputs parsed }
{
    let Some(form) = parsed else {
        return Inputs::None;
    };
    match form {
        Line::Set(_, _, a) | Line::IfNot(a) | Line::If(a) | Line::BeginTable(a) => Inputs::One(a),
        Line::Compare(_, a, b) => Inputs::Two(a, b),
        Line::EndTable(k) | Line::NewPage(k) => optional_input(k),
        _ => Inputs::None,
    }
}

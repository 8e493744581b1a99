// The variable that a command sets. Of the operands it is read alone, so that operand::operand_at has one caller.
ghost use Rattle.std.specs.Prelude.{◌≡◌, ◌<◌, IsTrue};
ghost use Rattle.arguments.specs.Inner.Variable.{begins_variable, variable_at};

use crate::operand::Operand;
use scan::{bytes, digits};

// I, F or S.
#[tactic(auto, unfolding(crate::specs::Inner::Variable::begins_variable))]
fn begins_variable(first: u8) -> bool
    ensures value { result ≡ begins_variable first }
    ensures letter { IsTrue result → 0 < first }
{
    matches!(first, b'I' | b'F' | b'S')
}

// IVn, FVn or SVn; none where any other operand stands.
#[tactic(auto, unfolding(crate::specs::Inner::Variable::variable_at, crate::specs::Inner::Variable::lettered, crate::specs::Readers::Operand::numbered_at, crate::specs::Readers::Operand::numbered_of))]
pub fn variable_at(line: &[u8], at: usize) -> Option<(Operand, usize)>
    ensures { result ≡ variable_at line.now at }
{
    let first = bytes::byte(line, at);
    if !begins_variable(first) {
        return None;
    }
    if bytes::byte(line, at + 1) != b'V' {
        return None;
    }
    let (n, next) = digits::number_at(line, at + 2, 99)?;
    let operand = match first {
        b'I' => Operand::IntegerVariable(n),
        b'F' => Operand::DecimalVariable(n),
        _ => Operand::StringVariable(n),
    };
    Some((operand, next))
}

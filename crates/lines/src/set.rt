// $SETDS, $SETE, $SETA, $SETS, $SETM and $SETD.
ghost use Rattle.std.specs.Prelude.{◌≡◌};
ghost use Rattle.lines.specs.Readers.Set.{target_of, set_at, datasource_at};

use crate::behind;
use crate::command::{Line, Operation, Target};
use arguments::operand::Operand;
use arguments::{argument, index, variable};

// What may be set: "SV takes a string; after another word than $SETE it is 3".
#[tactic(auto, unfolding(crate::specs::Readers::Set::target_of, crate::specs::Readers::Set::string_target))]
fn target_of(operand: Operand, operation: Operation) -> Option<Target>
    ensures { result ≡ target_of operand operation }
{
    match operand {
        Operand::IntegerVariable(n) => Some(Target::IntegerTarget(n)),
        Operand::DecimalVariable(n) => Some(Target::DecimalTarget(n)),
        Operand::StringVariable(n) if matches!(operation, Operation::Assign) => Some(
            Target::StringTarget(n),
        ),
        _ => None,
    }
}

// "variable argument"
#[tactic(auto, using(crate::proofs::SetLaws::set_by_variable))]
pub fn set_at(line: &[u8], at: usize, operation: Operation) -> Option<Line>
    ensures { result ≡ set_at operation line.now at }
{
    let start = behind::behind_space(line, at);
    let (operand, next) = variable::variable_at(line, start)?;
    let target = target_of(operand, operation)?;
    let second = behind::behind_space(line, next);
    let (argument, end) = argument::argument_at(line, second)?;
    if end < line.len() {
        return None;
    }
    Some(Line::Set(operation, target, argument))
}

// "`$SETDS n`", an index.
#[tactic(auto, unfolding(crate::specs::Readers::Set::datasource_at))]
pub fn datasource_at(line: &[u8], at: usize) -> Option<Line>
    ensures { result ≡ datasource_at line.now at }
{
    let start = behind::behind_space(line, at);
    let (index, end) = index::index_at(line, start)?;
    if end < line.len() {
        return None;
    }
    Some(Line::Datasource(index))
}

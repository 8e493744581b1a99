// The arguments of a line, worked out before its command: "arguments left to right, 8 then 9 each". What they are worth: missing where
// there is none.
ghost use Rattle.values.specs.Inner.Texts.{Sized};
ghost use Rattle.values.specs.Inner.State.{held};
ghost use Rattle.values.specs.Inner.Working.{LiteralOf, Workable, WorksOut};

use crate::log::Log;
use crate::registers::{Numbers, Words};
use crate::scene::Scene;
use crate::value;
use crate::worth::Worth;
use arguments::argument::{Argument, Filter};
use arguments::operand::Operand;
use meaning::end::Stop;
use numbers::Quantity;

// The arguments that are worked out before a command.
#[derive(Clone, Copy)]
pub enum Inputs {
    None,
    One(Argument),
    Two(Argument, Argument),
}

// It saves the most frequent argument its way through memory to `argument_value` (docs/HOT-CODE.md).
#[tactic(auto, unfolding(crate::specs::Inner::Working::Literally))]
fn literal_of(argument: Argument) -> Option<Quantity>
    ensures { LiteralOf argument result }
{
    match (argument.operand, argument.filter) {
        (Operand::NumberLiteral(q), Filter::Unfiltered) => Some(q),
        _ => None,
    }
}

pub fn work_out<'a>(
    line: &'a [u8],
    store: &'a [u8],
    index: &'a [u16],
    numbers: &'a Numbers,
    strings: &'a [[u8; 16]; 99],
    words: &'a Words,
    scene: Scene,
    inputs: Inputs,
    log: &mut Log,
) -> Result<(Worth, Worth), Stop>
    requires { (Workable scene.datasource inputs log.old.asked) × (Sized line.now store.now) }
    ensures { WorksOut line.now store.now index.now (held numbers.now strings.now words.now) scene inputs log.old log.new result }
{
    match inputs {
        Inputs::None => Ok((Worth::Missing, Worth::Missing)),
        Inputs::One(x) => {
            if let Some(q) = literal_of(x) {
                return Ok((Worth::Number(q), Worth::Missing));
            }
            let v = value::argument_value(
                line, store, index, numbers, strings, words, scene, x, log,
            )?;
            Ok((v, Worth::Missing))
        }
        Inputs::Two(x, y) => {
            let v = value::argument_value(
                line, store, index, numbers, strings, words, scene, x, log,
            )?;
            let w = value::argument_value(
                line, store, index, numbers, strings, words, scene, y, log,
            )?;
            Ok((v, w))
        }
    }
}

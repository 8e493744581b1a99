// One template line.
ghost use Rattle.values.specs.Inner.State.{held};
ghost use Rattle.control.specs.Line.{line_meaning};
ghost use Rattle.control.specs.Inner.Executing.{state_at, LineReady, Executes};
ghost use Rattle.control.specs.Inner.Remembering.{Remembered};

use crate::execute;
use crate::execute::Prepared;
use control::state::Flow;
use control::{flow, inputs};
use lines::command;
use meaning::end::Stop;
use values::log::Log;
use values::registers::{Numbers, Words};
use values::working;

// The line that is due: its arguments, then its command.
pub fn line<'a>(
    template: &'a [u8],
    store: &'a [u8],
    index: &'a [u16],
    numbers: &mut Numbers,
    strings: &mut [[u8; 16]; 99],
    words: &mut Words,
    text: &mut [u8],
    printed: &mut usize,
    log: &mut Log,
    flow: &mut Flow,
) -> Result<(), Stop>
    requires { LineReady store.now index.now template.now (held numbers.old strings.old words.old) flow.old text.old printed.old log.old }
    ensures { (Executes 332 (line_meaning template.now (state_at store.now (held numbers.old strings.old words.old) flow.old)) store.now (held numbers.old strings.old words.old) flow.old text.old printed.old log.old (held numbers.new strings.new words.new) flow.new text.new printed.new log.new result) × (Remembered template.now words.new) }
{
    let at = flow.at;
    let body = scan::bytes::line_of(&template[at..]);
    // An accepted template's line has a form.
    let form = command::form_of(body).unwrap();
    let scene = flow::scene_of(words, *flow, flow.line);
    *flow = flow::past(*flow, body.len());
    let arguments = inputs::inputs_of(Some(form));
    let (first, second) = working::work_out(
        body, store, index, numbers, strings, words, scene, arguments, log,
    )?;
    let prepared = Prepared {
        form,
        first,
        second,
        scene,
        start: at,
    };
    execute::execute(
        template, body, store, index, numbers, strings, words, text, printed, log, flow, prepared,
    )
}

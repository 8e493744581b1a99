// A line by its form and the values of its arguments.
ghost use Rattle.values.specs.Inner.State.{held};
ghost use Rattle.control.specs.Inner.Executing.{FormReady};
ghost use Rattle.executed_line.specs.Inner.Performing.{Performs};

use commands::{set, settle, table, test};
use control::state::Flow;
use control::{arms, flow};
use lines::command::Line;
use meaning::end::Stop;
use pages::heading::Heading;
use pages::step;
use template::seek::Sought;
use values::fetch::Along;
use values::log::Log;
use values::registers::{Numbers, Words};
use values::scene::Scene;
use values::worth::Worth;
use values::{fetch, registers, scene};

// A line that is due: its form, the values of its arguments, what it is executed in, and where it starts in the template.
#[derive(Clone, Copy)]
pub struct Prepared {
    pub form: Line,
    pub first: Worth,
    pub second: Worth,
    pub scene: Scene,
    pub start: usize,
}

// The line; the flow is the one behind it.
pub fn execute<'a>(
    template: &'a [u8],
    body: &'a [u8],
    store: &'a [u8],
    index: &'a [u16],
    numbers: &mut Numbers,
    strings: &mut [[u8; 16]; 99],
    words: &mut Words,
    text: &mut [u8],
    printed: &mut usize,
    log: &mut Log,
    flow: &mut Flow,
    line: Prepared,
) -> Result<(), Stop>
    requires { FormReady body.now store.now index.now template.now (held numbers.old strings.old words.old) line.scene line.start flow.old line.form text.old printed.old log.old }
    ensures { Performs body.now store.now template.now (held numbers.old strings.old words.old) line.scene line.start flow.old line.form line.first line.second text.old printed.old log.old (held numbers.new strings.new words.new) flow.new text.new printed.new log.new result }
{
    let form = line.form;
    let first = line.first;
    let second = line.second;
    let scene = line.scene;
    let start = line.start;
    let number = scene.number;
    match form {
        Line::Text => {
            let due = Heading {
                start,
                length: body.len(),
                from: 0,
                number,
            };
            let feeds = flow.feeds;
            step::step(
                template,
                store,
                index,
                numbers,
                strings,
                words,
                log,
                text,
                printed,
                &mut flow.page,
                scene,
                feeds,
                due,
            )
        }
        Line::Section(_, _) => {
            arms::section_line(numbers, words, flow);
            Ok(())
        }
        Line::Set(o, target, _) => {
            let verdict = set::assigned(body, store, numbers, strings, words, o, target, first);
            arms::settled(verdict, number)
        }
        Line::IfNot(_) => {
            let judged = test::if_zero(true, first);
            arms::branched(judged, number, template, words, flow)
        }
        Line::If(_) => {
            let judged = test::if_zero(false, first);
            arms::branched(judged, number, template, words, flow)
        }
        Line::Compare(c, _, _) => {
            let judged = test::compare(body, store, strings, c, first, second);
            arms::branched(judged, number, template, words, flow)
        }
        // "an executed `$ELSE` continues after `$ENDIF`"
        Line::Else => {
            *flow = flow::jumped(template, words, *flow, Sought::TestEnd);
            Ok(())
        }
        Line::EndIf => Ok(()),
        Line::Remark => Ok(()),
        Line::BeginTable(_) => {
            let n = settle::integer_of(first);
            let judged = table::begin_table(n, flow.at, flow.line, words, flow.depth);
            arms::begun(judged, number, template, words, flow)
        }
        Line::EndTable(optional) => {
            let k = settle::integer_or(1, optional, first);
            let judged = table::end_table(k, words, flow.depth);
            arms::ended(judged, number, words, flow)
        }
        // A fetch is handed copies: what the line is executed in needn't lie in memory then.
        Line::Records(f) => {
            let here = scene;
            let wanted = f;
            let v = fetch::fetch(Along::Records, wanted, here, numbers, log);
            arms::fetched(v, registers::RECORDS, f.number, words)
        }
        Line::Entries(f) => {
            let here = scene;
            let wanted = f;
            let v = fetch::fetch(Along::Entries, wanted, here, numbers, log);
            arms::fetched(v, registers::ENTRIES, f.number, words)
        }
        Line::Datasource(i) => {
            let place = scene::index_place(i, scene.turn, numbers);
            arms::selected(place, number, flow)
        }
        Line::NoFormFeed => {
            flow.feeds = false;
            Ok(())
        }
        Line::NewPage(optional) => {
            let n = settle::integer_or(62, optional, first);
            arms::page_for(n, number, text, printed, flow)
        }
        Line::Heading(n, from) => {
            let defined = Heading {
                start,
                length: body.len(),
                from,
                number,
            };
            arms::heading_line(words, n, defined);
            Ok(())
        }
        Line::NoHeading(n) => {
            arms::no_heading_line(words, n);
            Ok(())
        }
    }
}

// What follows from a command's values: where the run goes on, and what is set.
ghost use Rattle.std.specs.Prelude.{◌≡◌, ◌+◌, ◌-◌, ◌≤◌, pos, length};
ghost use Rattle.std.specs.Int.Signed.{lt_z};
ghost use Rattle.values.specs.Inner.State.{tables_in};
ghost use Rattle.pages.specs.Heading.{no_heading};
ghost use Rattle.pages.specs.Inner.Packed.{Small};
ghost use Rattle.pages.specs.Inner.Paging.{TurnReady};
ghost use Rattle.control.specs.Inner.Remembering.{Remembers};
ghost use Rattle.control.specs.Inner.Going.{datasource_in};
ghost use Rattle.control.specs.Inner.Arms.{on_line, Jumpable, Settles, branched_in, begun_in, over_in, datasource_at, Refills, Clears, Heads, PagesLine};

use crate::flow;
use crate::state::Flow;
use meaning::end::Stop;
use meaning::refusal::Refusal;
use pages::heading::Heading;
use pages::{heading, page};
use template::seek::Sought;
use values::registers::{Numbers, Words};
use values::{registers, scene, worth};

// A variable is set, or the line refused.
pub fn settled(verdict: Result<(), Refusal>, number: u32) -> Result<(), Stop>
    ensures { result ≡ on_line number verdict }
{
    match verdict {
        Ok(()) => Ok(()),
        Err(e) => Err(Stop::refused(e, number)),
    }
}

// "A failed one continues at the line after its matching `$ELSE`, or `$ENDIF` if there is none"
pub fn branched(
    judged: Result<bool, Refusal>,
    number: u32,
    template: &[u8],
    words: &mut Words,
    flow: &mut Flow,
) -> Result<(), Stop>
    requires { Jumpable template.now words.old flow.old }
    ensures { (Settles number flow.old (branched_in template.now flow.old) judged flow.new result) × (Remembers template.now words.old words.new) }
{
    match judged {
        Err(e) => Err(Stop::refused(e, number)),
        Ok(true) => Ok(()),
        Ok(false) => {
            *flow = flow::jumped(template, words, *flow, Sought::Branch);
            Ok(())
        }
    }
}

// $BT: a table more, or it is skipped.
pub fn begun(
    judged: Result<bool, Refusal>,
    number: u32,
    template: &[u8],
    words: &mut Words,
    flow: &mut Flow,
) -> Result<(), Stop>
    requires { (Jumpable template.now words.old flow.old) × (flow.old.depth ≤ 4) }
    ensures { (Settles number flow.old (begun_in template.now flow.old) judged flow.new result) × (Remembers template.now words.old words.new) }
{
    match judged {
        Err(e) => Err(Stop::refused(e, number)),
        Ok(true) => {
            flow.depth += 1;
            Ok(())
        }
        Ok(false) => {
            *flow = flow::jumped(template, words, *flow, Sought::TableEnd);
            Ok(())
        }
    }
}

// $ET: "ends the table when the counter exceeds n, else goes to the line after $BT"
pub fn ended(
    judged: Result<bool, Refusal>,
    number: u32,
    words: &Words,
    flow: &mut Flow,
) -> Result<(), Stop>
    ensures { Settles number flow.old (over_in (tables_in words.now) flow.old) judged flow.new result }
{
    match judged {
        Err(e) => Err(Stop::refused(e, number)),
        Ok(true) => {
            *flow = flow::again(words, *flow);
            Ok(())
        }
        Ok(false) => {
            flow.depth = scene::less(flow.depth, 1);
            Ok(())
        }
    }
}

// $SETDS: 8 "a $SETDS number outside 1–35"
#[tactic(auto, unfolding(crate::specs::Inner::Arms::datasource_at))]
pub fn selected(place: u32, number: u32, flow: &mut Flow) -> Result<(), Stop>
    ensures { Settles number flow.old (datasource_in flow.old) (datasource_at place) flow.new result }
{
    if !(1..=35).contains(&place) {
        return Err(Stop::refused(Refusal::BadIndex, number));
    }
    flow.datasource = place;
    Ok(())
}

// $REC, $TBL: what was fetched, as Rn or Tn, which begin at a place of the words.
pub fn fetched(v: Result<u64, Stop>, from: usize, n: usize, words: &mut Words) -> Result<(), Stop>
    requires { from + 10 ≤ 128 }
    ensures { Refills from n v words.old words.new result }
{
    registers::put(words, from, 10, n, v?);
    Ok(())
}

// "Each executed $SEC sets IV and FV to 0, SV to empty, clears R, T and headings, ends $NOFF."
pub fn section_line(numbers: &mut Numbers, words: &mut Words, flow: &mut Flow)
    requires { (198 ≤ length numbers.old) × (128 ≤ length words.old) }
    ensures { Clears numbers.old words.old flow.old numbers.new words.new flow.new }
{
    registers::clear_numbers(numbers);
    registers::clear_words(words);
    flow.feeds = true;
}

// $PHn with a text
pub fn heading_line(words: &mut Words, n: usize, defined: Heading)
    requires { Small defined }
    ensures { Heads words.old n defined words.new }
{
    let word = heading::packed(defined);
    registers::put(words, registers::HEADINGS, 9, n, word);
}

// $PHn without
pub fn no_heading_line(words: &mut Words, n: usize)
    ensures { Heads words.old n no_heading words.new }
{
    registers::put(words, registers::HEADINGS, 9, n, 0);
}

// "`$NP n` if 61 − LINENUM is below n"
fn breaks_for(row: u32, n: i64) -> bool
    requires { row ≤ 61 }
    ensures { result ≡ lt_z (pos (61 - row)) n }
{
    worth::signed(61 - row) < n
}

// $NP with its value: "$NP breaks always"
pub fn page_for(
    taken: Result<i64, Refusal>,
    number: u32,
    text: &mut [u8],
    printed: &mut usize,
    flow: &mut Flow,
) -> Result<(), Stop>
    requires { TurnReady flow.old.page text.old printed.old }
    ensures { PagesLine taken number flow.old text.old printed.old flow.new text.new printed.new result }
{
    match taken {
        Err(e) => Err(Stop::refused(e, number)),
        Ok(n) => {
            if breaks_for(flow.page.row, n) {
                let feeds = flow.feeds;
                return page::break_page(&mut flow.page, feeds, number, text, printed);
            }
            Ok(())
        }
    }
}

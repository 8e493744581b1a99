// Headings, and all that a text line does.
ghost use Rattle.std.specs.Prelude.{◌≡◌, ◌≤◌};
ghost use Rattle.values.specs.Inner.State.{headings_in};
ghost use Rattle.pages.specs.Inner.Packed.{headings_of};
ghost use Rattle.pages.specs.Inner.Pass.{lent};
ghost use Rattle.pages.specs.Inner.Listing.{lead_of, line_due, lines_on};
ghost use Rattle.pages.specs.Inner.Paging.{scene_on, LinesReady, SaysLines, StepReady, Steps};

use crate::heading::Heading;
use crate::page::Page;
use crate::{heading, page, text};
use meaning::end::Stop;
use scan::bytes;
use values::log::Log;
use values::registers::{Numbers, Words};
use values::scene::Scene;

// How many lines come before a text line: on a page that has no line yet the headings up to the highest defined, and the blank
// line below them.
#[tactic(auto, using(crate::proofs::Highest::highest_most), unfolding(crate::specs::Page::highest_defined, crate::specs::Inner::Listing::lead_of))]
fn leading(words: &Words, page: Page) -> usize
    ensures { (result ≡ lead_of (headings_of (headings_in words.now)) page) × (result ≤ 10) }
{
    if page.row != 1 {
        return 0;
    }
    let mut highest = 0;
    for k in 0..9 {
        if heading::heading_at(words, k).number != 0 {
            highest = k + 1;
        }
    }
    if highest == 0 { 0 } else { highest + 1 }
}

// The k-th line due, where so many come before the text line. An undefined heading is blank, as the one above the highest is.
fn line_due(words: &Words, lead: usize, k: usize, line: Heading) -> Heading
    ensures { result ≡ line_due (headings_of (headings_in words.now)) lead k line }
{
    if lead <= k {
        return line;
    }
    let heading = heading::heading_at(words, k);
    if heading.number == 0 {
        return Heading {
            start: 0,
            length: 0,
            from: 0,
            number: line.number,
        };
    }
    heading
}

// What a line is executed in on a page, where it names the line `number`.
fn scene_on(scene: Scene, page: Page, number: u32) -> Scene
    ensures { result ≡ scene_on scene page number }
{
    Scene {
        datasource: scene.datasource,
        page: page.number,
        row: page.row,
        number,
        turn: scene.turn,
    }
}

// The lines due on a page, one after the other: headings, a blank line, the text line.
fn say_lines<'a>(
    template: &'a [u8],
    store: &'a [u8],
    index: &'a [u16],
    numbers: &'a Numbers,
    strings: &'a [[u8; 16]; 99],
    words: &'a Words,
    log: &mut Log,
    text: &mut [u8],
    printed: &mut usize,
    page: &mut Page,
    scene: Scene,
    line: Heading,
) -> Result<(), Stop>
    requires { LinesReady (lent store.now index.now numbers.now strings.now words.now) scene page.old template.now (lines_on template.now (headings_of (headings_in words.now)) line page.old) text.old printed.old log.old }
    ensures { SaysLines (lent store.now index.now numbers.now strings.now words.now) scene page.old (lines_on template.now (headings_of (headings_in words.now)) line page.old) text.old printed.old log.old page.new text.new printed.new log.new result }
{
    let lead = leading(words, *page);
    for k in 0..lead + 1 {
        let next = line_due(words, lead, k, line);
        let body = bytes::part(template, next.start, next.length);
        let here = scene_on(scene, *page, next.number);
        text::text_line(
            body, next.from, store, index, numbers, strings, words, log, text, printed, here,
        )?;
        *page = page.advanced();
    }
    Ok(())
}

// A text line with what comes before it: a break, then the lines due on the page.
pub fn step<'a>(
    template: &'a [u8],
    store: &'a [u8],
    index: &'a [u16],
    numbers: &'a Numbers,
    strings: &'a [[u8; 16]; 99],
    words: &'a Words,
    log: &mut Log,
    text: &mut [u8],
    printed: &mut usize,
    page: &mut Page,
    scene: Scene,
    feeds: bool,
    line: Heading,
) -> Result<(), Stop>
    requires { StepReady (lent store.now index.now numbers.now strings.now words.now) scene page.old template.now (headings_of (headings_in words.now)) line text.old printed.old log.old }
    ensures { Steps (lent store.now index.now numbers.now strings.now words.now) scene page.old template.now (headings_of (headings_in words.now)) feeds line text.old printed.old log.old page.new text.new printed.new log.new result }
{
    page::turn(page, feeds, line.number, text, printed)?;
    say_lines(
        template, store, index, numbers, strings, words, log, text, printed, page, scene, line,
    )
}

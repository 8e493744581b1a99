// The page and its break.
ghost use Rattle.std.specs.Prelude.{◌≡◌, ◌≤◌, ◌<◌};
ghost use Rattle.pages.specs.Page.{new_page, broken_of, advanced_of};
ghost use Rattle.pages.specs.Inner.Paging.{TurnReady, Breaks, Turns};

use meaning::end::Stop;
use meaning::refusal::Overflow;

// PAGENUM and LINENUM, which is the next line.
#[derive(Clone, Copy)]
pub struct Page {
    pub number: u32,
    pub row: u32,
}

impl Page {
    // "A page holds 60 lines."
    pub const LIMIT: u32 = 60;

    pub fn new() -> Self
        ensures { result ≡ new_page }
    {
        Self { number: 1, row: 1 }
    }

    pub fn broken(self) -> Self
        requires { self.number < 4294967295 }
        ensures { result ≡ broken_of self }
    {
        Self {
            number: self.number + 1,
            row: 1,
        }
    }

    pub fn advanced(self) -> Self
        requires { self.row ≤ 61 }
        ensures { result ≡ advanced_of self }
    {
        Self {
            number: self.number,
            row: self.row + 1,
        }
    }
}

// "A break writes 0x0C (nothing under $NOFF)"
pub fn break_page(
    page: &mut Page,
    feeds: bool,
    number: u32,
    text: &mut [u8],
    printed: &mut usize,
) -> Result<(), Stop>
    requires { TurnReady page.old text.old printed.old }
    ensures { Breaks number feeds page.old text.old printed.old page.new text.new printed.new result }
{
    if feeds {
        if text.len() <= *printed {
            return Err(Stop::cut(Overflow::Output, number));
        }
        text[*printed] = 12;
        *printed += 1;
    }
    *page = page.broken();
    Ok(())
}

// "Before a text line, LINENUM 61 causes a break".
pub fn turn(
    page: &mut Page,
    feeds: bool,
    number: u32,
    text: &mut [u8],
    printed: &mut usize,
) -> Result<(), Stop>
    requires { TurnReady page.old text.old printed.old }
    ensures { Turns number feeds page.old text.old printed.old page.new text.new printed.new result }
{
    if page.row <= Page::LIMIT {
        return Ok(());
    }
    break_page(page, feeds, number, text, printed)
}

// What a run can be refused for, or cut off at.
ghost use Rattle.std.specs.Prelude.{◌≡◌};
ghost use Rattle.meaning.specs.Number.{refusal_number, refusal_of, overflow_number};

use numbers::ArithmeticError;

// "Numbers a run can end with", without the two that only a full buffer makes.
#[derive(Clone, Copy)]
pub enum Refusal {
    // "The store breaks its form or is longer than its buffer."
    BadStore = 1,
    // "The template is too long (line 0), has a byte or line outside its limits."
    BadTemplate = 2,
    // "A line has no form above, a number literal exceeds ±2,000,000,000, or fields widen a line past 132 bytes."
    BadLine = 3,
    // "Nesting is crossed, unmatched, repeated ($ELSE), too deep, or open at the next $SEC or the last line"; or no $SEC before.
    BadNesting = 4,
    // "A section name came before"
    RepeatedSection = 5,
    // "The section asked for isn't there, or the name is empty and there is no $SEC."
    NoSection = 6,
    // "50,000 lines were executed and another is due"
    TooManyLines = 7,
    // "An index is outside 0–999, a $SETDS number outside 1–35, a count outside 0–64, or the last element passes 999."
    BadIndex = 8,
    // "A command's argument is missing."
    MissingArgument = 10,
    // "A value has the wrong kind."
    WrongKind = 11,
    // "The divisor is zero."
    ZeroDivisor = 12,
    // "A result is out of range, or $ET's k is below 1."
    OutOfRange = 13,
    // "An edit's or question's key, kind, unused number or value breaks a limit above."
    BadRequest = 15,
    // "A put would pass the buffer or 65,536 bytes."
    StoreFull = 16,
    // "The key to remove has no cell."
    NoCell = 17,
}

// The lent buffer that was too short: the refusals that only a question or a printed event can make.
#[derive(Clone, Copy)]
pub enum Overflow {
    // "The read list has no place for the next question."
    ReadList = 9,
    // "The next line, or a form feed alone, doesn't fit the output."
    Output = 14,
}

impl Refusal {
    pub fn number(self) -> u8
        ensures { result ≡ refusal_number self }
    {
        self as u8
    }
}

// A line whose calculation has no result is refused for it.
impl From<ArithmeticError> for Refusal {
    ghost from_gives = { λ error refusal. refusal ≡ refusal_of error };

    fn from(error: ArithmeticError) -> Refusal {
        match error {
            ArithmeticError::ZeroDivisor => Refusal::ZeroDivisor,
            ArithmeticError::OutOfRange => Refusal::OutOfRange,
        }
    }
}

impl Overflow {
    pub fn number(self) -> u8
        ensures { result ≡ overflow_number self }
    {
        self as u8
    }
}

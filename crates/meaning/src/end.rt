// How a call ended.
ghost use Rattle.std.specs.Prelude.{◌≡◌};
ghost use Rattle.meaning.specs.declared.end.Halt.TheVariants.{Refused, Cut};
ghost use Rattle.meaning.specs.Number.{stopped, ended_in, cause_of, end_of, cause_number, number_of, line_named};

use crate::refusal::{Overflow, Refusal};

// Where a run stops early: why, and the line that is named.
#[derive(Clone, Copy)]
pub struct Stop {
    pub halt: Halt,
    pub line: u32,
}

impl Stop {
    pub fn refused(refusal: Refusal, line: u32) -> Self
        ensures { result ≡ stopped (Refused refusal) line }
    {
        Self {
            halt: Halt::Refused(refusal),
            line,
        }
    }

    pub fn cut(overflow: Overflow, line: u32) -> Self
        ensures { result ≡ stopped (Cut overflow) line }
    {
        Self {
            halt: Halt::Cut(overflow),
            line,
        }
    }
}

// Why a run ended early.
#[derive(Clone, Copy)]
pub enum Halt {
    Refused(Refusal),
    Cut(Overflow),
}

// How ask, put and remove ended: as they should, or halted, with the line that is named.
#[derive(Clone, Copy)]
pub enum Ended {
    Finished,
    Halted(Halt, u32),
}

impl Halt {
    pub fn number(self) -> u8
        ensures { result ≡ cause_number (cause_of self) }
    {
        match self {
            Halt::Refused(refusal) => refusal.number(),
            Halt::Cut(overflow) => overflow.number(),
        }
    }
}

impl Ended {
    // "0 is success."
    pub fn number(self) -> u8
        ensures { result ≡ number_of (end_of (tt {0}) self) }
    {
        match self {
            Ended::Finished => 0,
            Ended::Halted(halt, _) => halt.number(),
        }
    }

    // The line named; 0 where none is.
    pub fn line(self) -> u32
        ensures { result ≡ line_named (end_of (tt {0}) self) }
    {
        match self {
            Ended::Finished => 0,
            Ended::Halted(_, line) => line,
        }
    }
}

// "0 is success."
pub fn number(end: Result<(), Stop>) -> u8
    ensures { result ≡ number_of (ended_in (λ x. x) end) }
{
    match end {
        Ok(()) => 0,
        Err(stop) => stop.halt.number(),
    }
}

// The line named; 0 where none is.
pub fn line(end: Result<(), Stop>) -> u32
    ensures { result ≡ line_named (ended_in (λ x. x) end) }
{
    match end {
        Ok(()) => 0,
        Err(stop) => stop.line,
    }
}

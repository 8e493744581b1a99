// The bytes and lines of a template.
ghost use Rattle.std.specs.Prelude.{◌≡◌, ◌<◌, length, drop};
ghost use Rattle.scan.specs.Line.{line_of, byte_at, window};
ghost use Rattle.scan.specs.Inner.Bytes.{first_refused};

use crate::run;
use crate::run::Class;

// Where the first byte is that a template may not have, or the template's length.
pub fn first_refused(template: &[u8]) -> usize
    ensures { result ≡ first_refused template.now }
{
    run::count(template, Class::Allowed)
}

// The line that this part of a template starts with, without its line end.
#[tactic(auto, using(crate::proofs::RunLaws::take_span))]
pub fn line_of<'a>(rest: &'a [u8]) -> &'a [u8]
    ensures { result.now ≡ line_of rest.now }
{
    let length = run::count(rest, Class::InLine);
    &rest[..length]
}

// The byte at a place, or 0 behind the end.
#[tactic(auto, unfolding(crate::specs::Line::byte_at))]
pub fn byte(line: &[u8], at: usize) -> u8
    ensures value { result ≡ byte_at line.now at }
    ensures inside { 0 < result → at < length line.now }
{
    line.get(at).copied().unwrap_or(0)
}

// What stands from a place on, nothing behind the end.
pub fn rest<'a>(line: &'a [u8], at: usize) -> &'a [u8]
    ensures { result.now ≡ drop at line.now }
{
    line.get(at..).unwrap_or(&[])
}

// At most `most` bytes from a place on.
pub fn part<'a>(line: &'a [u8], at: usize, most: usize) -> &'a [u8]
    ensures { result.now ≡ window line.now at most }
{
    let behind = rest(line, at);
    &behind[..most.min(behind.len())]
}

// What the program reads: a file by its name, and the section's name. Where it can't be read, a message says why.
ghost use Rattle.std.specs.Prelude.{◌≡◌, IfSome, IsOkAnd};
ghost use Rattle.std.specs.Io.{ReadsAtMost};
ghost use Rattle.sheet.specs.Inner.Prefix.{IsPrefixLen};

use std::rt::Files;
use std::{fs, io};

// The system's words for an error, without the number that std writes behind them.
fn words(text: &str) -> &str {
    match text.split_once(" (os error ") {
        Some((words, _)) => words,
        None => text,
    }
}

// Where memory runs out the number stands.
fn say<R: Eprint + AllocGlobal>(rt: &R, what: &str, why: io::Error) -> io::Result<()> {
    match format!(in rt.alloc(); "{why}") {
        Ok(text) => {
            let message = words(&text);
            eprintln!(rt; "{what}: {message}")
        }
        Err(_) => eprintln!(rt; "{what}: {why}"),
    }
}

// What was read, or a message that says why nothing was. Nothing more can be done where the message can't be written either.
fn told<R: Eprint + AllocGlobal>(rt: &R, what: &str, read: io::Result<usize>) -> Option<usize>
    ensures { IfSome result (λ n. IsOkAnd read (λ m. m ≡ n)) }
{
    match read {
        Ok(n) => Some(n),
        Err(why) => {
            let _ = say(rt, what, why);
            None
        }
    }
}

// Reads up to the buffer's end or the reader's: a read that fails is told from the end.
fn fill<F: io::Read>(from: &mut F, buf: &mut [u8]) -> io::Result<usize>
    ensures { ReadsAtMost result buf.new }
{
    let mut n = 0;
    // A read may give less than it was asked for.
    while n < buf.len() {
        let more = from.read(&mut buf[n..])?;
        if more == 0 {
            break;
        }
        n += more;
    }
    Ok(n)
}

// What a file holds, up to the buffer's end.
fn contents<R: Files + AllocGlobal>(rt: &R, path: &str, buf: &mut [u8]) -> io::Result<usize>
    ensures { ReadsAtMost result buf.new }
{
    let mut file = fs::open(rt, path)?;
    fill(&mut file, buf)
}

// How many bytes of the buffer a file fills; none where it can't be read.
pub fn load<R: Files + Eprint + AllocGlobal>(rt: &R, path: &str, buf: &mut [u8]) -> Option<usize>
    ensures { IfSome result (λ n. IsPrefixLen n buf.new) }
{
    told(rt, path, contents(rt, path, buf))
}

// The next byte, if there is one.
fn take_byte<F: io::Read>(from: &mut F) -> io::Result<Option<u8>> {
    let mut byte = [0u8; 1];
    let got = from.read(&mut byte)?;
    Ok(if got == 0 { None } else { Some(byte[0]) })
}

// The bytes up to 0x0A or the end: what the buffer holds of them is all that is read.
fn line<F: io::Read>(from: &mut F, buf: &mut [u8]) -> io::Result<usize>
    ensures { ReadsAtMost result buf.new }
{
    let mut n = 0;
    for slot in buf.iter_mut() {
        match take_byte(from)? {
            Some(0x0A) | None => break,
            Some(byte) => {
                *slot = byte;
                n += 1;
            }
        }
    }
    Ok(n)
}

// The section's name, "up to 0x0A or its end"; none where it can't be read.
pub fn name<R: Input + Eprint + AllocGlobal>(rt: &R, buf: &mut [u8]) -> Option<usize>
    ensures { IfSome result (λ n. IsPrefixLen n buf.new) }
{
    told(rt, "standard input", line(&mut rt.reader(), buf))
}

// A string as the row and the length of SVn.
ghost use Rattle.std.specs.Prelude.{◌≡◌, length, take};
ghost use Rattle.std.proofs.lemmas.List.Edits.{sets};
ghost use Rattle.values.specs.Inner.Texts.{zeros, cased};
ghost use Rattle.commands.specs.Inner.Assigning.{Rowed, PutsString, StoresString};

use crate::settle;
use meaning::refusal::Refusal;
use values::registers::Words;
use values::worth::Worth;
use values::{registers, string};

// The first 16 bytes, in upper case where the flag is set.
fn copied(bytes: &[u8], raised: bool) -> [u8; 16]
    ensures { result ≡ sets zeros 0 (take 16 (cased raised bytes.now)) }
{
    let mut row = [0; 16];
    for j in 0..count_of(bytes) {
        row[j] = string::letter(raised, bytes[j]);
    }
    row
}

// How many these are: "SV1–SV99 hold up to 16 bytes each".
fn count_of(bytes: &[u8]) -> usize
    ensures { result ≡ length (take 16 bytes.now) }
{
    bytes.len().min(16)
}

// SVn; any other stays.
fn put(strings: &mut [[u8; 16]; 99], words: &mut Words, n: usize, row: [u8; 16], count: usize)
    requires { Rowed strings.old }
    ensures { PutsString strings.old words.old n (take count row) strings.new words.new }
{
    if n < 1 || 99 < n {
        return;
    }
    strings[n - 1] = row;
    registers::put(words, registers::LENGTHS, 99, n, count as u64);
}

// The string of a value as SVn, or the refusal. The bytes are copied before SVn is set: they may be its own.
#[tactic(auto, unfolding(crate::specs::Setting::as_variable, crate::specs::Setting::string_new))]
pub fn stored<'a>(
    line: &'a [u8],
    store: &'a [u8],
    strings: &mut [[u8; 16]; 99],
    words: &mut Words,
    n: usize,
    worth: Worth,
) -> Result<(), Refusal>
    requires { Rowed strings.old }
    ensures { StoresString line.now store.now strings.old words.old n worth strings.new words.new result }
{
    let text = settle::text_of(worth)?;
    let row = string::row_for(strings, text.source);
    let bytes = string::bytes_of(line, store, &row, text);
    let copy = copied(bytes, text.upper);
    put(strings, words, n, copy, count_of(bytes));
    Ok(())
}

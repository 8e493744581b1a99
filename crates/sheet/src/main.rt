// The program `sheet`: prints a section of the file `template` over the file `store`, both in the working folder, then a line
// with the number, the line, the pages, the text bytes and the questions. The section's name comes from standard input.
#![tactic(auto)]

mod file; // file.rt: what is read
mod printing; // printing.rt: the report

use report::Report;
use std::io;

// The closing line.
fn close(rt: &impl Print, made: Report) -> io::Result<()> {
    let Report {
        number,
        line,
        pages,
        bytes,
        questions,
    } = made;
    println!(rt; "{number} {line} {pages} {bytes} {questions}")
}

// The report of what was read, printed. "Its text buffer has 65,536 bytes"
fn print<'a>(
    rt: &impl Print,
    template: &'a [u8],
    section: &'a [u8],
    store: &'a [u8],
) -> io::Result<()> {
    let mut text = [0u8; 65536];
    let made = printing::sheet(template, section, store, store.len(), &mut text);
    let n = made.bytes;
    rt.write_all(&text[..n])?;
    close(rt, made)
}

// No more is read than counts: sections are compared by the first eight bytes of their names, a template of 32,769 bytes is as
// wrong as a longer one, and so is a store of 65,537.
fn main(rt: HostRuntime) -> io::Result<()> {
    let mut name = [0u8; 8];
    let Some(named) = file::name(&rt, &mut name) else {
        return Ok(());
    };
    let mut template = [0u8; 32769];
    let Some(lines) = file::load(&rt, "template", &mut template) else {
        return Ok(());
    };
    let mut store = [0u8; 65537];
    let Some(cells) = file::load(&rt, "store", &mut store) else {
        return Ok(());
    };
    print(&rt, &template[..lines], &name[..named], &store[..cells])
}

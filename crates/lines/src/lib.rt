// The lines of a template, as document 01 says under "Lines and arguments" and "Commands".
//
// command::parse_line   a line's command with its arguments, a text, or that the line has no form
// command::form_of      the same of a line that has a form, without judging its text again
#![tactic(auto)]

pub mod command; // command.rt: what a line is, and which command stands in it
mod word; // word.rt: which command's word stands in a line
mod behind; // behind.rt: one space before each argument
mod set; // set.rt: $SETE, $SETA, $SETS, $SETM, $SETD, $SETDS
mod compare; // compare.rt: $IFEQ and its like, which take two arguments
mod simple; // simple.rt: commands of one argument, of none, and of one that may be absent
mod fetch; // fetch.rt: $REC, $TBL
mod title; // title.rt: $SEC, $PH, $REM, which take a name, a text, or anything

//! Answers to rows about the language: texts and their tokens, packages and their faults, values and summaries, scopes, and the
//! machine's images.
#![tactic(auto)]

mod asking;
mod images;
mod laws;
mod notation;
mod objects;
mod packages;
mod runs;
mod scopes;
mod sources;
mod summaries;
mod texts;
mod tokens;
mod values;

use asking::LanguageRows;
use laws::call_laws;
use std::io;
use std::io::Write;
use test_rows::answers::tell_table;

fn main(rt: HostRuntime) -> io::Result<()> {
    call_laws();
    let table = io::read_to_string(rt.alloc(), rt.stdin())?;
    let mut rows = LanguageRows::new(rt.alloc());
    let told = tell_table(rt.alloc(), &mut rows, &table)?;
    rt.stdout().write_all(told.as_bytes())
}

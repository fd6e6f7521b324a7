//! The program: `goset`, a replicated workspace with a shared build cache, driven by a script on standard
//! input and kept between runs where it is asked for; and `goset run`, which runs a Go program.
#![tactic(auto)]

use goset_cli::ends::{FromReader, ToWriter};
use goset_cli::keep::run_keep_words;
use goset_cli::kept_files::KeptFiles;
use goset_cli::program::{refuse_words, run_words};
use goset_cli::run::{refuse_run_words, run_program};
use goset_cli::status::code_of;
use goset_cli::words::{asks_to_keep, words_of_run};
use std::env::Env;
use std::process::ExitCode;
use std::sync::Wait;
use std::thread::{Builder, Threads};
use std::{env, io};

/// How many bytes of stack the work has.
const STACK: usize = 16 << 20;

fn words_of(rt: &HostRuntime) -> io::Result<Vec<String>> {
    Ok(env::args(rt)?.collect(rt.alloc())?)
}

// Whether the words ask for a run, where one of them isn't UTF-8.
fn is_run(rt: &HostRuntime) -> bool {
    let mut word = [0u8; 4];
    matches!(rt.arg(1, &mut word), Ok(3)) && word.starts_with(b"run")
}

// What the words ask for, and the status. The one runtime starts threads, and the other has the
// files and the ends.
fn work<T: Threads + Wait + Sync>(rt: &T, host: &HostRuntime) -> u8 {
    match words_of(host) {
        Ok(words) => run(rt, host, words.as_slice()),
        Err(error) => refuse(host, &error),
    }
}

// The same of words that are all UTF-8.
fn run<T: Threads + Wait + Sync>(rt: &T, host: &HostRuntime, words: &[String]) -> u8 {
    let mut output = ToWriter::new(host.stdout());
    let mut errors = ToWriter::new(host.stderr());
    if let Some(asked) = words_of_run(words) {
        return run_program(rt, host, asked, &mut output, &mut errors);
    }
    let alloc = host.alloc();
    let mut input = FromReader::new(host.stdin());
    if asks_to_keep(words) {
        let mut files = KeptFiles::new(host);
        let ended = run_keep_words(
            rt,
            alloc,
            words,
            &mut files,
            &mut input,
            &mut output,
            &mut errors,
        );
        return code_of(ended);
    }
    let ended = run_words(rt, alloc, words, &mut input, &mut output, &mut errors);
    code_of(ended)
}

// Says why nothing is done, and answers the status.
fn refuse(rt: &HostRuntime, error: &io::Error) -> u8 {
    let mut errors = ToWriter::new(rt.stderr());
    if is_run(rt) {
        refuse_run_words(error, &mut errors)
    } else {
        code_of(refuse_words(error, &mut errors))
    }
}

// The work has a thread of its own, whose stack doesn't depend on the system's limits. Where no
// thread can be made, memory ran out.
fn main(rt: HostRuntime) -> ExitCode {
    let thread = Builder::new()
        .stack_size(STACK)
        .spawn(&rt, move || work(&rt, &rt));
    let status = match thread {
        Ok(thread) => thread.join(&rt),
        Err(_) => refuse(&rt, &io::Error::from(io::ErrorKind::OutOfMemory)),
    };
    ExitCode::from(status)
}

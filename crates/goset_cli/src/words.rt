//! What the words of the command line ask for, as clap reads them.
ghost use Rattle.std.specs.Prelude.{◌≡◌, ◌≤◌, [], IfOk, codes, false, map, option_map, unwrap_or};
ghost use Rattle.std.specs.List.{list_any};
ghost use Rattle.clap.specs.Words.{FailsBy, IsPlain, IsPlainArg, app_of, found_of, matched_of, raw_values, rule_of};
ghost use Rattle.goset_cli.specs.CommandLine.{edition_at, edition_option_of, edition_option, option_faults, file_argument, goset, is_run_word};
ghost use Rattle.goset_cli.specs.CommandLine.{plain_option, run_app, run_edition_of, run_faults, run_files_of, ticks_of, value_option, wants_plain};
ghost use Rattle.goset_cli.specs.CommandLine.{words_of_run, workers_of, workers_option};
ghost use Rattle.goset_cli.specs.CommandLine.{asks_to_keep, expect_option, expected_digest, keep, keep_edition_of, keep_faults, keep_name_of, keep_option};
ghost use Rattle.goset_cli.specs.CommandLine.{keep_workers_of, names_keep};

use crate::keeping::KeepOptions;
use clap::builder::ValueParser;
use clap::{Arg, ArgAction, ArgMatches, Command, Error, value_parser};
use go_text::edition::Edition;
use std::alloc::{AllocError, Global};
use std::convert::AsStr;

/// How many workers a session has by default.
const WORKERS: u8 = 4;

/// The number of the default edition.
const EDITION: u8 = 1;

/// Which version of the program it is.
const VERSION: &str = "0.1.0";

/// What a session is run with.
#[derive(Clone, Copy, Debug, PartialEq, Eq)]
pub struct Options {
    /// How many workers, 1 to 64.
    pub workers: usize,
    /// Whose rules hold.
    pub edition: Edition,
}

/// What files are run with.
#[derive(Drop)]
pub struct RunOptions<'a> {
    /// Whose rules hold.
    pub edition: Edition,
    /// For how many ticks the program is run at most.
    pub ticks: u64,
    /// Whether each fault is one line of numbers and a word, for other programs to read.
    pub is_plain: bool,
    /// The files, or the folder, as the words name them.
    pub files: Vec<&'a str>,
}

/// The words of a run, where words ask for one: those from `run` on, where that is the first behind
/// the program's name. Others ask for a session.
pub fn words_of_run<S: AsStr>(words: &[S]) -> Option<&[S]>
    ensures { option_map (λ asked. map S.text asked.now) result ≡ words_of_run (map S.text words.now) }
{
    match words {
        [_, asked @ ..] if is_run(asked) => Some(asked),
        _ => None,
    }
}

/// Whether the words ask for a workspace that is kept: a word behind the program's name is `--keep`,
/// or begins with `--keep=`.
pub fn asks_to_keep<S: AsStr>(words: &[S]) -> bool
    ensures { result ≡ asks_to_keep (map S.text words.now) }
{
    match words {
        [_, asked @ ..] => any_names_keep(asked),
        [] => false,
    }
}

// Whether one of these words names a kept workspace.
fn any_names_keep<S: AsStr>(words: &[S]) -> bool
    ensures { result ≡ list_any names_keep (map S.text words.now) }
{
    for word in words {
        if names_keep(word.as_str()) {
            return true;
        }
    }
    false
}

// Whether a word is the option that names a kept workspace.
fn names_keep(word: &str) -> bool
    ensures { result ≡ names_keep word.now }
{
    word == "--keep" || word.starts_with("--keep=")
}

// Whether `run` is the first of words.
fn is_run<S: AsStr>(words: &[S]) -> bool
    ensures { result ≡ is_run_word (map S.text words.now) }
{
    match words {
        [first, ..] => first.as_str() == "run",
        [] => false,
    }
}

// An option that takes a value.
fn option<'a>(alloc: Global, name: &'a str, values: ValueParser<'a>, help: &'a str) -> Arg<'a>
    ensures rule { rule_of result ≡ value_option name.entry.now values.entry }
    ensures plain { IsPlainArg result }
    ensures local { result.global ≡ false }
{
    Arg::new(alloc, name)
        .long(name)
        .value_name("N")
        .value_parser(values)
        .help(help)
}

// The option that names an edition.
fn edition_option<'a>(alloc: Global) -> Arg<'a>
    ensures rule { rule_of result ≡ edition_option }
    ensures plain { IsPlainArg result }
    ensures local { result.global ≡ false }
{
    option(
        alloc,
        "edition",
        value_parser!(u8).range(1..=2),
        "The edition of the language, 1 or 2 [default: 1]",
    )
}

// The option that says how many workers build.
fn workers_option<'a>(alloc: Global) -> Arg<'a>
    ensures rule { rule_of result ≡ workers_option }
    ensures plain { IsPlainArg result }
    ensures local { result.global ≡ false }
{
    option(
        alloc,
        "workers",
        value_parser!(u8).range(1..=64),
        "How many workers build, 1 to 64 [default: 4]",
    )
}

// What clap is to read of a session's words. An `Err` is want of memory.
fn session_command<'a>(alloc: Global) -> Result<Command<'a>, AllocError>
    ensures app { IfOk result (λ command. app_of command ≡ goset) }
    ensures plain { IfOk result IsPlain }
{
    Command::new(alloc, "goset")
        .version(VERSION)
        .about("Runs the script on standard input, and writes to standard output")
        .after_help(
            "goset run FILE.. runs a Go program: see goset run --help\n\
            goset --keep FILE goes on from a kept workspace: see goset --keep FILE --help",
        )
        .arg(workers_option(alloc))?
        .arg(edition_option(alloc))
}

// The option that names where a workspace is kept.
fn keep_option<'a>(alloc: Global) -> Arg<'a>
    ensures rule { rule_of result ≡ keep_option }
    ensures plain { IsPlainArg result }
    ensures local { result.global ≡ false }
{
    option(
        alloc,
        "keep",
        ValueParser::NonEmptyString,
        "The file in which the workspace is kept; one that isn't there is an empty workspace",
    )
    .value_name("FILE")
    .required(true)
}

// The option that names the digest of what is kept.
fn expect_option<'a>(alloc: Global) -> Arg<'a>
    ensures rule { rule_of result ≡ expect_option }
    ensures plain { IsPlainArg result }
    ensures local { result.global ≡ false }
{
    option(
        alloc,
        "expect",
        ValueParser::NonEmptyString,
        "Runs nothing where the file's digest is another",
    )
    .value_name("SHA256")
}

// What clap is to read of the words of a session that goes on from a kept workspace. An `Err` is
// want of memory.
fn keep_command<'a>(alloc: Global) -> Result<Command<'a>, AllocError>
    ensures app { IfOk result (λ command. app_of command ≡ keep) }
    ensures plain { IfOk result IsPlain }
{
    Command::new(alloc, "goset")
        .version(VERSION)
        .about(
            "Runs the script on standard input behind a kept workspace, and keeps what it leaves",
        )
        .arg(keep_option(alloc))?
        .arg(workers_option(alloc))?
        .arg(edition_option(alloc))?
        .arg(expect_option(alloc))
}

// The flag that asks for faults in one line each.
fn plain_option<'a>(alloc: Global) -> Arg<'a>
    ensures rule { rule_of result ≡ plain_option }
    ensures plain { IsPlainArg result }
    ensures local { result.global ≡ false }
{
    Arg::new(alloc, "plain")
        .long("plain")
        .action(ArgAction::SetTrue)
        .value_parser(ValueParser::Bool)
        .help("Prints each fault as FILE:LINE:COLUMN: NUMBER WORD alone")
}

// What is run: files, one at least.
fn file_argument<'a>(alloc: Global) -> Arg<'a>
    ensures rule { rule_of result ≡ file_argument }
    ensures plain { IsPlainArg result }
    ensures local { result.global ≡ false }
{
    Arg::new(alloc, "file")
        .value_name("FILE")
        .num_args(1..)
        .required(true)
        .help(
            "The Go files of the program, or one folder of them, or a module: a folder with a go.mod",
        )
}

// What clap is to read of the words behind the program's name, of which the first is `run`. An
// `Err` is want of memory.
fn run_command<'a>(alloc: Global) -> Result<Command<'a>, AllocError>
    ensures app { IfOk result (λ command. app_of command ≡ run_app) }
    ensures plain { IfOk result IsPlain }
{
    let ticks = option(
        alloc,
        "ticks",
        value_parser!(u64),
        "How many ticks the program is given [default: 18446744073709551615]",
    );
    Command::new(alloc, "goset")
        .bin_name("goset run")?
        .version(VERSION)
        .about("Builds and runs the Go program that files are")
        .arg(ticks)?
        .arg(edition_option(alloc))?
        .arg(plain_option(alloc))?
        .arg(file_argument(alloc))
}

// The edition of a number that the parser lets through.
fn edition_at(number: u8) -> Edition
    ensures { result ≡ edition_at number }
{
    match number {
        2 => Edition::Two,
        _ => Edition::One,
    }
}

// The edition of a number that the parser lets through, where one is named.
fn named_edition(number: Option<u8>) -> Option<Edition>
    ensures { result ≡ option_map edition_at number }
{
    match number {
        Some(number) => Some(edition_at(number)),
        None => None,
    }
}

/// What a session is run with that these words ask for, of which the first is the program's name.
pub fn read_options<'a, S: AsStr>(alloc: Global, words: &'a [S]) -> Result<Options, Error>
    ensures workers { IfOk result (λ options. options.workers ≡ workers_of (map S.text words.entry.now)) }
    ensures some { IfOk result (λ options. 1 ≤ options.workers) }
    ensures few { IfOk result (λ options. options.workers ≤ 64) }
    ensures edition { IfOk result (λ options. options.edition ≡ edition_option_of (map S.text words.entry.now)) }
    ensures refusals { FailsBy (option_faults (map S.text words.entry.now)) result }
{
    let program = session_command(alloc)?;
    let matches = program.try_get_matches_from(words)?;
    let workers = matches.get_one::<u8>("workers").unwrap_or(WORKERS);
    let edition = matches.get_one::<u8>("edition").unwrap_or(EDITION);
    Ok(Options {
        workers: usize::from(workers),
        edition: edition_at(edition),
    })
}

// The files that matches of `run` have.
fn files_in<'a>(alloc: Global, matches: &ArgMatches<'a>) -> Result<Vec<&'a str>, AllocError>
    ensures { IfOk result (λ files. map (λ file. file.now) files.items
        ≡ unwrap_or (option_map raw_values (matched_of (found_of matches.now) (codes "file"))) []) }
{
    match matches.get_strs("file") {
        Some(files) => Vec::from_slice(alloc, files),
        None => Ok(Vec::new(alloc)),
    }
}

/// What files are run with that these words ask for, which stand behind the program's name; the
/// first is `run`.
pub fn read_run_options<'a, S: AsStr>(
    alloc: Global,
    words: &'a [S],
) -> Result<RunOptions<'a>, Error>
    ensures edition { IfOk result (λ options. options.edition ≡ run_edition_of (map S.text words.entry.now)) }
    ensures ticks { IfOk result (λ options. options.ticks ≡ ticks_of (map S.text words.entry.now)) }
    ensures plain { IfOk result (λ options. options.is_plain ≡ wants_plain (map S.text words.entry.now)) }
    ensures files { IfOk result (λ options.
        map (λ file. file.now) options.files.items ≡ run_files_of (map S.text words.entry.now)) }
    ensures refusals { FailsBy (run_faults (map S.text words.entry.now)) result }
{
    let program = run_command(alloc)?;
    let matches = program.try_get_matches_from(words)?;
    let edition = matches.get_one::<u8>("edition").unwrap_or(EDITION);
    let ticks = matches.get_one::<u64>("ticks").unwrap_or(u64::MAX);
    let files = files_in(alloc, &matches)?;
    Ok(RunOptions {
        edition: edition_at(edition),
        ticks,
        is_plain: matches.get_flag("plain"),
        files,
    })
}

/// What these words ask for, which name a kept workspace; the first is the program's name.
pub fn read_keep_options<'a, S: AsStr>(
    alloc: Global,
    words: &'a [S],
) -> Result<KeepOptions<'a>, Error>
    ensures name { IfOk result (λ options. options.name.now ≡ keep_name_of (map S.text words.entry.now)) }
    ensures edition { IfOk result (λ options. options.edition ≡ keep_edition_of (map S.text words.entry.now)) }
    ensures expected { IfOk result (λ options. option_map (λ digest. digest.now) options.expected
        ≡ expected_digest (map S.text words.entry.now)) }
    ensures workers { IfOk result (λ options. options.workers ≡ keep_workers_of (map S.text words.entry.now)) }
    ensures some { IfOk result (λ options. 1 ≤ options.workers) }
    ensures few { IfOk result (λ options. options.workers ≤ 64) }
    ensures refusals { FailsBy (keep_faults (map S.text words.entry.now)) result }
{
    let program = keep_command(alloc)?;
    let matches = program.try_get_matches_from(words)?;
    let workers = matches.get_one::<u8>("workers").unwrap_or(WORKERS);
    Ok(KeepOptions {
        name: matches.get_str("keep").unwrap_or(""),
        edition: named_edition(matches.get_one::<u8>("edition")),
        expected: matches.get_str("expect"),
        workers: usize::from(workers),
    })
}

//! What a command line asks for.
ghost use Rattle.std.specs.Prelude.{◌≡◌, ◌∷◌, [], IfOk};
ghost use Rattle.ws_command.specs.Commands.{is_replica_name, is_name_byte, is_version, if_good, apply_of, of_others, pairs_of, build_of, use_of, command_of, text_lines};
ghost use Rattle.ws_command.specs.Lines.{words_of};
ghost use Rattle.ws_command.specs.Views.{command_view};

use crate::lines::{first_word, number, trimmed};
use go_text::edition::Edition;
use std::alloc::{AllocError, Global};

/// A command, whose words lie in the script.
#[derive(Debug, Drop)]
pub enum Asked<'a> {
    /// A line without words.
    Nothing,
    /// No command of the language.
    Bad,
    /// `replica R`
    Create(&'a [u8]),
    /// `write R PATH LINES`
    Write(&'a [u8], &'a [u8], u64),
    /// `remove R PATH`
    Remove(&'a [u8], &'a [u8]),
    /// `apply R PATH COUNTER NUMBER LINES`, or with `-` for LINES, a removal
    Apply {
        name: &'a [u8],
        path: &'a [u8],
        counter: u64,
        number: u32,
        lines: Option<u64>,
    },
    /// `merge R S`
    Merge(&'a [u8], &'a [u8]),
    /// `settle`
    Settle,
    /// `build R DIR [R DIR ..]`: names, each with a directory.
    Build(Vec<(&'a [u8], &'a [u8])>),
    /// `run R DIR TICKS`
    Run(&'a [u8], &'a [u8], u64),
    /// `ids R DIR`
    Ids(&'a [u8], &'a [u8]),
    /// `show R`
    Show(&'a [u8]),
    /// `edition N`
    Use(Edition),
}

impl Asked<'_> {
    /// How many lines of text follow the command's line.
    pub fn text_lines(&self) -> u64
        ensures { result ≡ text_lines (command_view self.now) }
    {
        match self {
            Asked::Write(_, _, lines) => *lines,
            Asked::Apply {
                lines: Some(lines),
                ..
            } => *lines,
            _ => 0,
        }
    }
}

fn is_name_byte(byte: u8) -> bool
    ensures { result ≡ is_name_byte byte }
{
    byte.is_ascii_digit()
        || (96 < byte && byte < 123)
        || (64 < byte && byte < 91)
        || byte == b'_'
        || byte == b'-'
}

/// Whether a word may name a replica.
pub fn is_name(word: &[u8]) -> bool
    ensures { result ≡ is_replica_name word.now }
{
    if word.is_empty() || word.len() > 32 {
        return false;
    }
    for byte in word {
        if !is_name_byte(*byte) {
            return false;
        }
    }
    true
}

fn asked_of_none(word: &[u8]) -> Asked<'static>
    ensures { command_view result ≡ of_others (word.now ∷ []) }
{
    if word == b"settle".as_slice() {
        return Asked::Settle;
    }
    Asked::Bad
}

/// The use of an edition, if there is one of that number.
fn asked_of_edition(number: Option<u64>) -> Asked<'static>
    ensures { command_view result ≡ use_of number }
{
    match number {
        Some(1) => Asked::Use(Edition::One),
        Some(2) => Asked::Use(Edition::Two),
        _ => Asked::Bad,
    }
}

fn asked_of_one<'a>(word: &[u8], a: &'a [u8]) -> Asked<'a>
    ensures { command_view result ≡ of_others (word.now ∷ a.now ∷ []) }
{
    if word == b"replica".as_slice() && is_name(a) {
        return Asked::Create(a);
    }
    if word == b"show".as_slice() && is_name(a) {
        return Asked::Show(a);
    }
    if word == b"edition".as_slice() {
        return asked_of_edition(number(a));
    }
    Asked::Bad
}

fn asked_of_two<'a>(word: &[u8], a: &'a [u8], b: &'a [u8]) -> Asked<'a>
    ensures { command_view result ≡ of_others (word.now ∷ a.now ∷ b.now ∷ []) }
{
    if word == b"merge".as_slice() {
        if is_name(a) && is_name(b) {
            return Asked::Merge(a, b);
        }
        return Asked::Bad;
    }
    if word == b"ids".as_slice() && is_name(a) {
        return Asked::Ids(a, b);
    }
    if word == b"remove".as_slice() && is_name(a) {
        return Asked::Remove(a, b);
    }
    Asked::Bad
}

fn asked_of_three<'a>(word: &[u8], a: &'a [u8], b: &'a [u8], c: &'a [u8]) -> Asked<'a>
    ensures { command_view result ≡ of_others (word.now ∷ a.now ∷ b.now ∷ c.now ∷ []) }
{
    let Some(count) = number(c) else {
        return Asked::Bad;
    };
    if !is_name(a) {
        return Asked::Bad;
    }
    if word == b"write".as_slice() {
        return Asked::Write(a, b, count);
    }
    if word == b"run".as_slice() {
        return Asked::Run(a, b, count);
    }
    Asked::Bad
}

/// A write that is applied: a number of lines, or a removal.
fn applied<'a>(name: &'a [u8], path: &'a [u8], counter: u64, writer: u64, word: &[u8]) -> Asked<'a>
    ensures { command_view result ≡ if_good (is_version counter writer) (apply_of name.now path.now counter writer word.now) }
{
    if counter == 0 || writer == 0 || writer > u32::MAX as u64 {
        return Asked::Bad;
    }
    let lines = if word == b"-".as_slice() {
        None
    } else {
        let Some(lines) = number(word) else {
            return Asked::Bad;
        };
        Some(lines)
    };
    Asked::Apply {
        name,
        path,
        counter,
        number: writer as u32,
        lines,
    }
}

fn asked_of_five<'a>(
    word: &[u8],
    a: &'a [u8],
    b: &'a [u8],
    c: &[u8],
    d: &[u8],
    e: &[u8],
) -> Asked<'a>
    ensures { command_view result ≡ of_others (word.now ∷ a.now ∷ b.now ∷ c.now ∷ d.now ∷ e.now ∷ []) }
{
    if word != b"apply".as_slice() || !is_name(a) {
        return Asked::Bad;
    }
    let Some(counter) = number(c) else {
        return Asked::Bad;
    };
    let Some(writer) = number(d) else {
        return Asked::Bad;
    };
    applied(a, b, counter, writer, e)
}

/// The command that is no build, whose words are this one and those behind it.
fn asked_of_words<'a>(word: &'a [u8], rest: &'a [u8]) -> Asked<'a>
    ensures { command_view result ≡ of_others (word.now ∷ words_of rest.now) }
{
    let Some((a, rest)) = first_word(rest) else {
        return asked_of_none(word);
    };
    let Some((b, rest)) = first_word(rest) else {
        return asked_of_one(word, a);
    };
    let Some((c, rest)) = first_word(rest) else {
        return asked_of_two(word, a, b);
    };
    let Some((d, rest)) = first_word(rest) else {
        return asked_of_three(word, a, b, c);
    };
    let Some((e, rest)) = first_word(rest) else {
        return Asked::Bad;
    };
    if first_word(rest).is_some() {
        return Asked::Bad;
    }
    asked_of_five(word, a, b, c, d, e)
}

/// The most targets that a build has.
const MOST_TARGETS: usize = 64;

/// The build whose targets are these words, two and two.
fn asked_of_targets(alloc: Global, words: &[u8]) -> Result<Asked<'_>, AllocError>
    ensures { IfOk result (λ asked. command_view asked ≡ build_of (pairs_of (words_of words.now))) }
{
    let mut targets = Vec::new(alloc);
    let mut rest = words;
    'targets: while let Some((name, behind)) = first_word(rest) {
        let Some((directory, behind)) = first_word(behind) else {
            return Ok(Asked::Bad);
        };
        if targets.len() == MOST_TARGETS || !is_name(name) {
            return Ok(Asked::Bad);
        }
        targets.push((name, directory))?;
        rest = behind;
    }
    if targets.is_empty() {
        return Ok(Asked::Bad);
    }
    Ok(Asked::Build(targets))
}

/// What a line asks for.
pub fn ask(alloc: Global, line: &[u8]) -> Result<Asked<'_>, AllocError>
    ensures { IfOk result (λ asked. command_view asked ≡ command_of line.now) }
{
    let Some((word, rest)) = first_word(trimmed(line)) else {
        return Ok(Asked::Nothing);
    };
    if word == b"build".as_slice() {
        return asked_of_targets(alloc, rest);
    }
    Ok(asked_of_words(word, rest))
}

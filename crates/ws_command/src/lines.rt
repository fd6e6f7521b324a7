//! Lines, words and numbers of a script.
ghost use Rattle.std.specs.Prelude.{◌≡◌, ◌+◌, ◌<◌, ◌++◌, ◌∷◌, [], length, IfOk, MatchOption, ◌≢◌, slice_index};
ghost use Rattle.ws_command.specs.Lines.{lines_of, without_return, words_of, decimal_value};
ghost use Rattle.ws_command.specs.Pieces.{without_newline, closed};

use std::alloc::{AllocError, Global};

/// The first line of what is left of a script, with its newline where it has one, and what is
/// left behind it.
pub fn cut_line(rest: &[u8]) -> (&[u8], &[u8])
    requires { 0 < length rest.now }
    ensures whole { rest.now ≡ result.0.now ++ result.1.now }
    ensures line { lines_of rest.now ≡ without_newline result.0.now ∷ lines_of result.1.now }
    ensures some { 0 < length result.0.now }
    ensures ended { 0 < length result.1.now → closed result.0.now ≡ result.0.now }
{
    for i in 0..rest.len() {
        if rest[i] == b'\n' {
            return rest.split_at(i + 1);
        }
    }
    rest.split_at(rest.len())
}

/// The first line of what is left of a script, without its newline, and what is left behind it.
pub fn next_line(rest: &[u8]) -> (&[u8], &[u8])
    requires { 0 < length rest.now }
    ensures line { lines_of rest.now ≡ result.0.now ∷ lines_of result.1.now }
    ensures shorter { length result.1.now < length rest.now }
{
    match cut_line(rest) {
        ([line @ .., b'\n'], behind) => (line, behind),
        (line, behind) => (line, behind),
    }
}

/// A copy of lines of text, with a newline at the end of the last one.
pub fn closed(alloc: Global, text: &[u8]) -> Result<Vec<u8>, AllocError>
    ensures { IfOk result (λ closed_text. closed_text.items ≡ closed text.now) }
{
    match text {
        [] | [.., b'\n'] => Vec::from_slice(alloc, text),
        _ => {
            let mut copy = Vec::with_capacity(alloc, text.len() + 1)?;
            copy.extend_from_slice(text)?;
            copy.push(b'\n')?;
            Ok(copy)
        }
    }
}

/// A line without a carriage return at its end.
pub fn trimmed(line: &[u8]) -> &[u8]
    ensures { result.now ≡ without_return line.now }
{
    match line {
        [front @ .., b'\r'] => front,
        _ => line,
    }
}

/// A line without the spaces at its beginning.
fn skip_spaces(line: &[u8]) -> &[u8]
    ensures same { words_of result.now ≡ words_of line.now }
    ensures word { 0 < length result.now → slice_index result.now 0 ≢ 32 }
{
    for i in 0..line.len() {
        if line[i] != b' ' {
            return line.split_at(i).1;
        }
    }
    &[]
}

/// The word at the beginning of a line, and what is left behind it.
fn cut_word(line: &[u8]) -> (&[u8], &[u8])
    requires some { 0 < length line.now }
    requires word { slice_index line.now 0 ≢ 32 }
    ensures { words_of line.now ≡ result.0.now ∷ words_of result.1.now }
{
    for i in 0..line.len() {
        if line[i] == b' ' {
            return line.split_at(i);
        }
    }
    line.split_at(line.len())
}

/// The first word of a line, and what is left behind it.
pub fn first_word(line: &[u8]) -> Option<(&[u8], &[u8])>
    ensures { MatchOption result
        (words_of line.now ≡ [])
        (λ cut. words_of line.now ≡ cut.0.now ∷ words_of cut.1.now) }
{
    let line = skip_spaces(line);
    if line.is_empty() {
        return None;
    }
    Some(cut_word(line))
}

/// The number that digits spell, where it fits.
pub fn number(word: &[u8]) -> Option<u64>
    ensures { result ≡ decimal_value word.now }
{
    if word.is_empty() {
        return None;
    }
    let mut value = 0u64;
    for digit in word {
        if !digit.is_ascii_digit() {
            return None;
        }
        match value.checked_mul(10) {
            Some(tens) => match tens.checked_add((*digit - b'0') as u64) {
                Some(next) => value = next,
                None => return None,
            },
            None => return None,
        }
    }
    Some(value)
}

//! The path of a module, which its go.mod names.
//! [Module directive](https://go.dev/ref/mod#go-mod-file-module)
ghost use Rattle.std.specs.Prelude.{◌≡◌, IfOk, map, option_map};
ghost use Rattle.ws_command.specs.Lines.{lines_of, words_of};
ghost use Rattle.ws_module.specs.Modules.{is_module, opens_block, is_lone_word, module_of, module_word, only_word, spaced, uncommented};
ghost use Rattle.ws_module.specs.Modules.{unquoted, word_behind, word_in_block};

use std::alloc::{AllocError, Global};
use ws_command::lines::{first_word, next_line};

/// A space for each blank, and other bytes as they are.
fn spaced(byte: u8) -> u8
    ensures { result ≡ spaced byte }
{
    match byte {
        b'\t' | b'\r' => b' ',
        _ => byte,
    }
}

/// What stands before a comment.
fn uncommented(line: &[u8]) -> &[u8]
    ensures { result.now ≡ uncommented line.now }
{
    let mut at = 0;
    while at < line.len() {
        let (front, back) = line.split_at(at);
        if back.starts_with(b"//") {
            return front;
        }
        at += 1;
    }
    line
}

/// The word of a line that has one alone.
fn only_word(line: &[u8]) -> Option<&[u8]>
    ensures { option_map (λ word. word.now) result ≡ only_word (words_of line.now) }
{
    let (word, behind) = first_word(line)?;
    match first_word(behind) {
        Some(_) => None,
        None => Some(word),
    }
}

/// The word behind the first, of a line that has two.
fn word_behind(line: &[u8]) -> Option<&[u8]>
    ensures { option_map (λ word. word.now) result ≡ word_behind (words_of line.now) }
{
    let (_, behind) = first_word(line)?;
    only_word(behind)
}

/// Whether a line begins with the directive `module`.
fn is_module(line: &[u8]) -> bool
    ensures { result ≡ is_module (words_of line.now) }
{
    match first_word(line) {
        Some((word, _)) => word == b"module".as_slice() || word == b"module(".as_slice(),
        None => false,
    }
}

/// Whether a line is this word alone.
fn is_word(line: &[u8], word: &[u8]) -> bool
    ensures { result ≡ is_lone_word word.now (words_of line.now) }
{
    match only_word(line) {
        Some(only) => only == word,
        None => false,
    }
}

/// Whether a line that begins with `module` opens a block.
fn is_open(line: &[u8]) -> bool
    ensures { result ≡ opens_block (words_of line.now) }
{
    match word_behind(line) {
        Some(word) => word == b"(".as_slice(),
        None => is_word(line, b"module("),
    }
}

/// The word of a block, whose only line it is; the block's first line stands before these.
fn word_in_block(lines: &[u8]) -> Option<&[u8]>
    ensures { option_map (λ word. word.now) result ≡ word_in_block (lines_of lines.now) }
{
    if lines.is_empty() {
        return None;
    }
    let (line, behind) = next_line(lines);
    if behind.is_empty() {
        return None;
    }
    let (close, _) = next_line(behind);
    if is_word(uncommented(close), b")") {
        only_word(uncommented(line))
    } else {
        None
    }
}

/// The word of the first directive `module`, on its line or in its block.
fn module_word(lines: &[u8]) -> Option<&[u8]>
    ensures { option_map (λ word. word.now) result ≡ module_word (lines_of lines.now) }
{
    let mut rest = lines;
    while !rest.is_empty() {
        let (line, behind) = next_line(rest);
        let line = uncommented(line);
        if is_module(line) {
            return if is_open(line) {
                word_in_block(behind)
            } else {
                word_behind(line)
            };
        }
        rest = behind;
    }
    None
}

/// A word without the quotation marks around it, of either kind.
fn unquoted(word: &[u8]) -> &[u8]
    ensures { result.now ≡ unquoted word.now }
{
    match word {
        [b'"', inner @ .., b'"'] | [b'`', inner @ .., b'`'] => inner,
        _ => word,
    }
}

/// The path of the module that a go.mod names; none where it names none. An `Err` is want of
/// memory.
pub fn module_of(alloc: Global, text: &[u8]) -> Result<Option<Vec<u8>>, AllocError>
    ensures { IfOk result (λ path. option_map (λ path. path.items) path ≡ module_of text.now) }
{
    let lines: Vec<u8> = text.iter().map(|byte| spaced(*byte)).collect(alloc)?;
    match module_word(lines.as_slice()) {
        Some(word) => Ok(Some(Vec::from_slice(alloc, unquoted(word))?)),
        None => Ok(None),
    }
}

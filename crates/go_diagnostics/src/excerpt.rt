//! The line of a place, and below it a caret.
ghost use Rattle.std.specs.Prelude.{◌≡◌, ◌++◌, ◌≤◌, length, OnOk};
ghost use Rattle.go_diagnostics.specs.Excerpts.{line_len, from_line, line_at, pad_of, padding, dots, source_line, caret_line, pointed, excerpt};

use go_text::place::{Place, mark_size};
use std::alloc::{AllocError, Global};

/// How many bytes stand before the first newline, or how many there are.
fn line_len(text: &[u8]) -> usize
    ensures value { result ≡ line_len text.now }
    ensures within { result ≤ length text.now }
{
    let mut len = 0;
    for byte in text {
        if *byte == b'\n' {
            return len;
        }
        len += 1;
    }
    len
}

/// A text from the line on with so many before it.
fn from_line(text: &[u8], count: u32) -> &[u8]
    ensures { result.now ≡ from_line count text.now }
{
    let mut rest = text;
    let mut left = count;
    while let [byte, others @ ..] = rest {
        if left == 0 {
            return rest;
        }
        if *byte == b'\n' {
            left -= 1;
        }
        rest = others;
    }
    rest
}

/// The line of a text with that number, without its newline.
pub fn line_at(text: &[u8], number: u32) -> &[u8]
    ensures { result.now ≡ line_at text.now number }
{
    let rest = from_line(&text[mark_size(text)..], number.saturating_sub(1));
    &rest[..line_len(rest)]
}

/// Adds bytes.
pub fn push(out: &mut Vec<u8>, text: &[u8]) -> Result<(), AllocError>
    ensures { OnOk result (out.new.items ≡ out.old.items ++ text.now) }
{
    out.extend_from_slice(text)
}

/// What stands below a byte: a tab below a tab, and a blank below each other character.
fn pad_of(byte: u8) -> &'static [u8]
    ensures { result.now ≡ pad_of byte }
{
    if byte == b'\t' {
        b"\t"
    } else if 128 <= byte && byte < 192 {
        b""
    } else {
        b" "
    }
}

/// What stands below bytes.
fn push_padding(out: &mut Vec<u8>, bytes: &[u8]) -> Result<(), AllocError>
    ensures { OnOk result (out.new.items ≡ out.old.items ++ padding bytes.now) }
{
    for byte in bytes {
        push(out, pad_of(*byte))?;
    }
    Ok(())
}

/// Two dots for what isn't shown.
fn dots(is_cut: bool) -> &'static [u8]
    ensures { result.now ≡ dots is_cut }
{
    if is_cut { b".." } else { b"" }
}

/// What is shown of a line, behind its number.
fn push_source_line(
    out: &mut Vec<u8>,
    number: &[u8],
    line: &[u8],
    start: usize,
    end: usize,
) -> Result<(), AllocError>
    requires order { start ≤ end }
    requires within { end ≤ length line.now }
    ensures { OnOk result (out.new.items ≡ out.old.items ++ source_line number.now line.now start end) }
{
    push(out, b"    ")?;
    push(out, number)?;
    push(out, b" | ")?;
    push(out, dots(0 < start))?;
    push(out, &line[start..end])?;
    push(out, dots(end < line.len()))?;
    push(out, b"\n")
}

/// The line below it, with a caret below the place.
fn push_caret_line(
    out: &mut Vec<u8>,
    number: &[u8],
    start: usize,
    before: &[u8],
) -> Result<(), AllocError>
    ensures { OnOk result (out.new.items ≡ out.old.items ++ caret_line number.now start before.now) }
{
    push(out, b"    ")?;
    push_padding(out, number)?;
    push(out, b" | ")?;
    push_padding(out, dots(0 < start))?;
    push_padding(out, before)?;
    push(out, b"^\n")
}

/// A line with its number, and a caret below one of its bytes, or behind the last. Of a line of more
/// than 100 bytes so many are shown, 50 of them before the place.
fn push_pointed(out: &mut Vec<u8>, number: &[u8], line: &[u8], at: usize) -> Result<(), AllocError>
    requires { at ≤ length line.now }
    ensures { OnOk result (out.new.items ≡ out.old.items ++ pointed number.now line.now at) }
{
    let start = if line.len() <= 100 {
        0
    } else {
        at.saturating_sub(50)
    };
    let end = if line.len() - start <= 100 {
        line.len()
    } else {
        start + 100
    };
    push_source_line(out, number, line, start, end)?;
    push_caret_line(out, number, start, &line[start..at])
}

/// The line of a place in a text, and a caret below the place.
pub fn push_excerpt(
    alloc: Global,
    out: &mut Vec<u8>,
    text: &[u8],
    place: Place,
) -> Result<(), AllocError>
    ensures { OnOk result (out.new.items ≡ out.old.items ++ excerpt text.now place) }
{
    let line = line_at(text, place.line);
    let at = (place.column.saturating_sub(1) as usize).min(line.len());
    let number = place.line.to_string(alloc)?;
    push_pointed(out, number.as_bytes(), line, at)
}

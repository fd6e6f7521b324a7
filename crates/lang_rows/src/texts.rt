//! Texts as rows write them, with signs for what a reader can't tell from something else: `␍` for a
//! carriage return, `␊` for a newline, `␠` for a space at the end, `⟦U+FEFF⟧` for the character of a number; and
//! `⟦9:a¦b¦c⟧` for nine times `a`, then `b`, and nine times `c`.
use std::alloc::Global;
use test_rows::answers::RowError;

/// The text that a row writes by signs.
pub(crate) fn written(alloc: Global, row: &str) -> Result<String, RowError> {
    let row = row.replace(alloc, "␍", "\r")?;
    let row = row.as_str().replace(alloc, "␊", "\n")?;
    let row = row.as_str().replace(alloc, "␠", " ")?;
    let mut pieces = row.as_str().split('⟦');
    let mut text = String::from_str(alloc, pieces.next().unwrap_or(""))?;
    for piece in pieces {
        let (sign, tail) = piece.split_once('⟧').ok_or(RowError::NoRow)?;
        text.push_str(&meant(alloc, sign)?)?;
        text.push_str(tail)?;
    }
    Ok(text)
}

/// What stands for a sign.
fn meant(alloc: Global, sign: &str) -> Result<String, RowError> {
    match sign.strip_prefix("U+") {
        Some(number) => character(alloc, number),
        None => repeated(alloc, sign),
    }
}

/// The character of a hexadecimal number.
fn character(alloc: Global, number: &str) -> Result<String, RowError> {
    let Ok(number) = u32::from_str_radix(number, 16) else {
        return Err(RowError::NoRow);
    };
    let mut text = String::new(alloc);
    text.push(char::from_u32(number).ok_or(RowError::NoRow)?)?;
    Ok(text)
}

/// Of `9:a¦b¦c` nine times `a`, then `b`, and nine times `c`.
fn repeated(alloc: Global, parts: &str) -> Result<String, RowError> {
    let (count, parts) = parts.split_once(':').ok_or(RowError::NoRow)?;
    let (opener, parts) = parts.split_once('¦').ok_or(RowError::NoRow)?;
    let (core, closer) = parts.split_once('¦').ok_or(RowError::NoRow)?;
    let Ok(count) = count.parse::<usize>() else {
        return Err(RowError::NoRow);
    };
    let opener = opener.repeat(alloc, count)?;
    let closer = closer.repeat(alloc, count)?;
    Ok(format!(in alloc; "{opener}{core}{closer}")?)
}

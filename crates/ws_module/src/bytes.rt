//! The texts of sources, from the bytes that their files have.
ghost use Rattle.std.specs.Prelude.{◌≡◌, ◌+◌, ◌<◌, ◌^◌, take, IfOk, IfErr, IfSome, OnOk, None};
ghost use Rattle.go_text.specs.Texts.{text_error};
ghost use Rattle.ws_module.specs.Reasons.{WhyNoText};

use crate::unread::Unread;
use go_text::edition::Edition;
use go_text::text::{Text, TextError};
use std::alloc::Global;
use std::io;
use std::io::Read;

/// What a reader has left, up to a byte more than the limit.
pub fn bytes_of<R: Read + Drop>(alloc: Global, limit: usize, reader: R) -> io::Result<Vec<u8>>
    requires fits { limit + 1 < 2 ^ 64 }
    ensures bytes { IfSome (R.remaining reader) (λ left. IfOk result (λ bytes. bytes.items ≡ take (limit + 1) left)) }
{
    let mut bytes = Vec::new(alloc);
    reader.take(limit as u64 + 1).read_to_end(&mut bytes)?;
    Ok(bytes)
}

/// The text that bytes are in an edition, or why they are none; nothing where memory ran out.
pub fn text_in(alloc: Global, edition: Edition, bytes: Vec<u8>) -> Result<Text, Option<Unread>>
    ensures ok { IfOk result (λ text. text ≡ bytes.items) }
    ensures allowed { OnOk result (text_error edition bytes.items ≡ None) }
    ensures refused { IfErr result (λ why. IfSome why (WhyNoText edition bytes.items)) }
{
    if bytes.len() > edition.text_limit() {
        return Err(Some(Unread::Long(edition)));
    }
    let Ok(text) = String::from_utf8(bytes) else {
        return Err(Some(Unread::NoText));
    };
    match Text::new_in(alloc, edition, text) {
        Ok(text) => Ok(text),
        Err(TextError::Memory) => Err(None),
        Err(_) => Err(Some(Unread::NoText)),
    }
}

//! What the texts of tokens mean.
ghost use Rattle.std.specs.Prelude.{◌≡◌, IfOk, IsUtf8};
ghost use Rattle.go_ast.specs.Literals.{string_value, rune_value};

use go_ast::spelling::Spelling;
use go_scan::values;
use std::alloc::{AllocError, Global};

/// The bytes that a string literal means.
pub fn string_value(alloc: Global, text: &[u8]) -> Result<Vec<u8>, AllocError>
    ensures { IfOk result (λ v. v.items ≡ string_value text.now) }
{
    let value = values::string_bytes(alloc, text)?;
    Ok(value)
}

/// The code point that a rune literal means.
pub(crate) fn rune_value(text: &[u8]) -> u32
    ensures { result ≡ rune_value text.now }
{
    let code = values::rune_code(text);
    code
}

/// The spelling that bytes are.
pub(crate) fn text_from(alloc: Global, bytes: &[u8]) -> Result<Spelling, AllocError>
    requires { IsUtf8 bytes.now }
    ensures { IfOk result (λ s. s ≡ bytes.now) }
{
    let text = str::from_utf8(bytes).unwrap();
    Spelling::new(alloc, text)
}

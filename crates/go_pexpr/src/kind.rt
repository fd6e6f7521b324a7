//! Kinds of tokens are compared.
ghost use Rattle.std.specs.Prelude.{◌≡◌, ◌↔◌, IsTrue};

use go_scan::token::{Token, TokenKind};

/// Whether a token is of a kind.
pub(crate) fn is_kind(token: Token, kind: TokenKind) -> bool
    ensures { IsTrue result ↔ (token.kind ≡ kind) }
{
    token.kind == kind
}

//! Names that tell what stands at a place.
ghost use Rattle.std.specs.Prelude.{◌≡◌, map, option_map};
ghost use Rattle.go_diagnostics.specs.Tokens.{token_bytes, name_here};
ghost use Rattle.go_diagnostics.specs.Names.{messages_of, message_named, first_message, message_here, message_at};

use crate::literals::literal_message;
use crate::message::Message;
use crate::table::{first_of, rows_of, rows_of_edition};
use go_scan::token::{Token, TokenKind};
use go_text::edition::Edition;
use go_text::fault::FaultKind;

/// The bytes of a token in a text; an inserted semicolon has none.
pub fn token_bytes(text: &[u8], token: Token) -> &[u8]
    ensures { result.now ≡ token_bytes text.now token }
{
    let start = token.start as usize;
    let end = token.end as usize;
    if start <= end && end <= text.len() {
        &text[start..end]
    } else {
        &[]
    }
}

/// The name that tokens begin with, if they do.
pub fn name_here<'a>(text: &'a [u8], from: &[Token]) -> Option<&'a [u8]>
    ensures { option_map (λ name. name.now) result ≡ name_here text.now from.now }
{
    let [token, ..] = from else {
        return None;
    };
    if token.kind == TokenKind::Name {
        Some(token_bytes(text, *token))
    } else {
        None
    }
}

/// A name, and what is said where it stands.
type Named = (&'static str, Message);

/// Names of which something is said where a fault of a kind stands: those that Go declares and the
/// subset or its first edition leaves out, functions that take operands of some types alone, and fmt.
fn names_of(kind: FaultKind) -> &'static [Named]
    ensures { map (λ r. (r.0.now, r.1)) result.now ≡ messages_of kind }
{
    match kind {
        FaultKind::LeftOut => &[
            ("_", Message::UnnamedFields),
            ("any", Message::Interfaces),
            ("append", Message::SliceFunctions),
            ("cap", Message::SliceFunctions),
            ("clear", Message::Clear),
            ("close", Message::Channels),
            ("comparable", Message::Interfaces),
            ("complex", Message::Floats),
            ("complex128", Message::Floats),
            ("complex64", Message::Floats),
            ("copy", Message::Copy),
            ("delete", Message::Clear),
            ("error", Message::Errors),
            ("float32", Message::Floats),
            ("float64", Message::Floats),
            ("imag", Message::Floats),
            ("make", Message::SliceFunctions),
            ("max", Message::MinMax),
            ("min", Message::MinMax),
            ("new", Message::Pointers),
            ("nil", Message::Nil),
            ("print", Message::Print),
            ("println", Message::Print),
            ("real", Message::Floats),
            ("recover", Message::Recover),
            ("uintptr", Message::Uintptr),
        ],
        FaultKind::Mismatch => &[
            ("append", Message::AppendOperand),
            ("cap", Message::CapOperand),
            ("fmt", Message::PrintlnOperand),
            ("len", Message::LenOperand),
            ("make", Message::MakeOperand),
        ],
        FaultKind::Undeclared => &[("fmt", Message::FmtNames)],
        _ => &[],
    }
}

/// What is said of a name.
fn message_named(names: &[Named], name: &[u8]) -> Option<Message>
    ensures { result ≡ message_named (map (λ r. (r.0.now, r.1)) names.now) name.now }
{
    for (spelling, message) in names {
        if spelling.as_bytes() == name {
            return Some(*message);
        }
    }
    None
}

/// What is said of the name that tokens begin with.
fn message_here(names: &[Named], text: &[u8], from: &[Token]) -> Option<Message>
    ensures { result ≡ message_here (map (λ r. (r.0.now, r.1)) names.now) text.now from.now }
{
    match name_here(text, from) {
        Some(name) => message_named(names, name),
        None => None,
    }
}

/// The first, if there is one, else the second.
fn either(first: Option<Message>, second: Option<Message>) -> Option<Message>
    ensures { result ≡ first_message first second }
{
    match first {
        Some(message) => Some(message),
        None => second,
    }
}

/// What is said of a place at which a fault of a kind stands, by the tokens around it.
pub fn message_at(
    edition: Edition,
    kind: FaultKind,
    text: &[u8],
    before: &[Token],
    from: &[Token],
) -> Option<Message>
    ensures { result ≡ message_at edition kind text.now before.now from.now }
{
    let named = message_here(names_of(kind), text, from);
    let newer = first_of(rows_of_edition(edition, kind), before, from);
    let formed = either(newer, first_of(rows_of(kind), before, from));
    either(named, either(formed, literal_message(kind, from)))
}

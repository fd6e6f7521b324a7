//! Kinds of tokens, by short names.
use go_scan::keyword::Keyword;
use go_scan::punctuation::Punctuation;
use go_scan::token::TokenKind;

pub(crate) const STRING: TokenKind = TokenKind::String;

pub(crate) const OPENING: TokenKind = TokenKind::Punctuation(Punctuation::OpenParenthesis);

pub(crate) const COMMA: TokenKind = TokenKind::Punctuation(Punctuation::Comma);

pub(crate) const SEMICOLON: TokenKind = TokenKind::Punctuation(Punctuation::Semicolon);

pub(crate) const CONST: TokenKind = TokenKind::Keyword(Keyword::Const);

pub(crate) const FUNC: TokenKind = TokenKind::Keyword(Keyword::Func);

pub(crate) const IMPORT: TokenKind = TokenKind::Keyword(Keyword::Import);

pub(crate) const PACKAGE: TokenKind = TokenKind::Keyword(Keyword::Package);

pub(crate) const TYPE: TokenKind = TokenKind::Keyword(Keyword::Type);

pub(crate) const VAR: TokenKind = TokenKind::Keyword(Keyword::Var);

//! Kinds of tokens, by short names.
use go_scan::keyword::Keyword;
use go_scan::punctuation::Punctuation;
use go_scan::token::TokenKind;

pub(crate) const ASSIGN: TokenKind = TokenKind::Punctuation(Punctuation::Assign);

pub(crate) const DEFINE: TokenKind = TokenKind::Punctuation(Punctuation::Define);

pub(crate) const INCREMENT: TokenKind = TokenKind::Punctuation(Punctuation::Increment);

pub(crate) const DECREMENT: TokenKind = TokenKind::Punctuation(Punctuation::Decrement);

pub(crate) const OPENING: TokenKind = TokenKind::Punctuation(Punctuation::OpenParenthesis);

pub(crate) const CLOSING: TokenKind = TokenKind::Punctuation(Punctuation::CloseParenthesis);

pub(crate) const OPENING_BRACE: TokenKind = TokenKind::Punctuation(Punctuation::OpenBrace);

pub(crate) const CLOSING_BRACE: TokenKind = TokenKind::Punctuation(Punctuation::CloseBrace);

pub(crate) const COMMA: TokenKind = TokenKind::Punctuation(Punctuation::Comma);

pub(crate) const COLON: TokenKind = TokenKind::Punctuation(Punctuation::Colon);

pub(crate) const SEMICOLON: TokenKind = TokenKind::Punctuation(Punctuation::Semicolon);

pub(crate) const BREAK: TokenKind = TokenKind::Keyword(Keyword::Break);

pub(crate) const CASE: TokenKind = TokenKind::Keyword(Keyword::Case);

pub(crate) const CONST: TokenKind = TokenKind::Keyword(Keyword::Const);

pub(crate) const CONTINUE: TokenKind = TokenKind::Keyword(Keyword::Continue);

pub(crate) const DEFAULT: TokenKind = TokenKind::Keyword(Keyword::Default);

pub(crate) const ELSE: TokenKind = TokenKind::Keyword(Keyword::Else);

pub(crate) const FALLTHROUGH: TokenKind = TokenKind::Keyword(Keyword::Fallthrough);

pub(crate) const FOR: TokenKind = TokenKind::Keyword(Keyword::For);

pub(crate) const IF: TokenKind = TokenKind::Keyword(Keyword::If);

pub(crate) const RANGE: TokenKind = TokenKind::Keyword(Keyword::Range);

pub(crate) const RETURN: TokenKind = TokenKind::Keyword(Keyword::Return);

pub(crate) const SWITCH: TokenKind = TokenKind::Keyword(Keyword::Switch);

pub(crate) const VAR: TokenKind = TokenKind::Keyword(Keyword::Var);

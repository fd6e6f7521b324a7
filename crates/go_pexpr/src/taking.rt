//! Takes tokens.
ghost use Rattle.std.specs.Prelude.{◌≡◌, ◌<◌, ◌≤◌, ◌↔◌, ◌⊎◌, [], Option, Some, None, OnOk, IfOk, IfErr, IsTrue};
ghost use Rattle.go_scan.specs.declared.token.TokenKind.{TokenKind};
ghost use Rattle.go_scan.specs.declared.token.TokenKind.TheVariants as kinds;
ghost use Rattle.go_ast.specs.Grammar.{period};
ghost use Rattle.go_ast.specs.Expected.{another, a_selected_name, is_never_read, begins_left_out, begins_left_out_type, is_left_out_at};
ghost use Rattle.go_ast.specs.Machine.{token, optional, names};
ghost use Rattle.go_ast.specs.Tokens.{LiesIn};
ghost use Rattle.go_ast.specs.Tokens.{lexeme, lexeme_bytes};
ghost use Rattle.go_pexpr.specs.Next.{left_out_at};
ghost use Rattle.go_pexpr.specs.Reads.{Says, First, first_kind, fault_of, left, size, lexeme_of, expected_of, ReadsAs, ReadsIf};
ghost use Rattle.go_pexpr.specs.Taking.{TakesNext, TakesNewer, Separates};

use crate::expected::Expected;
use crate::kind::is_kind;
use crate::literal::text_from;
use crate::parser::{Fault, LEVELS, Parser, Refusal};
use go_ast::name::Name;
use go_ast::spelling::Spelling;
use go_scan::keyword::Keyword;
use go_scan::punctuation::Punctuation;
use go_scan::token::{Token, TokenKind};

/// Whether a token of a kind belongs to what is left out of Go, wherever it stands.
fn is_never_read(kind: TokenKind) -> bool
    ensures { result ≡ is_never_read kind }
{
    matches!(
        kind,
        TokenKind::Keyword(
            Keyword::Chan
                | Keyword::Defer
                | Keyword::Go
                | Keyword::Goto
                | Keyword::Interface
                | Keyword::Map
                | Keyword::Select
        ) | TokenKind::Punctuation(Punctuation::Arrow | Punctuation::Ellipsis | Punctuation::Tilde)
    )
}

/// Whether a function literal, a function type or a pointer begins with a token of a kind.
fn begins_left_out(kind: TokenKind) -> bool
    ensures { result ≡ begins_left_out kind }
{
    matches!(
        kind,
        TokenKind::Keyword(Keyword::Func)
            | TokenKind::Punctuation(Punctuation::Star | Punctuation::Ampersand)
    )
}

/// Whether a type that is left out begins with a token of a kind.
fn begins_left_out_type(kind: TokenKind) -> bool
    ensures { result ≡ begins_left_out_type kind }
{
    kind == TokenKind::Punctuation(Punctuation::OpenParenthesis) || begins_left_out(kind)
}

/// Whether a token of a kind belongs to what is left out of Go where this is expected.
fn is_left_out_at(expected: Expected, kind: TokenKind) -> bool
    ensures { result ≡ is_left_out_at (expected_of expected) kind }
{
    match (expected, kind) {
        (Expected::Value, TokenKind::Keyword(Keyword::Range)) => true,
        (Expected::DeclaredType, TokenKind::Punctuation(Punctuation::Assign)) => true,
        (Expected::ParameterType, TokenKind::Punctuation(Punctuation::CloseParenthesis)) => true,
        (Expected::Length, TokenKind::Punctuation(Punctuation::CloseBracket)) => true,
        (Expected::Index, TokenKind::Punctuation(Punctuation::CloseBracket | Punctuation::Colon)) =>
            true,
        (Expected::IndexEnd, TokenKind::Punctuation(Punctuation::Colon)) => true,
        (Expected::SelectedName, TokenKind::Punctuation(Punctuation::OpenParenthesis)) => true,
        (Expected::ElementEnd, TokenKind::Punctuation(Punctuation::Colon)) => true,
        (Expected::FieldEnd, TokenKind::String) => true,
        (
            Expected::ResultEnd,
            TokenKind::Name
            | TokenKind::Punctuation(Punctuation::OpenBracket)
            | TokenKind::Keyword(Keyword::Struct),
        ) => true,
        (Expected::Statement, TokenKind::Keyword(Keyword::Type)) => true,
        (Expected::BehindName, TokenKind::Punctuation(Punctuation::Colon)) => true,
        (Expected::BehindJump, TokenKind::Name) => true,
        (
            Expected::FunctionName,
            TokenKind::Punctuation(Punctuation::OpenParenthesis | Punctuation::OpenBracket),
        ) => true,
        (Expected::FunctionOpening, TokenKind::Punctuation(Punctuation::OpenBracket)) => true,
        (Expected::Import, TokenKind::Punctuation(Punctuation::Period) | TokenKind::String) => true,
        (Expected::ImportPath, TokenKind::String) => true,
        (
            Expected::Operand
            | Expected::Value
            | Expected::Length
            | Expected::Index
            | Expected::Statement,
            _,
        ) => begins_left_out(kind),
        (Expected::Type | Expected::DeclaredType | Expected::ParameterType, _) => {
            begins_left_out_type(kind)
        }
        _ => false,
    }
}

/// The bytes of a token.
pub fn spelling(text: &[u8], token: Token) -> &[u8]
    requires { LiesIn text.now token }
    ensures { result.now ≡ lexeme_bytes text.now token }
{
    &text[token.start as usize..token.end as usize]
}

impl<'a> Parser<'a> {
    /// The kind of the next token.
    pub fn kind(&self) -> Option<TokenKind>
        ensures { result ≡ first_kind (left self.now) }
    {
        match self.tokens {
            [token, ..] => Some(token.kind),
            [] => None,
        }
    }

    /// Whether the next token is of a kind.
    pub fn is_next(&self, kind: TokenKind) -> bool
        ensures { IsTrue result ↔ First (λ t. t.kind ≡ kind) (left self.now) }
    {
        match self.tokens {
            [token, ..] => is_kind(*token, kind),
            [] => false,
        }
    }

    /// Whether the next token belongs to what is left out of Go where this is expected.
    pub(crate) fn is_left_out(&self, expected: Expected) -> bool
        ensures { result ≡ left_out_at (expected_of expected) (left self.now) }
    {
        match self.tokens {
            [token, ..] => is_left_out_at(expected, token.kind),
            [] => false,
        }
    }

    /// The refusal of the next token, or of the end, where this is expected.
    pub fn wrong(&self, expected: Expected) -> Refusal
        ensures { Says (fault_of (expected_of expected) (left self.now)) result }
    {
        match self.tokens {
            [token, ..] if is_never_read(token.kind) || is_left_out_at(expected, token.kind) => {
                Refusal::Wrong(Fault::LeftOut)
            }
            _ => Refusal::Wrong(Fault::Parse),
        }
    }

    /// Takes a token of a kind, at which a node of a level begins.
    pub fn expect(
        &mut self,
        kind: TokenKind,
        need: u32,
        expected: Expected,
    ) -> Result<Token, Refusal>
        ensures reads { ReadsAs (lexeme self.old.text.now) (token kind need (expected_of expected)) self.old result self.new }
        ensures kind { IfOk result (λ t. t.kind ≡ kind) }
        ensures stands { IfOk result (LiesIn self.old.text.now) }
        ensures text { self.new.text.now ≡ self.old.text.now }
        ensures fits { OnOk result (need ≤ 250) }
        ensures shorter { OnOk result (size self.new < size self.old) }
    {
        let [token, rest @ ..] = self.tokens else {
            return Err(self.wrong(expected));
        };
        if !is_kind(*token, kind) {
            return Err(self.wrong(expected));
        }
        if need > LEVELS {
            return Err(Refusal::Wrong(Fault::Deep));
        }
        let token = *token;
        self.tokens = rest;
        Ok(token)
    }

    /// Takes a token of a kind that came with slices, if it is the next and the parser's edition has these.
    ///
    /// In an edition without them what is read instead is refused where it is the next, as what belongs to what is left out.
    pub(crate) fn accept_newer(&mut self, kind: TokenKind) -> Result<Option<Token>, Refusal>
        ensures reads { TakesNewer kind self.old result self.new }
        ensures no_longer { OnOk result (size self.new ≤ size self.old) }
        ensures shorter { IfOk result (λ o. (t : _) → o ≡ Some t → size self.new < size self.old) }
    {
        if !self.edition.has_slices() {
            return Ok(None);
        }
        self.accept(kind, 0)
    }

    /// Takes a token of a kind, if it is the next.
    pub fn accept(&mut self, kind: TokenKind, need: u32) -> Result<Option<Token>, Refusal>
        ensures reads { ReadsIf (lexeme self.old.text.now) (optional kind need) self.old result self.new }
        ensures text { self.new.text.now ≡ self.old.text.now }
        ensures no_longer { OnOk result (size self.new ≤ size self.old) }
        ensures shorter { IfOk result (λ o. (t : _) → o ≡ Some t → size self.new < size self.old) }
        ensures fits { IfOk result (λ o. (t : _) → o ≡ Some t → need ≤ 250) }
    {
        if !self.is_next(kind) {
            return Ok(None);
        }
        let token = self.expect(kind, need, Expected::Another)?;
        Ok(Some(token))
    }

    /// Takes the separator behind an item of a list, if the list's end is not next.
    pub fn separate(
        &mut self,
        separator: TokenKind,
        closer: TokenKind,
        expected: Expected,
    ) -> Result<(), Refusal>
        ensures reads { Separates separator closer (expected_of expected) self.old result self.new }
        ensures no_longer { OnOk result (size self.new ≤ size self.old) }
    {
        if self.is_next(closer) {
            return Ok(());
        }
        self.expect(separator, 0, expected)?;
        Ok(())
    }

    /// Takes the next token.
    pub fn bump(&mut self, need: u32) -> Result<Token, Refusal>
        ensures reads { TakesNext need self.old result self.new }
        ensures fits { OnOk result (need ≤ 250) }
        ensures shorter { OnOk result (size self.new < size self.old) }
    {
        match self.kind() {
            Some(kind) => self.expect(kind, need, Expected::Another),
            None => Err(self.wrong(Expected::Another)),
        }
    }

    /// The text of a name or an integer literal.
    pub(crate) fn text_of(&self, token: Token) -> Result<Spelling, Refusal>
        requires stands { LiesIn self.now.text.now token }
        requires kind { (token.kind ≡ kinds.Name) ⊎ (token.kind ≡ kinds.Integer) }
        ensures ok { IfOk result (λ s. s ≡ lexeme_bytes self.now.text.now token) }
        ensures err { IfErr result (λ e. e ≡ Refusal.Memory) }
    {
        let text = text_from(self.alloc, spelling(self.text, token))?;
        Ok(text)
    }

    /// The name that a token is.
    fn name_at(&self, token: Token) -> Result<Name, Refusal>
        requires stands { LiesIn self.now.text.now token }
        requires kind { token.kind ≡ kinds.Name }
        ensures ok { IfOk result (λ n. lexeme_of n ≡ lexeme self.now.text.now token) }
        ensures err { IfErr result (λ e. e ≡ Refusal.Memory) }
    {
        let text = self.text_of(token)?;
        Ok(Name::new(text, token.place))
    }

    /// Takes a name.
    pub fn name(&mut self, need: u32, expected: Expected) -> Result<Name, Refusal>
        ensures reads { ReadsAs lexeme_of (token kinds.Name need (expected_of expected)) self.old result self.new }
        ensures fits { OnOk result (need ≤ 250) }
        ensures shorter { OnOk result (size self.new < size self.old) }
    {
        let token = self.expect(TokenKind::Name, need, expected)?;
        self.name_at(token)
    }

    /// Takes a period and the name behind it.
    ///
    /// `Selector = "." identifier .`
    pub(crate) fn selected_name(&mut self, need: u32) -> Result<Name, Refusal>
        ensures reads { ReadsAs lexeme_of (λ next. token period need another (λ _. token kinds.Name 0 a_selected_name next)) self.old result self.new }
        ensures fits { OnOk result (need ≤ 250) }
        ensures shorter { OnOk result (size self.new < size self.old) }
    {
        let period = TokenKind::Punctuation(Punctuation::Period);
        self.expect(period, need, Expected::Another)?;
        self.name(0, Expected::SelectedName)
    }

    /// Takes a name, if it is the next.
    pub fn accept_name(&mut self, need: u32) -> Result<Option<Name>, Refusal>
        ensures reads { ReadsIf lexeme_of (optional kinds.Name need) self.old result self.new }
        ensures no_longer { OnOk result (size self.new ≤ size self.old) }
    {
        if !self.is_next(TokenKind::Name) {
            return Ok(None);
        }
        let name = self.name(need, Expected::Another)?;
        Ok(Some(name))
    }

    /// Takes names with commas between them.
    ///
    /// `IdentifierList = identifier { "," identifier } .`
    pub fn names(&mut self, need: u32) -> Result<Vec<Name>, Refusal>
        ensures reads { ReadsAs (λ ns. ns.items) (names need) self.old result self.new }
        ensures fits { OnOk result (need ≤ 250) }
        ensures shorter { OnOk result (size self.new < size self.old) }
    {
        let comma = TokenKind::Punctuation(Punctuation::Comma);
        let mut names = Vec::with_capacity(self.alloc, 1)?;
        names.push(self.name(need, Expected::Another)?)?;
        'names: while self.is_next(comma) {
            self.expect(comma, 0, Expected::Another)?;
            names.push(self.name(0, Expected::Another)?)?;
        }
        Ok(names)
    }
}

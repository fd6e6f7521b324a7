//! Operators and punctuation.
ghost use Rattle.std.specs.Prelude.{◌≡◌, ◌≢◌, IfSome, None};
ghost use Rattle.go_scan.specs.Fronts.{punctuation_with};
ghost use Rattle.go_scan.specs.Punctuations.{punctuation_spelling, IsNoPunctuation, punctuation_ends_statement};

/// An operator or a punctuation of Go.
#[derive(Clone, Copy, PartialEq, Eq, Debug)]
pub enum Punctuation {
    /// `+`
    Plus,
    /// `-`
    Minus,
    /// `*`
    Star,
    /// `/`
    Slash,
    /// `%`
    Percent,
    /// `&`
    Ampersand,
    /// `|`
    Pipe,
    /// `^`
    Caret,
    /// `<<`
    ShiftLeft,
    /// `>>`
    ShiftRight,
    /// `&^`
    AndNot,
    /// `+=`
    PlusAssign,
    /// `-=`
    MinusAssign,
    /// `*=`
    StarAssign,
    /// `/=`
    SlashAssign,
    /// `%=`
    PercentAssign,
    /// `&=`
    AmpersandAssign,
    /// `|=`
    PipeAssign,
    /// `^=`
    CaretAssign,
    /// `<<=`
    ShiftLeftAssign,
    /// `>>=`
    ShiftRightAssign,
    /// `&^=`
    AndNotAssign,
    /// `&&`
    LogicalAnd,
    /// `||`
    LogicalOr,
    /// `<-`
    Arrow,
    /// `++`
    Increment,
    /// `--`
    Decrement,
    /// `==`
    Equal,
    /// `<`
    Less,
    /// `>`
    Greater,
    /// `=`
    Assign,
    /// `!`
    Not,
    /// `~`
    Tilde,
    /// `!=`
    NotEqual,
    /// `<=`
    LessOrEqual,
    /// `>=`
    GreaterOrEqual,
    /// `:=`
    Define,
    /// `...`
    Ellipsis,
    /// `(`
    OpenParenthesis,
    /// `[`
    OpenBracket,
    /// `{`
    OpenBrace,
    /// `,`
    Comma,
    /// `.`
    Period,
    /// `)`
    CloseParenthesis,
    /// `]`
    CloseBracket,
    /// `}`
    CloseBrace,
    /// `;`
    Semicolon,
    /// `:`
    Colon,
}

/// Those that begin with a byte.
fn beginning_with(first: u8) -> &'static [Punctuation]
    ensures { result.now ≡ punctuation_with first }
{
    match first {
        b'+' => &[
            Punctuation::Plus,
            Punctuation::PlusAssign,
            Punctuation::Increment,
        ],
        b'-' => &[
            Punctuation::Minus,
            Punctuation::MinusAssign,
            Punctuation::Decrement,
        ],
        b'*' => &[Punctuation::Star, Punctuation::StarAssign],
        b'/' => &[Punctuation::Slash, Punctuation::SlashAssign],
        b'%' => &[Punctuation::Percent, Punctuation::PercentAssign],
        b'&' => &[
            Punctuation::Ampersand,
            Punctuation::AmpersandAssign,
            Punctuation::AndNot,
            Punctuation::AndNotAssign,
            Punctuation::LogicalAnd,
        ],
        b'|' => &[
            Punctuation::Pipe,
            Punctuation::PipeAssign,
            Punctuation::LogicalOr,
        ],
        b'^' => &[Punctuation::Caret, Punctuation::CaretAssign],
        b'<' => &[
            Punctuation::Less,
            Punctuation::LessOrEqual,
            Punctuation::ShiftLeft,
            Punctuation::ShiftLeftAssign,
            Punctuation::Arrow,
        ],
        b'>' => &[
            Punctuation::Greater,
            Punctuation::GreaterOrEqual,
            Punctuation::ShiftRight,
            Punctuation::ShiftRightAssign,
        ],
        b'=' => &[Punctuation::Assign, Punctuation::Equal],
        b'!' => &[Punctuation::Not, Punctuation::NotEqual],
        b'~' => &[Punctuation::Tilde],
        b':' => &[Punctuation::Colon, Punctuation::Define],
        b'.' => &[Punctuation::Period, Punctuation::Ellipsis],
        b'(' => &[Punctuation::OpenParenthesis],
        b'[' => &[Punctuation::OpenBracket],
        b'{' => &[Punctuation::OpenBrace],
        b',' => &[Punctuation::Comma],
        b')' => &[Punctuation::CloseParenthesis],
        b']' => &[Punctuation::CloseBracket],
        b'}' => &[Punctuation::CloseBrace],
        b';' => &[Punctuation::Semicolon],
        _ => &[],
    }
}

impl Punctuation {
    /// How it is spelled.
    fn spelling(self) -> &'static str
        ensures { result.now ≡ punctuation_spelling self }
    {
        match self {
            Punctuation::Plus => "+",
            Punctuation::Minus => "-",
            Punctuation::Star => "*",
            Punctuation::Slash => "/",
            Punctuation::Percent => "%",
            Punctuation::Ampersand => "&",
            Punctuation::Pipe => "|",
            Punctuation::Caret => "^",
            Punctuation::ShiftLeft => "<<",
            Punctuation::ShiftRight => ">>",
            Punctuation::AndNot => "&^",
            Punctuation::PlusAssign => "+=",
            Punctuation::MinusAssign => "-=",
            Punctuation::StarAssign => "*=",
            Punctuation::SlashAssign => "/=",
            Punctuation::PercentAssign => "%=",
            Punctuation::AmpersandAssign => "&=",
            Punctuation::PipeAssign => "|=",
            Punctuation::CaretAssign => "^=",
            Punctuation::ShiftLeftAssign => "<<=",
            Punctuation::ShiftRightAssign => ">>=",
            Punctuation::AndNotAssign => "&^=",
            Punctuation::LogicalAnd => "&&",
            Punctuation::LogicalOr => "||",
            Punctuation::Arrow => "<-",
            Punctuation::Increment => "++",
            Punctuation::Decrement => "--",
            Punctuation::Equal => "==",
            Punctuation::Less => "<",
            Punctuation::Greater => ">",
            Punctuation::Assign => "=",
            Punctuation::Not => "!",
            Punctuation::Tilde => "~",
            Punctuation::NotEqual => "!=",
            Punctuation::LessOrEqual => "<=",
            Punctuation::GreaterOrEqual => ">=",
            Punctuation::Define => ":=",
            Punctuation::Ellipsis => "...",
            Punctuation::OpenParenthesis => "(",
            Punctuation::OpenBracket => "[",
            Punctuation::OpenBrace => "{",
            Punctuation::Comma => ",",
            Punctuation::Period => ".",
            Punctuation::CloseParenthesis => ")",
            Punctuation::CloseBracket => "]",
            Punctuation::CloseBrace => "}",
            Punctuation::Semicolon => ";",
            Punctuation::Colon => ":",
        }
    }

    /// Whether a line that ends behind it ends a statement.
    pub fn ends_statement(self) -> bool
        ensures { result ≡ punctuation_ends_statement self }
    {
        matches!(
            self,
            Punctuation::Increment
                | Punctuation::Decrement
                | Punctuation::CloseParenthesis
                | Punctuation::CloseBracket
                | Punctuation::CloseBrace
        )
    }
}

/// The operator or punctuation that is spelled so, if any.
pub fn punctuation_of(word: &[u8]) -> Option<Punctuation>
    ensures some { IfSome result (λ p. word.now ≡ punctuation_spelling p) }
    ensures none { result ≡ None → IsNoPunctuation word.now }
{
    let [first, ..] = word else {
        return None;
    };
    for punctuation in beginning_with(*first) {
        if punctuation.spelling().as_bytes() == word {
            return Some(*punctuation);
        }
    }
    None
}

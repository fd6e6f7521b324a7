//! The keywords of Go.
ghost use Rattle.std.specs.Prelude.{◌≡◌, ◌≢◌, IfSome, OnSome, None};
ghost use Rattle.go_scan.specs.Fronts.{keywords_with};
ghost use Rattle.go_scan.specs.Keywords.{spelling, IsNoKeyword, keyword_ends_statement};

/// A keyword of Go.
#[derive(Clone, Copy, PartialEq, Eq, Debug)]
pub enum Keyword {
    Break,
    Case,
    Chan,
    Const,
    Continue,
    Default,
    Defer,
    Else,
    Fallthrough,
    For,
    Func,
    Go,
    Goto,
    If,
    Import,
    Interface,
    Map,
    Package,
    Range,
    Return,
    Select,
    Struct,
    Switch,
    Type,
    Var,
}

/// The keywords that begin with a byte.
fn beginning_with(first: u8) -> &'static [Keyword]
    ensures { result.now ≡ keywords_with first }
{
    match first {
        b'b' => &[Keyword::Break],
        b'c' => &[
            Keyword::Case,
            Keyword::Chan,
            Keyword::Const,
            Keyword::Continue,
        ],
        b'd' => &[Keyword::Default, Keyword::Defer],
        b'e' => &[Keyword::Else],
        b'f' => &[Keyword::Fallthrough, Keyword::For, Keyword::Func],
        b'g' => &[Keyword::Go, Keyword::Goto],
        b'i' => &[Keyword::If, Keyword::Import, Keyword::Interface],
        b'm' => &[Keyword::Map],
        b'p' => &[Keyword::Package],
        b'r' => &[Keyword::Range, Keyword::Return],
        b's' => &[Keyword::Select, Keyword::Struct, Keyword::Switch],
        b't' => &[Keyword::Type],
        b'v' => &[Keyword::Var],
        _ => &[],
    }
}

impl Keyword {
    /// How the keyword is spelled.
    fn spelling(self) -> &'static str
        ensures { result.now ≡ spelling self }
    {
        match self {
            Keyword::Break => "break",
            Keyword::Case => "case",
            Keyword::Chan => "chan",
            Keyword::Const => "const",
            Keyword::Continue => "continue",
            Keyword::Default => "default",
            Keyword::Defer => "defer",
            Keyword::Else => "else",
            Keyword::Fallthrough => "fallthrough",
            Keyword::For => "for",
            Keyword::Func => "func",
            Keyword::Go => "go",
            Keyword::Goto => "goto",
            Keyword::If => "if",
            Keyword::Import => "import",
            Keyword::Interface => "interface",
            Keyword::Map => "map",
            Keyword::Package => "package",
            Keyword::Range => "range",
            Keyword::Return => "return",
            Keyword::Select => "select",
            Keyword::Struct => "struct",
            Keyword::Switch => "switch",
            Keyword::Type => "type",
            Keyword::Var => "var",
        }
    }

    /// Whether a line that ends behind the keyword ends a statement.
    pub fn ends_statement(self) -> bool
        ensures { result ≡ keyword_ends_statement self }
    {
        matches!(
            self,
            Keyword::Break | Keyword::Continue | Keyword::Fallthrough | Keyword::Return
        )
    }
}

/// The keyword that is spelled so, if any.
pub fn keyword_of(word: &[u8]) -> Option<Keyword>
    ensures some { IfSome result (λ k. word.now ≡ spelling k) }
    ensures none { result ≡ None → IsNoKeyword word.now }
{
    let [first, ..] = word else {
        return None;
    };
    for keyword in beginning_with(*first) {
        if keyword.spelling().as_bytes() == word {
            return Some(*keyword);
        }
    }
    None
}

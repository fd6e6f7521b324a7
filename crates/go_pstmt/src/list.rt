//! Lists in parentheses, whose items have a separator between them.
ghost use Rattle.std.specs.Prelude.{◌≡◌, ◌<◌, [], map, OnOk};
ghost use Rattle.go_ast.specs.Expected as expected;
ghost use Rattle.go_ast.specs.Grammar.{closing};
ghost use Rattle.go_ast.specs.Machine as machine;
ghost use Rattle.go_ast.specs.Machine.{ListKind, list_start};
ghost use Rattle.go_pexpr.specs.Reads.{First, left, size, expected_of, ReadsAs};
ghost use Rattle.go_pstmt.specs.Reading.{ReadsItem};

use crate::marks::CLOSING;
use go_pexpr::expected::Expected;
use go_pexpr::parser::{Parser, Refusal};
use go_scan::token::TokenKind;

/// The items of a list in parentheses: how one is read, and what stands behind it.
pub trait Items {
    /// An item.
    type Node: Drop;

    /// Which list it is.
    ghost kind: { Self → ListKind };

    /// What an item is seen as.
    ghost seen: { (s : Self) → Self.Node → machine.Item (kind s) };

    /// What is expected behind an item.
    ghost due: { Self → expected.Expected };

    /// An item may be read.
    ghost can_read: { Self → Type 0 };

    /// What separates the items.
    fn separator(&self) -> TokenKind
        ensures { result ≡ machine.separator (kind self.now) };

    /// What is expected behind an item.
    fn behind(&self) -> Expected
        ensures { expected_of result ≡ due self.now };

    /// Reads an item, where the list does not end.
    fn item(&self, parser: &mut Parser<'_>) -> Result<Self::Node, Refusal>
        requires can { can_read self.now }
        requires some { First (λ t. t.kind ≡ closing) (left parser.old) → ⊥ }
        ensures reads { ReadsItem (kind self.now) (due self.now) (seen self.now) parser.old result parser.new }
        ensures shorter { OnOk result (size parser.new < size parser.old) };

    /// The list ends at a closing parenthesis.
    ghost closes: { (s : Self) → machine.closer (kind s) ≡ closing };
}

/// Reads a list behind its opening parenthesis, with the closing one. The separator behind the last item may be missing.
///
/// `{ Item separator } ")" .`
pub fn list<L: Items>(parser: &mut Parser<'_>, items: &L) -> Result<Vec<L::Node>, Refusal>
    requires { L.can_read items.now }
    ensures reads { ReadsAs (λ ns. map (L.seen items.now) ns.items) (λ next. list_start (L.kind items.now) [] (λ ns _. next ns)) parser.old result parser.new }
    ensures shorter { OnOk result (size parser.new < size parser.old) }
{
    let mut nodes = Vec::new(parser.alloc);
    'nodes: while !parser.is_next(CLOSING) {
        nodes.push(items.item(parser)?)?;
        if !parser.is_next(CLOSING) {
            parser.expect(items.separator(), 0, items.behind())?;
        }
    }
    parser.expect(CLOSING, 0, Expected::Another)?;
    nodes.shrink_to_fit();
    Ok(nodes)
}

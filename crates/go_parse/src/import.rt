//! Reads the package clause and imports.
ghost use Rattle.std.specs.Prelude.{◌≡◌, ◌↔◌, ◌<◌, ℕ, List, [], map, OnOk, IfOk, IfErr, IsTrue, refl};
ghost use Rattle.go_ast.specs.Expected.{another};
ghost use Rattle.go_ast.specs.Trees as trees;
ghost use Rattle.go_text.specs.declared.place.Place.{Place};
ghost use Rattle.go_scan.specs.declared.token.TokenKind.TheVariants as kinds;
ghost use Rattle.go_ast.specs.Grammar.{Lexeme};
ghost use Rattle.go_ast.specs.Literals.{string_value};
ghost use Rattle.go_ast.specs.Machine.{Reader, package_name, import_path, import_spec, import_specs, group};
ghost use Rattle.go_ast.specs.Views.{import_of};
ghost use Rattle.go_pexpr.specs.Reads.{Reads, First, left, size, lexeme_of, expected_of};

use crate::marks::{OPENING, SEMICOLON, STRING};
use go_ast::file::ImportSpec;
use go_ast::name::Name;
use go_pexpr::expected::Expected;
use go_pexpr::literal::string_value;
use go_pexpr::parser::{Parser, Refusal};
use go_pexpr::taking::spelling;
use go_pstmt::list::{Items, list};
use go_scan::token::TokenKind;
use go_text::place::Place;

/// An import path.
#[derive(Drop)]
struct Path {
    /// What its literal means.
    value: Vec<u8>,
    /// The place of its literal.
    place: Place,
}

/// Whether the next token is written so.
fn is_written(parser: &Parser<'_>, text: &[u8]) -> bool
    ensures { IsTrue result ↔ First (λ t. t.text ≡ text.now) (left parser.now) }
{
    match parser.tokens {
        [token, ..] => spelling(parser.text, *token) == text,
        [] => false,
    }
}

/// Reads the name of a package.
///
/// `PackageName = identifier .`
pub(crate) fn package_name(parser: &mut Parser<'_>) -> Result<Name, Refusal>
    ensures reads { (next : Lexeme → Reader) → Reads (package_name next) (λ n. next (lexeme_of n)) parser.old result parser.new }
    ensures shorter { OnOk result (size parser.new < size parser.old) }
{
    if is_written(parser, b"_") {
        return Err(parser.wrong(Expected::Another));
    }
    parser.name(0, Expected::Another)
}

/// What the string literal means that is the next token.
fn next_value(parser: &Parser<'_>) -> Result<Vec<u8>, Refusal>
    requires { First (λ t. t.kind ≡ kinds.String) (left parser.now) }
    ensures ok { IfOk result (λ v. First (λ t. v.items ≡ string_value t.text) (left parser.now)) }
    ensures err { IfErr result (λ e. e ≡ Refusal.Memory) }
{
    match parser.tokens {
        [token, ..] => {
            let value = string_value(parser.alloc, spelling(parser.text, *token))?;
            Ok(value)
        }
        [] => Ok(Vec::new(parser.alloc)),
    }
}

/// Reads an import path.
///
/// `ImportPath = string_lit .`
fn import_path(parser: &mut Parser<'_>, expected: Expected) -> Result<Path, Refusal>
    ensures reads { (next : List ℕ → Place → Reader) → Reads (import_path (expected_of expected) (λ t. next (string_value t.text) t.place)) (λ p. next p.value.items p.place) parser.old result parser.new }
    ensures shorter { OnOk result (size parser.new < size parser.old) }
{
    if !parser.is_next(STRING) {
        return Err(parser.wrong(expected));
    }
    let value = next_value(parser)?;
    if value.as_slice() == b"C".as_slice() {
        return Err(parser.wrong(expected));
    }
    let token = parser.expect(STRING, 0, expected)?;
    Ok(Path {
        value,
        place: token.place,
    })
}

/// Reads an import, without its keyword.
///
/// `ImportSpec = [ PackageName ] ImportPath .`
fn import_spec(parser: &mut Parser<'_>) -> Result<ImportSpec, Refusal>
    ensures reads { (next : trees.ImportSpec → Reader) → Reads (import_spec next) (λ i. next (import_of i)) parser.old result parser.new }
    ensures shorter { OnOk result (size parser.new < size parser.old) }
{
    let Some(name) = parser.accept_name(0)? else {
        let path = import_path(parser, Expected::Import)?;
        return Ok(ImportSpec {
            place: path.place,
            name: None,
            path: path.value,
            path_place: path.place,
        });
    };
    let path = import_path(parser, Expected::ImportPath)?;
    Ok(ImportSpec {
        place: name.place(),
        name: Some(name),
        path: path.value,
        path_place: path.place,
    })
}

/// Imports of a group.
#[derive(Clone, Copy)]
struct ImportSpecs;

impl Items for ImportSpecs {
    type Node = ImportSpec;

    ghost kind = { λ _. import_specs };

    ghost seen = { λ _. import_of };

    ghost due = { λ _. another };

    ghost can_read = { λ _. Unit {0} };

    ghost closes = { λ _. refl };

    fn separator(&self) -> TokenKind {
        SEMICOLON
    }

    fn behind(&self) -> Expected {
        Expected::Another
    }

    fn item(&self, parser: &mut Parser<'_>) -> Result<ImportSpec, Refusal> {
        import_spec(parser)
    }
}

/// Reads an import or a group of imports, behind the keyword.
///
/// `ImportDecl = "import" ( ImportSpec | "(" { ImportSpec ";" } ")" ) .`
pub(crate) fn imports_behind(parser: &mut Parser<'_>) -> Result<Vec<ImportSpec>, Refusal>
    ensures reads { (next : List trees.ImportSpec → Reader) → Reads (group import_specs next import_spec) (λ ss. next (map import_of ss.items)) parser.old result parser.new }
    ensures shorter { OnOk result (size parser.new < size parser.old) }
{
    if let Some(_) = parser.accept(OPENING, 0)? {
        return list(parser, &ImportSpecs);
    }
    let mut specs = Vec::with_capacity(parser.alloc, 1)?;
    specs.push(import_spec(parser)?)?;
    Ok(specs)
}

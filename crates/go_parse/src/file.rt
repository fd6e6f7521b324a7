//! Reads files.
ghost use Rattle.std.specs.Prelude.{◌≡◌, ◌≤◌, List, [], map, OnOk, IfOk, IfErr};
ghost use Rattle.go_ast.specs.Trees as trees;
ghost use Rattle.go_ast.specs.Machine.{Reader, read_imports, decls_at, ended, start, Done, run_parser};
ghost use Rattle.go_ast.specs.Machine as machine;
ghost use Rattle.go_ast.specs.Views.{import_of, top_of, file_of};
ghost use Rattle.go_pexpr.specs.Reads.{Reads, Failing, left, size, either};
ghost use Rattle.go_parse.specs.Files.{read_declaration};

use crate::function::function;
use crate::import::{imports_behind, package_name};
use crate::marks::{CONST, FUNC, IMPORT, PACKAGE, SEMICOLON, TYPE, VAR};
use go_ast::file::{File, ImportSpec, TopLevel};
use go_pexpr::expected::Expected;
use go_pexpr::parser::{Parser, Refusal};
use go_pstmt::declaration::{constants, types, variables};

/// Reads a file's imports.
///
/// `{ ImportDecl ";" } .`
fn imports(parser: &mut Parser<'_>) -> Result<Vec<ImportSpec>, Refusal>
    ensures reads { (p : trees.Name) → Reads (read_imports p []) (λ is. decls_at p (map import_of is.items) []) parser.old result parser.new }
    ensures no_longer { OnOk result (size parser.new ≤ size parser.old) }
{
    let mut imports = Vec::new(parser.alloc);
    'imports: while let Some(_) = parser.accept(IMPORT, 0)? {
        let mut more = imports_behind(parser)?;
        parser.expect(SEMICOLON, 0, Expected::Another)?;
        imports.append(&mut more)?;
    }
    Ok(imports)
}

/// Reads a declaration of a file, if one begins here.
///
/// `TopLevelDecl = Declaration | FunctionDecl .`
fn declaration(parser: &mut Parser<'_>) -> Result<Option<TopLevel>, Refusal>
    ensures reads { (some : trees.TopLevel → Reader) (none : Reader) → Reads (read_declaration some none) (either (λ d. some (top_of d)) none) parser.old result parser.new }
    ensures no_longer { OnOk result (size parser.new ≤ size parser.old) }
{
    if let Some(token) = parser.accept(CONST, 0)? {
        let constants = constants(parser, 1, token.place)?;
        return Ok(Some(TopLevel::Declared(constants)));
    }
    if let Some(token) = parser.accept(VAR, 0)? {
        let variables = variables(parser, 1, token.place)?;
        return Ok(Some(TopLevel::Declared(variables)));
    }
    if let Some(token) = parser.accept(TYPE, 0)? {
        let types = types(parser, 1, token.place)?;
        return Ok(Some(TopLevel::Declared(types)));
    }
    if let Some(token) = parser.accept(FUNC, 1)? {
        let function = function(parser, token.place)?;
        return Ok(Some(TopLevel::Function(function)));
    }
    Ok(None)
}

/// Reads a file's declarations.
///
/// `{ TopLevelDecl ";" } .`
fn declarations(parser: &mut Parser<'_>) -> Result<Vec<TopLevel>, Refusal>
    ensures reads { (p : trees.Name) (is : List trees.ImportSpec) → Reads (decls_at p is []) (λ ds. ended (machine.to_file p is (map top_of ds.items))) parser.old result parser.new }
{
    let mut declarations = Vec::new(parser.alloc);
    'declarations: while let Some(declaration) = declaration(parser)? {
        declarations.push(declaration)?;
        parser.expect(SEMICOLON, 0, Expected::Another)?;
    }
    Ok(declarations)
}

/// Reads a whole file, to the end of the tokens.
///
/// `SourceFile = PackageClause ";" { ImportDecl ";" } { TopLevelDecl ";" } .` `PackageClause = "package" PackageName .`
pub fn file(parser: &mut Parser<'_>) -> Result<File, Refusal>
    ensures ok { IfOk result (λ f. run_parser parser.old.edition 250 start (left parser.old) ≡ Done (file_of f)) }
    ensures err { IfErr result (λ e. Failing e start parser.old parser.new) }
{
    parser.expect(PACKAGE, 0, Expected::Another)?;
    let package = package_name(parser)?;
    parser.expect(SEMICOLON, 0, Expected::Another)?;
    let imports = imports(parser)?;
    let declarations = declarations(parser)?;
    if parser.kind().is_some() {
        return Err(parser.wrong(Expected::Another));
    }
    Ok(File {
        package,
        imports,
        declarations,
    })
}

//! Where an expression stands.
ghost use Rattle.std.specs.Prelude.{◌≡◌, ◌++◌, bytes_eq, map};
ghost use Rattle.std.specs.Map.{lookup};
ghost use Rattle.std.specs.Option.{option_map};
ghost use Rattle.go_expr.specs.Known.{Fine, look_up_known, named, universe};
ghost use Rattle.go_expr.specs.Views.{known_of, imported_view, declared_of, names_in, local_names, locals_of, scope_of, package_names, iota_of, counted_known, AnswersAt};

use crate::error::ExprError;
use crate::known::{Declared, Known, Names, named};
use crate::node::constant;
use crate::universe::predeclared;
use go_const::constant::Const;
use go_scope::scopes::Scopes;
use go_text::edition::Edition;
use go_text::place::Place;
use go_types::types::{Basic, GoType, Untyped};

/// A name that an import declares in its file.
#[derive(Clone, Copy)]
pub struct Import<'a> {
    /// The name.
    pub name: &'a str,
    /// What the imported package exports.
    pub exports: &'a Names,
}

/// Where an expression stands: in a package, in a file with its imports, and in a group of
/// constants or not.
#[derive(Drop)]
pub struct Scope<'a> {
    path: &'a str,
    edition: Edition,
    imports: &'a [Import<'a>],
    declared: &'a Names,
    iota: Option<u64>,
    locals: Option<&'a Scopes<Option<Declared>>>,
}

/// What an import's name finds among imports.
fn imported<'a>(imports: &'a [Import<'a>], name: &str) -> Option<Known<'a>>
    ensures { option_map (λ k. Fine (known_of k)) result ≡ lookup (bytes_eq name.now) (map imported_view imports.now) }
{
    for import in imports {
        if name == import.name {
            return Some(Known::Package(import.exports));
        }
    }
    None
}

impl<'a> Scope<'a> {
    /// The scope of a file of an edition of the package at a path, by what its imports declare and what the
    /// package declares; in a group of constants with the value of iota.
    #[tactic(auto, unfolding(crate::specs::Views::scope_of))]
    pub fn new(
        path: &'a str,
        edition: Edition,
        imports: &'a [Import<'a>],
        declared: &'a Names,
        iota: Option<u64>,
    ) -> Scope<'a>
        ensures { scope_of result ≡ record { path = path.now; names = names_in edition imports.now declared.now iota } }
    {
        Scope {
            path,
            edition,
            imports,
            declared,
            iota,
            locals: None,
        }
    }

    /// The scope of a place in a function: of blocks, whose names hide those of the file.
    #[tactic(auto, unfolding(crate::specs::Views::scope_of))]
    pub fn in_blocks(
        path: &'a str,
        edition: Edition,
        imports: &'a [Import<'a>],
        declared: &'a Names,
        iota: Option<u64>,
        locals: &'a Scopes<Option<Declared>>,
    ) -> Scope<'a>
        ensures { scope_of result ≡ record { path = path.now; names = locals_of locals.now ++ names_in edition imports.now declared.now iota } }
    {
        Scope {
            path,
            edition,
            imports,
            declared,
            iota,
            locals: Some(locals),
        }
    }

    /// The path of the package.
    #[tactic(auto, unfolding(crate::specs::Views::scope_of))]
    pub(crate) fn path(&self) -> &str
        ensures { result.now ≡ (scope_of self.now).path }
    {
        self.path
    }

    /// What a name at a place finds, or its fault.
    /// [Declarations and scope](https://go.dev/ref/spec#Declarations_and_scope)
    #[tactic(auto, unfolding(crate::specs::Views::scope_of))]
    pub fn look_up(&self, place: Place, name: &str) -> Result<Option<Known<'a>>, ExprError>
        ensures { AnswersAt known_of result place (look_up_known name.now (scope_of self.now).names) }
    {
        match local(self.locals, name) {
            Some(declared) => named(place, declared),
            None => self.look_up_outside(place, name),
        }
    }

    /// What a name at a place finds that no block declares, or its fault.
    #[tactic(auto, unfolding(crate::specs::Views::names_in))]
    fn look_up_outside(&self, place: Place, name: &str) -> Result<Option<Known<'a>>, ExprError>
        ensures { AnswersAt known_of result place (look_up_known name.now (names_in self.now.edition self.now.imports.now self.now.declared.now self.now.iota)) }
    {
        match imported(self.imports, name) {
            Some(known) => Ok(Some(known)),
            None => declared_or_other(place, self.edition, self.declared, self.iota, name),
        }
    }
}

/// What a name of a block declares.
fn local<'a>(
    locals: Option<&'a Scopes<Option<Declared>>>,
    name: &str,
) -> Option<&'a Option<Declared>>
    ensures { option_map (λ o. named (option_map declared_of o.now)) result ≡ lookup (bytes_eq name.now) (local_names (option_map (λ e. e.now) locals.entry)) }
{
    match locals {
        Some(locals) => locals.look_up(name),
        None => None,
    }
}

/// A number as a constant that has no type.
fn number<'a>(number: u64) -> Known<'a>
    ensures { Fine (known_of result) ≡ counted_known number }
{
    let of = GoType::Basic(Basic::Untyped(Untyped::Int));
    Known::Value(constant(of, Const::Integer(i128::from(number))))
}

/// What a name at a place finds that no import declares, or its fault.
fn declared_or_other<'a>(
    place: Place,
    edition: Edition,
    declared: &Names,
    iota: Option<u64>,
    name: &str,
) -> Result<Option<Known<'a>>, ExprError>
    ensures { AnswersAt known_of result place (look_up_known name.now (package_names declared.now ++ (iota_of iota ++ universe edition))) }
{
    match declared.get(name) {
        Some(declared) => named(place, declared),
        None => iota_or_other(place, edition, iota, name),
    }
}

/// What a name at a place finds that no declaration declares, or its fault.
/// [Iota](https://go.dev/ref/spec#Iota)
fn iota_or_other<'a>(
    place: Place,
    edition: Edition,
    iota: Option<u64>,
    name: &str,
) -> Result<Option<Known<'a>>, ExprError>
    ensures { AnswersAt known_of result place (look_up_known name.now (iota_of iota ++ universe edition)) }
{
    let Some(iota) = iota else {
        return predeclared(place, edition, name);
    };
    if name != "iota" {
        return predeclared(place, edition, name);
    }
    Ok(Some(number(iota)))
}

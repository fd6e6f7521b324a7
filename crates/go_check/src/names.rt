//! What the names of an imported package declare.
//! [Qualified identifiers](https://go.dev/ref/spec#Qualified_identifiers)
ghost use Rattle.std.specs.Prelude.{◌≡◌, IfOk};
ghost use Rattle.go_expr.specs.Views.{declared_of, names_of};
ghost use Rattle.go_export.specs.Views.{export_of};
ghost use Rattle.go_check.specs.Names.{symbol_of, export_declares, summary_names};

use go_export::export::{Export, copy_types};
use go_export::summary::Summary;
use go_expr::known::{Declared, Function, Names};
use go_symbol::Symbol;
use indexmap::IndexMap;
use std::alloc::{AllocError, Global};
use std::sync::Arc;

/// What a name is known by outside of its package.
fn symbol_of(alloc: Global, path: &str, name: &str) -> Result<Symbol, AllocError>
    ensures { IfOk result (λ symbol. symbol ≡ symbol_of path.now name.now) }
{
    let path = String::from_str(alloc, path)?;
    let name = String::from_str(alloc, name)?;
    Ok(Symbol::new(path, name))
}

/// What a name declares that a package exports.
fn declared_as(
    alloc: Global,
    path: &str,
    name: &str,
    export: &Export,
) -> Result<Declared, AllocError>
    ensures { IfOk result (λ d. declared_of d ≡ export_declares path.now name.now (export_of export.now)) }
{
    Ok(match export {
        Export::Constant(of, value) => Declared::Constant(of.copy()?, value.copy()?),
        Export::Variable(of) => Declared::Global(of.copy()?, symbol_of(alloc, path, name)?),
        Export::Type(of) => Declared::Type(of.copy()?),
        Export::Function(parameters, results) => {
            let function = Function {
                symbol: symbol_of(alloc, path, name)?,
                parameters: copy_types(alloc, parameters)?,
                results: copy_types(alloc, results)?,
            };
            Declared::Function(Arc::new(alloc, function)?)
        }
    })
}

/// What the names declare that a package exports, by its summary. An `Err` only where memory ran
/// out.
pub fn exported_names(alloc: Global, summary: &Summary) -> Result<Names, AllocError>
    ensures { IfOk result (λ names. names_of names ≡ summary_names summary.now) }
{
    let mut names = IndexMap::new(alloc);
    for (name, export) in summary.exports() {
        let declared = declared_as(alloc, summary.path(), name, export)?;
        drop(names.insert(name.clone()?, Some(declared))?);
    }
    Ok(names)
}

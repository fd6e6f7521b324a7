//! Initializations and functions by their names and what they refer to.
ghost use Rattle.std.specs.Prelude.{◌≡◌, ◌++◌, map, IfOk, OnOk, string_bytes};
ghost use Rattle.std.specs.List.{filter_map};
ghost use Rattle.std.specs.Option.{option_map};
ghost use Rattle.go_typed.specs.Views.{initialization_of, uses_of, typed_of};
ghost use Rattle.go_init.specs.Nodes.{variables_node, function_node, nodes_of};
ghost use Rattle.go_init.specs.Views.{node_of};

use go_typed::package::{Typed, TypedInitialization, TypedUses};
use std::alloc::{AllocError, Global};

/// An initialization or a function.
#[derive(Drop)]
pub(crate) struct Node<'a> {
    /// The names of its variables, or its own name.
    pub(crate) names: Vec<&'a str>,
    /// The names that it refers to.
    pub(crate) references: &'a [String],
}

// The names of variables, of which a blank one has none.
fn own_names<'a>(alloc: Global, variables: &'a [Option<String>]) -> Result<Vec<&'a str>, AllocError>
    ensures { IfOk result (λ names. map (λ n. n.now) names.items ≡ filter_map (λ x. x) (map (option_map string_bytes) variables.now)) }
{
    let mut names = Vec::new(alloc);
    for variable in variables {
        if let Some(name) = variable {
            names.push(name.as_str())?;
        }
    }
    Ok(names)
}

fn variables_node(alloc: Global, of: &TypedInitialization) -> Result<Node<'_>, AllocError>
    ensures { IfOk result (λ node. node_of node ≡ variables_node (initialization_of of.now)) }
{
    Ok(Node {
        names: own_names(alloc, &of.variables)?,
        references: &of.references,
    })
}

fn function_node(alloc: Global, of: &TypedUses) -> Result<Node<'_>, AllocError>
    ensures { IfOk result (λ node. node_of node ≡ function_node (uses_of of.now)) }
{
    Ok(Node {
        names: vec![in alloc; of.function.as_str()]?,
        references: &of.references,
    })
}

/// The initializations of a package, and its functions behind them. An `Err` only where memory ran
/// out.
pub(crate) fn nodes_of(alloc: Global, typed: &Typed) -> Result<Vec<Node<'_>>, AllocError>
    ensures { IfOk result (λ nodes. map node_of nodes.items ≡ nodes_of (typed_of typed.now)) }
{
    let mut nodes = Vec::new(alloc);
    add_variables(alloc, &typed.initializations, &mut nodes)?;
    add_functions(alloc, &typed.uses, &mut nodes)?;
    Ok(nodes)
}

fn add_variables<'a>(
    alloc: Global,
    initializations: &'a [TypedInitialization],
    nodes: &mut Vec<Node<'a>>,
) -> Result<(), AllocError>
    ensures { OnOk result (map node_of nodes.new.items ≡ map node_of nodes.old.items ++ map variables_node (map initialization_of initializations.now)) }
{
    for of in initializations {
        nodes.push(variables_node(alloc, of)?)?;
    }
    Ok(())
}

fn add_functions<'a>(
    alloc: Global,
    uses: &'a [TypedUses],
    nodes: &mut Vec<Node<'a>>,
) -> Result<(), AllocError>
    ensures { OnOk result (map node_of nodes.new.items ≡ map node_of nodes.old.items ++ map function_node (map uses_of uses.now)) }
{
    for of in uses {
        nodes.push(function_node(alloc, of)?)?;
    }
    Ok(())
}

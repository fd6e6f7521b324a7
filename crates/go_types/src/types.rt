//! Types as trees, with names resolved.
ghost use Rattle.std.specs.Prelude.{◌≡◌, ◌<◌, IfOk, length, string_bytes};

use crate::sizes::{named_size, size_of, struct_size};
pub use go_const::kind::IntKind;
use std::alloc::AllocError;
use std::marker::Model;
use std::sync::Arc;

/// The kinds of constants and comparisons without a type. [Constants](https://go.dev/ref/spec#Constants)
#[derive(Clone, Copy, PartialEq, Eq)]
pub enum Untyped {
    /// Truth values.
    Bool,
    /// Integers.
    Int,
    /// Integers that are written as runes.
    Rune,
    /// Strings.
    String,
}

/// A type that has no parts.
#[derive(Clone, Copy, PartialEq, Eq)]
pub enum Basic {
    /// `bool`.
    Bool,
    /// `string`.
    String,
    /// An integer type.
    Integer(IntKind),
    /// The type of a constant or a comparison that has none yet.
    Untyped(Untyped),
}

/// How many cells and nodes a type has; 65,537 where they are more than 65,536.
#[derive(Clone, Copy, Drop)]
pub(crate) struct Size {
    pub(crate) cells: u32,
    pub(crate) nodes: u32,
}

/// A type. [Types](https://go.dev/ref/spec#Types) A tree is as deep as it has nodes at most: what
/// bounds the stack of the calls that go down one is `nodes`. Letting go of one takes little: a
/// loop goes on with the largest part, and calls itself for the others, which have at most half of
/// the nodes.
#[cycle(types)]
pub enum GoType {
    /// A type that has no parts.
    Basic(Basic),
    /// Arrays of a length, of elements of a type.
    Array(u32, Arc<Element>),
    /// Slices of elements of a type.
    Slice(Arc<Element>),
    /// Structs of some fields, in their order.
    Struct(Arc<Fields>),
    /// A declared type.
    Named(Arc<Named>),
}

/// A field of a struct.
#[cycle(types)]
#[derive(Drop)]
pub struct Field {
    /// The path of the package that declares it, unless its name is exported.
    pub package: Option<String>,
    /// Its name.
    pub name: String,
    /// Its type.
    pub of: GoType,
}

/// The type of an array's or a slice's elements, which keeps how large it is.
#[cycle(types)]
#[derive(Drop)]
pub struct Element {
    /// The type.
    pub of: GoType,
    pub(crate) size: Size,
}

impl Model for Element {
    ghost use Rattle.go_types.specs.Types.{Type'};
    ghost use Rattle.go_types.specs.Codes.{type_code};

    ghost Value = { Type' };

    ghost coded = { type_code };

    ghost use Rattle.go_types.specs.Views.{go_type};
    ghost use Rattle.go_types.specs.Sizes.{nodes, IsSizeOfType};

    ghost view = { λ a. go_type a.of };

    ghost invariant = { λ a. IsSizeOfType (go_type a.of) a.size };

    ghost size = { nodes };

    ghost use Rattle.go_types.specs.Depths.{parts_fall};

    ghost size_decreases = { λ a h. parts_fall a.of };
}

/// The fields of a struct, which keep how large it is.
#[cycle(types)]
#[derive(Drop)]
pub struct Fields {
    /// The fields, in their order.
    pub list: Vec<Field>,
    pub(crate) size: Size,
}

impl Model for Fields {
    ghost use Rattle.go_types.specs.Types as types;
    ghost use Rattle.go_types.specs.Codes.{fields_code};

    ghost Value = { types.Fields };

    ghost coded = { fields_code };

    ghost use Rattle.go_types.specs.Views.{fields_in};
    ghost use Rattle.go_types.specs.Sizes.{nodes_of, IsSizeOfType};

    ghost view = { λ a. fields_in a.list.items };

    ghost invariant = { λ a. IsSizeOfType (types.struct (fields_in a.list.items)) a.size };

    ghost size = { nodes_of };

    ghost use Rattle.go_types.specs.Depths.{fields_fall};

    ghost size_decreases = { λ a h. fields_fall a.list.items };
}

/// A declared type, which keeps how large it is.
#[cycle(types)]
#[derive(Drop)]
pub struct Named {
    /// The path of the package that declares it.
    pub path: String,
    /// Its name.
    pub name: String,
    /// The type that it is declared as, written out.
    pub underlying: GoType,
    pub(crate) size: Size,
}

impl Model for Named {
    ghost use Rattle.go_types.specs.Types.{DeclaredType};
    ghost use Rattle.go_types.specs.Codes.{declared_code};

    ghost Value = { DeclaredType };

    ghost coded = { declared_code };

    ghost use Rattle.std.specs.Prelude.{string_bytes};
    ghost use Rattle.go_types.specs.Views.{go_type, declared};
    ghost use Rattle.go_types.specs.Sizes.{nodes, IsSizeOfType};

    ghost view = { λ a. record { path = string_bytes a.path; name = string_bytes a.name; type = go_type a.underlying } };

    ghost invariant = { λ a. IsSizeOfType (declared (record { path = string_bytes a.path; name = string_bytes a.name; type = go_type a.underlying })) a.size };

    ghost size = { λ v. nodes v.type };

    ghost use Rattle.go_types.specs.Depths.{parts_fall};

    ghost size_decreases = { λ a h. parts_fall a.underlying };
}

/// The field whose type has the most nodes.
fn widest(fields: &[Field]) -> usize
    requires { 0 < length fields.now }
    ensures { result < length fields.now }
{
    let mut found = 0;
    let mut most = 0;
    for i in 0..fields.len() {
        let nodes = size_of(&fields[i].of).nodes;
        if nodes > most {
            found = i;
            most = nodes;
        }
    }
    found
}

impl Drop for GoType {
    #[cycle(dropping)]
    fn drop(mut self) {
        loop {
            match self {
                GoType::Basic(_) => return,
                GoType::Array(_, element) | GoType::Slice(element) => {
                    let Some(Element { of, size: _ }) = Arc::into_inner(element) else {
                        return;
                    };
                    self = of;
                }
                GoType::Named(named) => {
                    let Some(Named { underlying, .. }) = Arc::into_inner(named) else {
                        return;
                    };
                    self = underlying;
                }
                GoType::Struct(fields) => {
                    let Some(Fields { mut list, size: _ }) = Arc::into_inner(fields) else {
                        return;
                    };
                    if list.is_empty() {
                        return;
                    }
                    let at = widest(&list);
                    let Field { of, .. } = list.swap_remove(at);
                    self = of;
                }
            }
        }
    }
}

impl GoType {
    ghost use Rattle.go_types.specs.Views.{go_type};

    /// Another of equal contents, which has its parts in common with this one. An `Err` only where memory ran out.
    pub fn copy(&self) -> Result<GoType, AllocError>
        ensures { IfOk result (λ t. go_type t ≡ go_type self.now) }
    {
        Ok(match self {
            GoType::Basic(basic) => GoType::Basic(*basic),
            GoType::Array(length, element) => GoType::Array(*length, Arc::try_clone(element)?),
            GoType::Slice(element) => GoType::Slice(Arc::try_clone(element)?),
            GoType::Struct(fields) => GoType::Struct(Arc::try_clone(fields)?),
            GoType::Named(named) => GoType::Named(Arc::try_clone(named)?),
        })
    }
}

impl Element {
    ghost use Rattle.go_types.specs.Views.{go_type};

    /// The elements of a type.
    pub fn new(of: GoType) -> Element
        ensures { result ≡ go_type of }
    {
        let size = size_of(&of);
        Element { of, size }
    }
}

impl Fields {
    ghost use Rattle.go_types.specs.Views.{fields_in};

    /// The fields of a list.
    pub fn new(list: Vec<Field>) -> Fields
        ensures { result ≡ fields_in list.items }
    {
        let size = struct_size(&list);
        Fields { list, size }
    }
}

impl Named {
    ghost use Rattle.go_types.specs.Views.{go_type};

    /// The type that the package of a path declares under a name, by what it is declared as.
    pub fn new(path: String, name: String, underlying: GoType) -> Named
        ensures path { result.path ≡ string_bytes path }
        ensures name { result.name ≡ string_bytes name }
        ensures underlying { result.type ≡ go_type underlying }
    {
        let size = named_size(&underlying);
        Named {
            path,
            name,
            underlying,
            size,
        }
    }
}

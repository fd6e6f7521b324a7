//! How large types are.
ghost use Rattle.std.specs.Prelude.{◌≡◌, ◌+◌, ◌*◌, ◌<◌, ◌≤◌, ℕ, List, IfOk, IfErr};
ghost use Rattle.go_types.specs.Views.{go_type, fields_in};
ghost use Rattle.go_types.specs.Sizes.{cells, nodes, kept, IsSizeOfType};
ghost use Rattle.go_types.specs.Types.{struct, named};

use crate::types::{Field, GoType, Size};
use thiserror::Error;

/// How many cells a value may have at most, and how many nodes a type.
pub const SIZE_LIMIT: u32 = 65_536;

/// A type is too large.
#[derive(Debug, Drop, Error)]
#[error("the type is too large")]
pub struct SizeError;

/// The size, unless it is above the limit.
fn within(size: u32) -> Result<u32, SizeError>
    ensures ok { IfOk result (λ n. n ≡ size) }
    ensures within { IfOk result (λ n. n ≤ 65536) }
    ensures too_large { IfErr result (λ _. 65536 < size) }
{
    if size > SIZE_LIMIT {
        return Err(SizeError);
    }
    Ok(size)
}

/// A number as a type keeps it.
fn kept(size: u64) -> u32
    ensures { result ≡ kept size }
{
    if size > u64::from(SIZE_LIMIT) {
        return SIZE_LIMIT + 1;
    }
    size as u32
}

/// The size of arrays of a length, of elements of a size.
fn array_size(length: u32, element: Size) -> Size
    ensures cells { result.cells ≡ kept (length * element.cells) }
    ensures nodes { result.nodes ≡ kept (1 + element.nodes) }
{
    Size {
        cells: kept(u64::from(length) * u64::from(element.cells)),
        nodes: kept(1 + u64::from(element.nodes)),
    }
}

/// The size of slices of elements of a size.
fn slice_size(element: Size) -> Size
    ensures cells { result.cells ≡ 1 }
    ensures nodes { result.nodes ≡ kept (1 + element.nodes) }
{
    Size {
        cells: 1,
        nodes: kept(1 + u64::from(element.nodes)),
    }
}

/// The size of a type. What has parts keeps theirs, so that no tree is walked.
pub(crate) fn size_of(of: &GoType) -> Size
    ensures { IsSizeOfType (go_type of.now) result }
{
    match of {
        GoType::Basic(_) => Size { cells: 1, nodes: 1 },
        GoType::Array(length, element) => array_size(*length, element.size),
        GoType::Slice(element) => slice_size(element.size),
        GoType::Struct(fields) => fields.size,
        GoType::Named(named) => named.size,
    }
}

/// The size of structs of some fields.
pub(crate) fn struct_size(fields: &[Field]) -> Size
    ensures { IsSizeOfType (struct (fields_in fields.now)) result }
{
    let mut size = Size { cells: 0, nodes: 1 };
    for field in fields {
        let more = size_of(&field.of);
        size = Size {
            cells: kept(u64::from(size.cells) + u64::from(more.cells)),
            nodes: kept(u64::from(size.nodes) + u64::from(more.nodes)),
        };
    }
    size
}

/// The size of a declared type, by what it is declared as.
pub(crate) fn named_size(underlying: &GoType) -> Size
    ensures { (path name : List ℕ) → IsSizeOfType (named path name (go_type underlying.now)) result }
{
    let size = size_of(underlying);
    Size {
        cells: size.cells,
        nodes: kept(1 + u64::from(size.nodes)),
    }
}

/// How many cells a value of a type has: one of a basic type and a slice have 1, an array those of
/// all its elements, a struct those of all its fields. An `Err` where they are more than `SIZE_LIMIT`.
pub fn cells(of: &GoType) -> Result<u32, SizeError>
    ensures ok { IfOk result (λ n. n ≡ cells (go_type of.now)) }
    ensures within { IfOk result (λ n. n ≤ 65536) }
    ensures too_large { IfErr result (λ _. 65536 < cells (go_type of.now)) }
{
    within(size_of(of).cells)
}

/// How many nodes the tree of a type has: a basic type is 1 node, an array, a slice and a declared
/// type are 1 more than what is inside, a struct is 1 more than the types of its fields. An `Err` where
/// they are more than `SIZE_LIMIT`.
pub fn nodes(of: &GoType) -> Result<u32, SizeError>
    ensures ok { IfOk result (λ n. n ≡ nodes (go_type of.now)) }
    ensures within { IfOk result (λ n. n ≤ 65536) }
    ensures too_large { IfErr result (λ _. 65536 < nodes (go_type of.now)) }
{
    within(size_of(of).nodes)
}

//! Tokens as code shows them.
use go_const::constant::Text;

/// A token: what objects are written by.
#[derive(Clone, Copy)]
pub(crate) enum Piece<'a> {
    /// A tag, a size or an offset.
    Number(usize),
    /// The number of a cell.
    Integer(i128),
    /// The text of a cell.
    Text(&'a Text),
    /// The name of a package, a function or a variable.
    Name(&'a str),
}

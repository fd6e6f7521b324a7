//! What is kept of the declarations of a package while they are checked.

use go_typed::package::{TypedFunction, TypedInitialization, TypedUses};

/// What gives variables their values, what functions use, and functions, in the order of the text.
#[derive(Drop)]
pub(crate) struct Bodies {
    pub(crate) initializations: Vec<TypedInitialization>,
    pub(crate) uses: Vec<TypedUses>,
    pub(crate) functions: Vec<TypedFunction>,
}

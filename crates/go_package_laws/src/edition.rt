//! What edition 2 keeps, and what it brings.
ghost use Rattle.std.specs.Prelude.{ℕ, List, [], ◌∷◌};
ghost use Rattle.go_ast.specs.Grammar.{Derives, Lexeme};
ghost use Rattle.go_ast.specs.Parse.{Derived, IsParse};
ghost use Rattle.go_ast.specs.Trees.{File};
ghost use Rattle.go_package_laws.specs.Packages.{AreChecked, IsNamedMain};
ghost use Rattle.go_package_laws.specs.Sliced.{HasSlice};
ghost use Rattle.go_text.specs.declared.edition.Edition.TheVariants.{One, Two};
ghost use Rattle.go_typed.specs.Trees.{Package};

/// What is a file in edition 1 is the same file in edition 2.
pub fn law_first_edition_is_kept()
    ensures tokens { (levels : ℕ) (ts : List Lexeme) (f : File) → Derives One levels ts f → Derives Two levels ts f }
    ensures texts { (text : List ℕ) (f : File) → IsParse One text (Derived f) → IsParse Two text (Derived f) }
{}

/// There are checked programs with slices: a text is parsed to the file of a package main without
/// fault that has one.
pub fn law_texts_may_have_slices()
    ensures { (p : Package) × AreChecked (p ∷ []) × IsNamedMain (p ∷ []) × HasSlice p }
{}

//! What holds of the tokens of each source file: go.dev/ref/spec#Source_file_organization.
ghost use Rattle.std.specs.Prelude.{◌≡◌, ◌⊎◌, ◌≤◌, ◌↔◌, ℕ, Bool, List};
ghost use Rattle.go_text.specs.declared.edition.Edition.{Edition};
ghost use Rattle.go_ast.specs.Grammar.{Lexeme, Derives};
ghost use Rattle.go_ast.specs.Parse.{Parse, IsParse};
ghost use Rattle.go_ast.specs.Expected.{Expected};
ghost use Rattle.go_ast.specs.Machine.{start, Done, Refused, run_parser};
ghost use Rattle.go_ast.specs.ReadTrees.{ReadsExprs, ReadsTypes};
ghost use Rattle.go_ast.specs.Stops.{StopsAt};
ghost use Rattle.go_ast.specs.Trees.{File};

/// In an edition some tokens are at most one file, whatever the levels: operators group in one way (go.dev/ref/spec#Operators), each
/// `else` has one `if` (#If_statements), and behind a statement's header stands its block and no literal's value
/// (#Composite_literals).
pub fn law_one_file()
    ensures { (e : Edition) (m n : ℕ) (ts : List Lexeme) (f g : File) → Derives e m ts f → Derives e n ts g → f ≡ g }
{}

/// Some tokens are a file of at most 250 levels, or they stop being one at a token or at their end.
pub fn law_file_or_stop()
    ensures { (e : Edition) (ts : List Lexeme) → ((f : File) × Derives e 250 ts f) ⊎ ((number : ℕ) × (bad : List Lexeme) × StopsAt e 250 ts number bad) }
{}

/// Tokens that are a file don't stop being one.
pub fn law_not_both()
    ensures { (e : Edition) (levels : ℕ) (ts : List Lexeme) (f : File) (number : ℕ) (bad : List Lexeme) → Derives e levels ts f → StopsAt e levels ts number bad → ⊥ }
{}

/// Some tokens stop being a file at one place at most, for one number.
pub fn law_one_stop()
    ensures { (e : Edition) (levels : ℕ) (ts : List Lexeme) (m n : ℕ) (xs ys : List Lexeme) → StopsAt e levels ts m xs → StopsAt e levels ts n ys → (m ≡ n) × (xs ≡ ys) }
{}

/// The number where tokens stop being a file is 2 (of what is left out of Go), 3 (of what is wrong) or 4 (of too many
/// levels); `StopsAt` says which.
pub fn law_numbers()
    ensures { (e : Edition) (levels : ℕ) (ts : List Lexeme) (number : ℕ) (bad : List Lexeme) → StopsAt e levels ts number bad → (number ≡ 2) ⊎ (number ≡ 3) ⊎ (number ≡ 4) }
{}

/// The file that some tokens are is the one that the machine answers.
pub fn law_file_computed()
    ensures { (e : Edition) (levels : ℕ) (ts : List Lexeme) (f : File) → 1 ≤ levels → (Derives e levels ts f ↔ (run_parser e levels start ts ≡ Done f)) }
{}

/// The machine refuses some tokens where they stop being a file, for that number.
pub fn law_stop_computed()
    ensures { (e : Edition) (levels : ℕ) (ts : List Lexeme) (number : ℕ) (bad : List Lexeme) → 1 ≤ levels →
        (StopsAt e levels ts number bad ↔ (run_parser e levels start ts ≡ Refused number bad)) }
{}

/// What the machine reads as a type or an expression, whatever is due behind it, the grammar derives,
/// if no token follows with which it would go on: so the trees of `type_from` and `expr_from` are
/// those of the tokens that they took.
pub fn law_read_trees_are_derived()
    ensures types { (e : Edition) (levels l : ℕ) (x : Expected) → l ≤ levels → ReadsTypes e levels l x }
    ensures expressions { (e : Edition) (levels : ℕ) (header : Bool) (l : ℕ) (x : Expected) → l ≤ levels → ReadsExprs e levels header l x }
{}

/// A text has at most one parse: one file, or one fault at one place.
pub fn law_one_parse()
    ensures { (e : Edition) (text : List ℕ) (a b : Parse) → IsParse e text a → IsParse e text b → a ≡ b }
{}

/// A text has a parse.
pub fn law_some_parse()
    ensures { (e : Edition) (text : List ℕ) → (parse : Parse) × IsParse e text parse }
{}

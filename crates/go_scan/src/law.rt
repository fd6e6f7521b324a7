//! What holds of each text's tokens and of its refusal.
ghost use Rattle.std.specs.Prelude.{◌≡◌, ◌⊎◌, ℕ, List};
ghost use Rattle.std.specs.List.{All};
ghost use Rattle.go_text.specs.declared.place.Place.{Place};
ghost use Rattle.go_scan.specs.Lex.{Lexes, Refuses, StandsIn};
ghost use Rattle.go_scan.specs.Runes.{RuneMeans};
ghost use Rattle.go_scan.specs.Strings.{StringMeans};
ghost use Rattle.go_scan.specs.declared.fault.ScanFault.{ScanFault};
ghost use Rattle.go_scan.specs.declared.token.Token.{Token};

/// A text has at most one list of tokens.
pub fn law_one_list()
    ensures { (text : List ℕ) (a b : List Token) → Lexes text a → Lexes text b → a ≡ b }
{}

/// A text has a list of tokens or is refused.
pub fn law_list_or_refusal()
    ensures { (text : List ℕ) → ((ts : List Token) × Lexes text ts) ⊎ ((fault : ScanFault) × (place : Place) × Refuses text fault place) }
{}

/// A text that has a list of tokens isn't refused.
pub fn law_not_both()
    ensures { (text : List ℕ) (ts : List Token) (fault : ScanFault) (place : Place) → Lexes text ts → Refuses text fault place → ⊥ }
{}

/// A text is refused for at most one fault, at one place.
pub fn law_one_refusal()
    ensures { (text : List ℕ) (f g : ScanFault) (a b : Place) → Refuses text f a → Refuses text g b → (f ≡ g) × (a ≡ b) }
{}

/// Each token of a text stands in it.
pub fn law_tokens_stand()
    ensures { (text : List ℕ) (ts : List Token) → Lexes text ts → All (StandsIn text) ts }
{}

/// A string literal has one value.
pub fn law_one_string_value()
    ensures { (bytes a b : List ℕ) → StringMeans bytes a → StringMeans bytes b → a ≡ b }
{}

/// A rune literal has one value.
pub fn law_one_rune_value()
    ensures { (bytes : List ℕ) (a b : ℕ) → RuneMeans bytes a → RuneMeans bytes b → a ≡ b }
{}

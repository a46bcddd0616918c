//! Laws of the grammar, which no code runs.
ghost use Rattle.std.specs.Prelude.{◌≡◌, ℕ, List, [], Ok};
ghost use Rattle.yang_text.specs.Declarations.{Declaration};
ghost use Rattle.yang_text.specs.Grammar.{Spells};
ghost use Rattle.yang_text.specs.Reading.{faults, reading};

/// No text spells two lists of statements.
pub fn one_spelling()
    ensures { (text : List ℕ) (ds es : List Declaration)
        → Spells text ds → Spells text es → ds ≡ es }
{}

/// What is read of a text is what it spells.
pub fn read_is_spelled()
    ensures spelled { (text : List ℕ) (ds : List Declaration)
        → reading text ≡ Ok ds → Spells text ds }
    ensures read { (text : List ℕ) (ds : List Declaration)
        → Spells text ds → reading text ≡ Ok ds }
{}

/// A text spells statements exactly where it has no fault.
pub fn faultless_is_spelled()
    ensures spelled { (text : List ℕ) → faults text ≡ []
        → (ds : List Declaration) × Spells text ds }
    ensures faultless { (text : List ℕ) (ds : List Declaration)
        → Spells text ds → faults text ≡ [] }
{}

//! What can be told of type statements and of texts. The bodies do nothing: the laws are the contracts.
ghost use Rattle.std.specs.Prelude.{◌≡◌, ℕ, Bool, List};
ghost use Rattle.yang_pattern.specs.Decided.{IsDecided};
ghost use Rattle.yang_scope.specs.Modules.{Module};
ghost use Rattle.yang_text.specs.Declarations.{Declaration};
ghost use Rattle.yang_types.specs.DataType.{DataType};
ghost use Rattle.yang_types.specs.Flattening.{flat};
ghost use Rattle.yang_values.specs.Circles.{IsOnCircle};
ghost use Rattle.yang_values.specs.Defaults.{DecidesTexts, bad_default};
ghost use Rattle.yang_values.specs.TypeValues.{stored_type};
ghost use Rattle.yang_values.specs.WrittenTypes.{written_type};

/// For each list of modules there is a function that tells the type statements on circles from the
/// others.
pub fn circles_are_decided()
    ensures { (modules : List Module) → IsDecided (IsOnCircle modules) }
{}

/// The type that is stored of a type statement has the flat form of the one that is written, and a type takes
/// the same defaults in that form.
pub fn types_are_stored_flat()
    ensures types { (is_pattern : List ℕ → Bool) (modules : List Module) (m : ℕ) (d : Declaration)
        → stored_type is_pattern modules m d ≡ flat (written_type is_pattern modules m d) }
    ensures defaults { (accepts : DataType → List ℕ → Bool) → DecidesTexts accepts
        → (file : ℕ) (t : DataType) (d : Declaration)
        → bad_default accepts file (flat t) d ≡ bad_default accepts file t d }
{}

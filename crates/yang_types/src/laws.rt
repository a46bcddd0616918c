//! What can be told of types and texts. The bodies do nothing: the laws are the contracts.

ghost use Rattle.std.specs.Prelude.{◌↔◌, List, ℕ};
ghost use Rattle.yang_pattern.specs.Decided.{IsDecided};
ghost use Rattle.yang_types.specs.Accepts.{Accepts};
ghost use Rattle.yang_types.specs.DataType.{DataType};
ghost use Rattle.yang_types.specs.Flattening.{flat};

use yang_pattern::matches_are_decided;

/// For each type there is a function that tells the texts that it accepts from the others.
pub fn texts_are_decided()
    ensures { (t : DataType) → IsDecided (Accepts t) }
{
    matches_are_decided();
}

/// A type accepts the same texts in the form in which it is stored as it is written.
pub fn flat_types_accept_the_same()
    ensures { (t : DataType) (s : List ℕ) → Accepts (flat t) s ↔ Accepts t s }
{}

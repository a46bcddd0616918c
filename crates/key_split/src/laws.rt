//! What holds of the parts of every key.
ghost use Rattle.std.specs.Prelude.{◌≡◌, List, ℕ};
ghost use Rattle.key_split.specs.Key.{key_parts, ArePartsOf};

/// A key has parts, and they are one list. The body does nothing: the law is the contract.
pub fn parts_are_one(_key: &str)
    ensures there { ArePartsOf _key.now (key_parts _key.now) }
    ensures only { (parts : List (List ℕ))
        → ArePartsOf _key.now parts → parts ≡ key_parts _key.now }
{}

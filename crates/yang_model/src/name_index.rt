//! Where names stand first in a list, found without a walk.
ghost use Rattle.std.specs.Prelude.{◌≡◌, [], ◌∷◌, ◌++◌, List, ℕ, length, is_none, IfOk};
ghost use Rattle.yang_model.specs.Names.{IsIndexOf, place_of_name};

use host_core::Memory;
use std::alloc::Global;
use std::collections::BTreeMap;

/// The places of names in a list of names, each that of the first of its name.
#[derive(Drop)]
pub(crate) struct NameIndex {
    places: BTreeMap<String, usize>,
}

impl NameIndex {
    /// The index of no names.
    pub(crate) fn new(alloc: Global) -> NameIndex
        ensures { IsIndexOf result.places [] }
    {
        NameIndex {
            places: BTreeMap::new(alloc),
        }
    }

    /// The place of the first of a name.
    pub(crate) fn place_of(&self, name: &str) -> Option<usize>
        ensures { (names : List (List ℕ)) → IsIndexOf self.now.places names
            → result ≡ place_of_name name.now names }
    {
        self.places.get(name).copied()
    }

    /// Adds the next name of the list, whose place is its length, and says whether it is the first of
    /// its name.
    pub(crate) fn push(&mut self, alloc: Global, name: &str, place: usize) -> Result<bool, Memory>
        ensures first { IfOk result (λ first. (names : List (List ℕ))
            → IsIndexOf self.old.places names
            → first ≡ is_none (place_of_name name.now names)) }
        ensures next { IfOk result (λ _. (names : List (List ℕ)) → IsIndexOf self.old.places names
            → length names ≡ place → IsIndexOf self.new.places (names ++ name.now ∷ [])) }
    {
        if self.places.contains_key(name) {
            return Ok(false);
        }
        let key = String::from_str(alloc, name)?;
        self.places.insert(key, place)?;
        Ok(true)
    }
}

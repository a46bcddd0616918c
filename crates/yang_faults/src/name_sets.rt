//! Which names were given already.
ghost use Rattle.std.specs.Prelude.{◌≡◌, [], ◌∷◌, ◌++◌, List, ℕ, not, IfOk};
ghost use Rattle.std.specs.List.{list_any};
ghost use Rattle.std.specs.Str.{bytes_eq};
ghost use Rattle.yang_faults.specs.NameSets.{IsSetOf};

use host_core::Memory;
use std::alloc::Global;
use std::collections::BTreeSet;

/// A set of names.
#[derive(Drop)]
pub(crate) struct NameSet {
    names: BTreeSet<String>,
}

impl NameSet {
    /// No names.
    pub(crate) fn new(alloc: Global) -> NameSet
        ensures { IsSetOf result.names [] }
    {
        NameSet {
            names: BTreeSet::new(alloc),
        }
    }

    /// Whether a name is there.
    pub(crate) fn contains(&self, name: &str) -> bool
        ensures { (names : List (List ℕ)) → IsSetOf self.now.names names
            → result ≡ list_any (bytes_eq name.now) names }
    {
        self.names.contains(name)
    }

    /// Adds a name, and says whether it was not there.
    pub(crate) fn add(&mut self, alloc: Global, name: &str) -> Result<bool, Memory>
        ensures new { IfOk result (λ new. (names : List (List ℕ)) → IsSetOf self.old.names names
            → new ≡ not (list_any (bytes_eq name.now) names)) }
        ensures next { IfOk result (λ _. (names : List (List ℕ)) → IsSetOf self.old.names names
            → IsSetOf self.new.names (name.now ∷ names)) }
        ensures last { IfOk result (λ _. (names : List (List ℕ)) → IsSetOf self.old.names names
            → IsSetOf self.new.names (names ++ name.now ∷ [])) }
    {
        if self.names.contains(name) {
            return Ok(false);
        }
        let key = String::from_str(alloc, name)?;
        self.names.insert(key)?;
        Ok(true)
    }
}

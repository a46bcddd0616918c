//! Sets of names.
ghost use Rattle.std.specs.Prelude.{◌≡◌, [], ◌∷◌, List, ℕ, IfOk, OnOk};
ghost use Rattle.yang_must.specs.Findings.{IsSetOf, Gains};
ghost use Rattle.yang_must.specs.Musts.{in_order};

use host_core::{Memory, Names, Sequence, Txt};
use std::alloc::Global;
use std::collections::BTreeSet;

/// A set of names.
#[derive(Drop)]
pub(crate) struct NameSet {
    names: BTreeSet<String>,
}

impl NameSet {
    /// No names.
    pub(crate) fn new(alloc: Global) -> NameSet
        ensures { IsSetOf result.names [] }
    {
        NameSet {
            names: BTreeSet::new(alloc),
        }
    }

    /// Adds a name.
    pub(crate) fn add(&mut self, alloc: Global, name: &str) -> Result<(), Memory>
        ensures { OnOk result (Gains self.old.names self.new.names (name.now ∷ [])) }
    {
        if self.names.contains(name) {
            return Ok(());
        }
        let key = String::from_str(alloc, name)?;
        self.names.insert(key)?;
        Ok(())
    }

    /// The names in the order of their bytes.
    pub(crate) fn in_order(&self, alloc: Global) -> Result<Names, Memory>
        ensures { IfOk result (λ list. (names : List (List ℕ)) → IsSetOf self.now.names names
            → list ≡ in_order names) }
    {
        let mut list = Sequence::new(alloc);
        for name in self.names.iter() {
            list.push(Txt::new(alloc, name.as_str())?)?;
        }
        Ok(list)
    }
}

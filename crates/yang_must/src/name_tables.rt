//! The numbers that names stand for, found without a walk.
ghost use Rattle.std.specs.Prelude.{◌≡◌, [], ◌∷◌, ◌++◌, List, Option, ℕ, IfOk};
ghost use Rattle.yang_scope.specs.NameTables.{IsTableOf};
ghost use Rattle.yang_scope.specs.Statements.{Entry, name_entry, number_of_name};

use host_core::{Memory, Txt};
use std::alloc::Global;
use std::collections::BTreeMap;

/// A number for each of some names: of several of one name that of the first.
#[derive(Drop)]
pub(crate) struct NameTable {
    numbers: BTreeMap<String, usize>,
}

impl NameTable {
    /// No names.
    pub(crate) fn new(alloc: Global) -> NameTable
        ensures { IsTableOf result.numbers [] }
    {
        NameTable {
            numbers: BTreeMap::new(alloc),
        }
    }

    /// The number of the first of a name.
    pub(crate) fn get(&self, name: &str) -> Option<usize>
        ensures { (entries : List Entry) → IsTableOf self.now.numbers entries
            → result ≡ number_of_name name.now entries }
    {
        self.numbers.get(name).copied()
    }

    /// Adds a name behind the others.
    fn push(&mut self, alloc: Global, name: &str, number: usize) -> Result<(), Memory>
        ensures { IfOk result (λ _. (entries : List Entry) → IsTableOf self.old.numbers entries
            → IsTableOf self.new.numbers (entries ++ (name.now, number) ∷ [])) }
    {
        if self.numbers.contains_key(name) {
            return Ok(());
        }
        let key = String::from_str(alloc, name)?;
        self.numbers.insert(key, number)?;
        Ok(())
    }

    /// Adds a name that is there.
    pub(crate) fn push_some(
        &mut self,
        alloc: Global,
        name: &Option<Txt>,
        number: usize,
    ) -> Result<(), Memory>
        ensures { IfOk result (λ _. (entries : List Entry) → IsTableOf self.old.numbers entries
            → IsTableOf self.new.numbers (entries ++ name_entry number name.now)) }
    {
        match name {
            Some(name) => self.push(alloc, name.as_str(), number),
            None => Ok(()),
        }
    }
}

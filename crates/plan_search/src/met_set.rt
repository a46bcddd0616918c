//! The configurations that a search met, in the order of meeting.
ghost use Rattle.std.specs.Prelude.{◌≡◌, [], ◌∷◌, ◌++◌, length, IfOk, MatchBool};
ghost use Rattle.std.specs.List.{Contains};

use crate::hashed::Hashed;
use host_core::Memory;
use indexmap::IndexSet;
use std::alloc::Global;
use std::marker::Model;

/// Configurations, each once. Contracts see the list of them.
#[derive(Drop)]
pub(crate) struct Met {
    configs: IndexSet<Hashed>,
}

impl Model for Met {
    ghost use Rattle.std.specs.Prelude.{List};
    ghost use Rattle.conf_doc.specs.declared.configuration.Config.{Config as Configuration};

    ghost Value = { List Configuration };

    ghost view = { λ m. m.configs.keys };
}

impl Met {
    /// None, which take no memory.
    pub(crate) fn new(alloc: Global) -> Met
        ensures { result ≡ [] }
    {
        Met {
            configs: IndexSet::new(alloc),
        }
    }

    /// How many there are.
    pub(crate) fn len(&self) -> usize
        ensures { result ≡ length self.now }
    {
        self.configs.len()
    }

    /// Adds one at the end where it is new, and says whether it was; else nothing changes.
    pub(crate) fn insert(&mut self, config: Hashed) -> Result<bool, Memory>
        ensures { IfOk result (λ new. MatchBool new
            (¬ Contains self.old config × (self.new ≡ self.old ++ config ∷ []))
            (Contains self.old config × (self.new ≡ self.old))) }
    {
        Ok(self.configs.insert(config)?)
    }
}

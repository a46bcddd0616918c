//! Configurations with their hashes. That after a move is made of the one before and of the move's entry.
ghost use Rattle.std.specs.Prelude.{◌≡◌, ◌↔◌, IfOk, IsTrue};
ghost use Rattle.std.specs.Hash as fed;
ghost use Rattle.move_core.specs.Moves.{step};
ghost use Rattle.plan_search.specs.ConfigKeys.{config_eq, configs_alike, configs_equiv, configs_per};
ghost use Rattle.plan_search.specs.Hashes.{config_hash, entry_hash, entry_hash_at, table_hash};

use conf_doc::{Config, Entry, Table};
use host_core::Memory;
use move_core::Move;
use std::alloc::Global;
use std::hash::{FoldHasher, Hash, Hasher};
use std::marker::Model;

/// A configuration and its hash. Contracts see the configuration.
#[derive(Drop)]
pub(crate) struct Hashed {
    config: Config,
    hash: u64,
}

impl Model for Hashed {
    ghost use Rattle.std.specs.Prelude.{◌≡◌};
    ghost use Rattle.conf_doc.specs.declared.configuration.Config.{Config as Configuration};
    ghost use Rattle.plan_search.specs.Hashes.{config_hash};

    ghost Value = { Configuration };

    ghost view = { λ h. h.config };

    ghost invariant = { λ h. h.hash ≡ config_hash (⟦<Entry as Hash>⟧.hash_input) h.config };
}

/// The hash of an entry.
fn hash_entry(table: &str, key: &str, entry: &Entry) -> u64
    ensures { result
        ≡ entry_hash (⟦<Entry as Hash>⟧.hash_input) table.now key.now entry.now }
{
    let mut hasher = FoldHasher::default();
    table.hash(&mut hasher);
    key.hash(&mut hasher);
    entry.hash(&mut hasher);
    hasher.finish()
}

/// The hash of a table.
fn hash_table(name: &str, table: &Table) -> u64
    ensures { result ≡ table_hash (⟦<Entry as Hash>⟧.hash_input) name.now table.now }
{
    let mut hash = 0;
    for i in 0..table.len() {
        hash ^= hash_entry(name, table.name_at(i), table.part_at(i));
    }
    hash
}

/// The hash of a configuration.
fn hash_config(config: &Config) -> u64
    ensures { result ≡ config_hash (⟦<Entry as Hash>⟧.hash_input) config.now }
{
    let mut hash = 0;
    for i in 0..config.len() {
        hash ^= hash_table(config.name_at(i), config.part_at(i));
    }
    hash
}

/// The hash of the entry of a table at a key, 0 where there is none.
fn hash_entry_at(config: &Config, table: &str, key: &str) -> u64
    ensures { result
        ≡ entry_hash_at (⟦<Entry as Hash>⟧.hash_input) table.now key.now config.now }
{
    match config.entry(table, key) {
        Some(entry) => hash_entry(table, key, entry),
        None => 0,
    }
}

impl Hashed {
    /// A configuration, all of it hashed.
    pub(crate) fn new(config: Config) -> Hashed
        ensures { result ≡ config }
    {
        let hash = hash_config(&config);
        Hashed { config, hash }
    }

    /// The configuration after a move. Only the move's entry is hashed, before and after.
    pub(crate) fn after(&self, next: Config, mv: &Move) -> Hashed
        requires { next ≡ step self.now mv.now }
        ensures { result ≡ next }
    {
        let place = mv.place();
        if place.len() < 2 {
            return Hashed::new(next);
        }
        let table = place.name_at(0);
        let key = place.name_at(1);
        let _tables = self.config.len();
        let old = hash_entry_at(&self.config, table, key);
        let new = hash_entry_at(&next, table, key);
        Hashed {
            hash: (self.hash ^ old) ^ new,
            config: next,
        }
    }

    /// The configuration.
    pub(crate) fn config(&self) -> &Config
        ensures { result.now ≡ self.now }
    {
        &self.config
    }

    /// Whether the configurations are the same. Where the hashes differ they aren't looked at.
    pub(crate) fn same(&self, other: &Hashed) -> bool
        ensures { IsTrue result ↔ (self.now ≡ other.now) }
    {
        if self.hash != other.hash {
            return false;
        }
        self.config.same(&other.config)
    }

    /// The same configuration.
    pub(crate) fn copy(&self, alloc: Global) -> Result<Hashed, Memory>
        ensures { IfOk result (λ h. h ≡ self.now) }
    {
        let config = self.config.copy(alloc)?;
        Ok(Hashed {
            config,
            hash: self.hash,
        })
    }
}

impl PartialEq for Hashed {
    ghost eq = { config_eq };

    ghost laws = { configs_per };

    fn eq(&self, other: &Hashed) -> bool {
        self.same(other)
    }
}

impl Eq for Hashed {
    ghost laws = { configs_equiv };
}

impl Hash for Hashed {
    ghost hash_input = { λ c. fed.u64 (config_hash (⟦<Entry as Hash>⟧.hash_input) c) };

    ghost respects_eq = { configs_alike (⟦<Entry as Hash>⟧.hash_input) };

    fn hash<H: Hasher>(&self, state: &mut H) {
        state.write_u64(self.hash);
    }
}

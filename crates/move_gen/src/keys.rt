//! The moves of whole entries.
ghost use Rattle.std.specs.Prelude.{◌≡◌};
ghost use Rattle.move_core.specs.Generated.{IsFromKeys};
ghost use Rattle.move_gen.specs.EntryLaws.{removed_for};
ghost use Rattle.move_gen.specs.Given.{IsRemovedEntry};
ghost use Rattle.move_gen.specs.Giving.{Gives};
ghost use Rattle.move_gen.specs.SameEntryLaws.{removed_differ};

use crate::adding::{AddedEntries, Fields};
use crate::entries::{EntryMoves, give_entries};
use crate::giving::{KEY_CLASS, give_own};
use conf_doc::{Config, Entry, Path};
use host_core::Memory;
use move_core::{Ctx, Generated, Move, MoveGen};
use std::alloc::Global;

/// Gives the remove of each entry that goal lacks, and the add of each that cur lacks.
#[derive(Drop)]
pub struct KeyGen {}

impl KeyGen {
    /// The generator, which keeps nothing.
    pub fn new() -> KeyGen
        ensures { ⟦<KeyGen as MoveGen>⟧.gen_kind result ≡ 2 }
    {
        KeyGen {}
    }
}

impl MoveGen for KeyGen {
    ghost gen_kind = { λ _. 2 };

    fn kind(&self) -> u32 {
        2
    }

    fn moves(
        &mut self,
        alloc: Global,
        _ctx: &Ctx,
        cur: &Config,
        goal: &Config,
        out: &mut Vec<Generated>,
    ) -> Result<(), Memory> {
        give_keys(alloc, cur, goal, out)
    }
}

/// The remove of each entry that goal lacks.
#[derive(Drop)]
struct RemovedEntries<'a> {
    goal: &'a Config,
}

impl<'a> EntryMoves for RemovedEntries<'a> {
    ghost is_given = { λ s. IsRemovedEntry s.goal.now };

    ghost other = { λ s. s.goal.now };

    fn beside(&self) -> &Config {
        self.goal
    }

    fn is_of_missing(&self) -> bool {
        true
    }

    fn is_of_lists(&self) -> bool {
        false
    }

    fn give(
        &self,
        alloc: Global,
        table: &str,
        key: &str,
        _entry: &Entry,
        there: Option<&Entry>,
        out: &mut Vec<Generated>,
    ) -> Result<(), Memory> {
        if there.is_some() {
            return Ok(());
        }
        let path = Path::new(alloc, &[table, key])?;
        give_own(alloc, Move::Remove(path), KEY_CLASS, out)
    }

    ghost for_entries = { λ s. removed_for s.goal.now };

    ghost for_differing = { λ s. removed_differ s.goal.now };
}

/// Puts the removes and the adds.
fn give_keys(
    alloc: Global,
    cur: &Config,
    goal: &Config,
    out: &mut Vec<Generated>,
) -> Result<(), Memory>
    ensures { let Is = IsFromKeys cur.now goal.now in
        Gives Is result out.old.items out.new.items }
{
    give_entries(alloc, cur, &RemovedEntries { goal }, out)?;
    let added = AddedEntries {
        cur,
        fields: Fields::All,
    };
    give_entries(alloc, goal, &added, out)
}

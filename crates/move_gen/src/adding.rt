//! The adds of entries that cur lacks.
ghost use Rattle.std.specs.Prelude.{◌≡◌, ◌<◌, [], ◌∷◌, length, IfOk};
ghost use Rattle.move_core.specs.Generated.{added_entry};
ghost use Rattle.move_gen.specs.Adding.{IsAs, class_of};
ghost use Rattle.move_gen.specs.EntryLaws.{added_for};
ghost use Rattle.move_gen.specs.Given.{IsAddedEntry};
ghost use Rattle.move_gen.specs.Giving.{Gives};
ghost use Rattle.move_gen.specs.SameEntryLaws.{added_differ};

use crate::entries::EntryMoves;
use crate::giving::{KEY_CLASS, SEED_CLASS, give};
use crate::seeds::seed_of;
use conf_doc::{Config, Entry, Part, Path, Table};
use host_core::Memory;
use move_core::{Ctx, Generated, Move};
use std::alloc::Global;

/// Which fields of goal's entry an added one has.
#[derive(Drop)]
pub(crate) enum Fields<'a> {
    All,
    /// Those without a want in goal.
    Seed { ctx: &'a Ctx, goal: &'a Config },
}

impl<'a> Fields<'a> {
    /// The entry with those fields.
    fn choose(&self, alloc: Global, table: &str, key: &str, entry: &Entry) -> Result<Entry, Memory>
        ensures { IfOk result (IsAs self.now table.now key.now entry.now) }
    {
        match self {
            Fields::All => entry.copy(alloc),
            Fields::Seed { ctx, goal } => seed_of(alloc, ctx, goal, table, key, entry),
        }
    }

    /// The class of the adds.
    fn class(&self) -> u8
        ensures { result ≡ class_of self.now }
    {
        match self {
            Fields::All => KEY_CLASS,
            Fields::Seed { .. } => SEED_CLASS,
        }
    }
}

/// The add of each entry that cur lacks, with some fields.
#[derive(Drop)]
pub(crate) struct AddedEntries<'a> {
    pub(crate) cur: &'a Config,
    pub(crate) fields: Fields<'a>,
}

impl<'a> EntryMoves for AddedEntries<'a> {
    ghost is_given = { λ s. IsAddedEntry (IsAs s.fields) (class_of s.fields) s.cur.now };

    ghost other = { λ s. s.cur.now };

    fn beside(&self) -> &Config {
        self.cur
    }

    fn is_of_missing(&self) -> bool {
        true
    }

    fn is_of_lists(&self) -> bool {
        false
    }

    fn give(
        &self,
        alloc: Global,
        table: &str,
        key: &str,
        entry: &Entry,
        there: Option<&Entry>,
        out: &mut Vec<Generated>,
    ) -> Result<(), Memory> {
        if there.is_some() {
            return Ok(());
        }
        let new = self.fields.choose(alloc, table, key, entry)?;
        let place = Path::new(alloc, &[table, key])?;
        let mv = added_entry(alloc, self.cur, &place, table, key, new)?;
        give(mv, place, self.fields.class(), out)
    }

    ghost for_entries = { λ s. added_for (IsAs s.fields) (class_of s.fields) s.cur.now };

    ghost for_differing = { λ s. added_differ (IsAs s.fields) (class_of s.fields) s.cur.now };
}

/// The add of an entry at its place, or where its table isn't there, of the table that holds it alone.
fn added_entry(
    alloc: Global,
    cur: &Config,
    place: &Path,
    table: &str,
    key: &str,
    entry: Entry,
) -> Result<Move, Memory>
    requires table { 0 < length table.now }
    requires key { 0 < length key.now }
    requires place { place.now ≡ table.now ∷ key.now ∷ [] }
    ensures { IfOk result (λ m. m ≡ added_entry cur.now table.now key.now entry) }
{
    if cur.table(table).is_some() {
        let path = place.copy(alloc)?;
        return Ok(Move::Add(path, Part::Entry(entry)));
    }
    let path = Path::new(alloc, &[table])?;
    let alone = Table::new(alloc).with(alloc, key, &entry)?;
    Ok(Move::Add(path, Part::Table(alone)))
}

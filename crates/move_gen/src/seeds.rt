//! The adds of entries that have only the fields without wants.
ghost use Rattle.std.specs.Prelude.{◌≡◌, IfOk};
ghost use Rattle.move_core.specs.Contexts.{rulebook};
ghost use Rattle.move_core.specs.Generated.{IsFromSeeds, IsSeed};
ghost use Rattle.move_gen.specs.Giving.{Gives};

use crate::adding::{AddedEntries, Fields};
use crate::entries::give_entries;
use crate::field_wants::{has_free_fields, has_no_want};
use conf_doc::{Config, Entry};
use host_core::Memory;
use move_core::{Ctx, Generated, MoveGen};
use std::alloc::Global;

/// Gives the add of each entry that cur lacks, with the fields that have no want in goal. A list of which
/// one item has a want is left out whole.
#[derive(Drop)]
pub struct SeedGen {}

impl SeedGen {
    /// The generator, which keeps nothing.
    pub fn new() -> SeedGen
        ensures { ⟦<SeedGen as MoveGen>⟧.gen_kind result ≡ 4 }
    {
        SeedGen {}
    }
}

impl MoveGen for SeedGen {
    ghost gen_kind = { λ _. 4 };

    fn kind(&self) -> u32 {
        4
    }

    fn moves(
        &mut self,
        alloc: Global,
        ctx: &Ctx,
        cur: &Config,
        goal: &Config,
        out: &mut Vec<Generated>,
    ) -> Result<(), Memory> {
        give_seeds(alloc, ctx, cur, goal, out)
    }
}

/// Puts the adds.
fn give_seeds(
    alloc: Global,
    ctx: &Ctx,
    cur: &Config,
    goal: &Config,
    out: &mut Vec<Generated>,
) -> Result<(), Memory>
    ensures { let Is = IsFromSeeds (rulebook ctx.now) cur.now goal.now in
        Gives Is result out.old.items out.new.items }
{
    let added = AddedEntries {
        cur,
        fields: Fields::Seed { ctx, goal },
    };
    give_entries(alloc, goal, &added, out)
}

/// The fields of an entry of goal that have no want there: all, where no field has one.
pub(crate) fn seed_of(
    alloc: Global,
    ctx: &Ctx,
    goal: &Config,
    table: &str,
    key: &str,
    entry: &Entry,
) -> Result<Entry, Memory>
    ensures { IfOk result (IsSeed (rulebook ctx.now) goal.now table.now key.now entry.now) }
{
    if has_free_fields(ctx, goal, table, key) {
        let whole = entry.copy(alloc)?;
        return Ok(whole);
    }
    let mut seed = Entry::new(alloc);
    for i in 0..entry.len() {
        let field = entry.name_at(i);
        let value = entry.part_at(i);
        if has_no_want(ctx, goal, table, key, field) {
            seed = seed.with(alloc, field, value)?;
        }
    }
    Ok(seed)
}

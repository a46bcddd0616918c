//! The walk over the entries of a configuration, with moves for each. What the other configuration has the same,
//! or where that is enough has at all, is passed over.
ghost use Rattle.std.specs.Prelude.{◌≡◌, ◌+◌, ◌<◌, ◌≤◌, length, option_copied, Some};
ghost use Rattle.conf_doc.specs.Pairs.{find};
ghost use Rattle.move_gen.specs.Given.{IsOfTable};
ghost use Rattle.move_gen.specs.Giving.{Gives, IsNoneFrom, IsOfSome};

use crate::beside::look_beside;
use conf_doc::{Config, Entry, Table};
use host_core::Memory;
use move_core::Generated;
use std::alloc::Global;

/// The moves that are given for an entry.
pub(crate) trait EntryMoves {
    ghost use Rattle.std.specs.Prelude.{◌≡◌, [], ◌∷◌, option_copied, option_map, IsTrue};
    ghost use Rattle.conf_doc.specs.Changes.{part_at};
    ghost use Rattle.conf_doc.specs.declared.configuration.Config.{Config as Configuration};
    ghost use Rattle.conf_doc.specs.declared.parts.Part.TheVariants as part;
    ghost use Rattle.move_gen.specs.Given.{AreForDiffering, AreForEntries, AreOfLists, AreOfMissing, EntryGiver};

    /// What is given for a table, a key and the entry there.
    ghost is_given: { Self → EntryGiver };

    /// The other configuration.
    ghost other: { Self → Configuration };

    /// It is looked at beside the one that is gone through.
    fn beside(&self) -> &Config
        ensures { result.now ≡ other self.now };

    /// Whether there are moves only for entries that the other configuration lacks.
    fn is_of_missing(&self) -> bool
        ensures { IsTrue result → AreOfMissing (is_given self.now) (other self.now) };

    /// Whether there are moves only for entries that hold a list.
    fn is_of_lists(&self) -> bool
        ensures { IsTrue result → AreOfLists (is_given self.now) };

    /// Appends one entry's moves. What the other configuration has at that place is given too.
    fn give(
        &self,
        alloc: Global,
        table: &str,
        key: &str,
        entry: &Entry,
        there: Option<&Entry>,
        out: &mut Vec<Generated>,
    ) -> Result<(), Memory>
        requires table { 0 < length table.now }
        requires key { 0 < length key.now }
        requires there { option_map part.Entry (option_copied there)
            ≡ part_at (other self.now) (table.now ∷ key.now ∷ []) }
        ensures { let Is = is_given self.now table.now key.now entry.now in
            Gives Is result out.old.items out.new.items };

    /// They are for places of that entry.
    ghost for_entries: { (s : Self) → AreForEntries (is_given s) };

    /// None is for an entry that the other configuration has the same.
    ghost for_differing: { (s : Self) → AreForDiffering (is_given s) (other s) };
}

/// How many entries of a table, from an index on, have no moves: those that the other table has the same from an
/// index on, or has at all where that is enough.
fn count_settled<M: EntryMoves>(
    name: &str,
    table: &Table,
    i: usize,
    other: &Table,
    near: usize,
    moves: &M,
) -> usize
    requires first { i ≤ length table.now }
    requires second { near ≤ length other.now }
    requires there { find name.now (M.other moves.now) ≡ Some other.now }
    ensures within { i + result ≤ length table.now }
    ensures beside { near + result ≤ length other.now }
    ensures none { IsNoneFrom (M.is_given moves.now name.now) table.now i (i + result) }
{
    if moves.is_of_missing() {
        table.count_same_keys(i, other, near)
    } else {
        table.count_same(i, other, near)
    }
}

/// The index behind such entries, and where to look in the other table, which may not be there. Where there are moves
/// only for entries that hold a list, a table without lists has none.
fn pass_settled<M: EntryMoves>(
    name: &str,
    table: &Table,
    i: usize,
    other: Option<&Table>,
    near: usize,
    moves: &M,
) -> (usize, usize)
    requires first { i ≤ length table.now }
    requires there { option_copied other ≡ find name.now (M.other moves.now) }
    ensures from { i ≤ result.0 }
    ensures none { IsNoneFrom (M.is_given moves.now name.now) table.now i result.0 }
{
    // It fits an index, and so do the sums below.
    let _ = table.len();
    if i <= table.len() && moves.is_of_lists() && table.holds_no_list() {
        return (table.len(), 0);
    }
    match other {
        Some(other) => {
            let near = near.min(other.len());
            let settled = count_settled(name, table, i, other, near, moves);
            (i + settled, near + settled)
        }
        None => (i, near),
    }
}

/// Appends the moves of a table's entries.
fn give_in_table<M: EntryMoves>(
    alloc: Global,
    name: &str,
    table: &Table,
    moves: &M,
    out: &mut Vec<Generated>,
) -> Result<(), Memory>
    requires { 0 < length name.now }
    ensures { let Is = IsOfTable (M.is_given moves.now) name.now table.now in
        Gives Is result out.old.items out.new.items }
{
    let other = moves.beside().table(name);
    let (mut i, mut near) = pass_settled(name, table, 0, other, 0, moves);
    while i < table.len() {
        let key = table.name_at(i);
        let (there, next) = look_beside(other, key, near);
        moves.give(alloc, name, key, table.part_at(i), there, out)?;
        (i, near) = pass_settled(name, table, i + 1, other, next, moves);
    }
    Ok(())
}

/// Appends the moves of a configuration's entries.
pub(crate) fn give_entries<M: EntryMoves>(
    alloc: Global,
    config: &Config,
    moves: &M,
    out: &mut Vec<Generated>,
) -> Result<(), Memory>
    ensures { let Is = IsOfSome (IsOfTable (M.is_given moves.now)) config.now in
        Gives Is result out.old.items out.new.items }
{
    for i in 0..config.len() {
        give_in_table(alloc, config.name_at(i), config.part_at(i), moves, out)?;
    }
    Ok(())
}

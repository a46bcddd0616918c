//! The extender of referrers.
ghost use Rattle.std.specs.Prelude.{◌≡◌, ◌↔◌, [], Some, IfOk, IsSome, IsTrue, OnOk};
ghost use Rattle.conf_check.specs.Wants.{want_of};
ghost use Rattle.conf_doc.specs.Changes.{entry_at};
ghost use Rattle.conf_doc.specs.Pairs.{find};
ghost use Rattle.conf_doc.specs.Paths.{IsPath};
ghost use Rattle.move_core.specs.Appends.{Appends};
ghost use Rattle.move_core.specs.Contexts.{rulebook};
ghost use Rattle.move_core.specs.Extensions.{IsReferrer};
ghost use Rattle.move_core.specs.Moves.{IsDefined, list_at};
ghost use Rattle.key_split.specs.Key.{key_parts};
ghost use Rattle.move_extend.specs.Found.{Finds, HasNone};
ghost use Rattle.move_extend.specs.KeyLengths.{AreKeysShort};
ghost use Rattle.move_extend.specs.Mentions.{BreaksOnly, BreaksPartsOnly, GivesOfChange, GivesOfEntry, GivesOfTable, IsRemovalOf, MayHave};
ghost use Rattle.move_extend.specs.Referrers.{IsBroken, place_of, removal_of};

use crate::changes::Change;
use crate::found::{add_move, append_moves};
use crate::kept_keys::{keeps_always, keeps_keys};
use crate::key_lengths::has_short_keys;
use crate::mentions::{Gone, may_have, may_mention, parts_of};
use crate::referring::{is_referred, table_refers};
use conf_check::{Want, WantAt, entry_wants, is_satisfied};
use conf_doc::{Config, Entry, Path, Table, Value};
use host_core::Memory;
use move_core::{Ctx, Move, MoveExt, Moves, step};
use std::alloc::Global;
use yang_model::Models;

/// Each place is removed that has a want which the move leaves unsatisfied. The wants of a configuration are
/// looked at only where the move takes a key away, and only in tables that may refer to its table.
#[derive(Drop)]
pub struct ReferrersExt {}

impl ReferrersExt {
    /// The extender, which keeps nothing.
    pub fn new() -> ReferrersExt
        ensures { ⟦<ReferrersExt as MoveExt>⟧.ext_kind result ≡ 3 }
    {
        ReferrersExt {}
    }
}

impl MoveExt for ReferrersExt {
    ghost ext_kind = { λ _. 3 };

    fn kind(&self) -> u32 {
        3
    }

    fn extend(
        &mut self,
        alloc: Global,
        ctx: &Ctx,
        cur: &Config,
        _goal: &Config,
        mv: &Move,
        out: &mut Vec<Move>,
    ) -> Result<(), Memory> {
        let removals = removals_of(alloc, ctx, cur, mv)?;
        append_moves(out, removals)
    }
}

/// The path of the entry or the field where a want stands.
fn path_of(alloc: Global, at: &WantAt) -> Result<Path, Memory>
    requires { IsPath (place_of at.now) }
    ensures { IfOk result (λ p. p ≡ place_of at.now) }
{
    match at.field {
        Some(field) => Path::new(alloc, &[at.table, at.key, field]),
        None => Path::new(alloc, &[at.table, at.key]),
    }
}

/// Whether a want stands in a list.
fn is_in_list(cur: &Config, at: &WantAt) -> bool
    ensures { IsTrue result ↔ IsSome (list_at cur.now (place_of at.now)) }
{
    match at.field {
        Some(field) => match cur.value(at.table, at.key, field) {
            Some(Value::List(_)) => true,
            _ => false,
        },
        None => false,
    }
}

/// The removal of what has a want: of an entry, a field, or an item of a list.
fn removal_of(alloc: Global, cur: &Config, at: &WantAt) -> Result<Move, Memory>
    requires { IsPath (place_of at.now) }
    ensures { IfOk result (λ m. m ≡ removal_of cur.now at.now) }
{
    let path = path_of(alloc, at)?;
    if is_in_list(cur, at) {
        Ok(Move::RemoveItem(path, at.item))
    } else {
        Ok(Move::Remove(path))
    }
}

/// Whether a key of a table is wanted that a configuration lacks.
fn is_broken(models: &Models, next: &Config, table: &str, want: &Want) -> bool
    ensures { IsTrue result ↔ IsBroken models.now next.now table.now (want_of want.now) }
{
    want.table == table && !is_satisfied(models, next, want)
}

/// The same of a table that loses keys, where such a want has a text that they may have. By its text most wants
/// are told at once.
fn is_lost(change: &Change<'_>, gone: &Gone<'_>, want: &Want) -> bool
    requires { let c = change.now in
        IsBroken c.models.now c.next.now gone.now.table.now (want_of want.now)
        → MayHave gone.now want.now.text.now }
    ensures { let c = change.now in IsTrue result
        ↔ IsBroken c.models.now c.next.now gone.now.table.now (want_of want.now) }
{
    if !may_have(gone, want.text) {
        return false;
    }
    is_broken(change.models, change.next, gone.table, want)
}

/// Adds the removal of the place of such a want, unless it is there.
fn find_removal(
    alloc: Global,
    change: &Change<'_>,
    gone: &Gone<'_>,
    at: &WantAt,
    found: &mut Moves,
) -> Result<(), Memory>
    requires path { IsPath (place_of at.now) }
    requires only { let c = change.now in
        IsBroken c.models.now c.next.now gone.now.table.now (want_of at.now.want)
        → MayHave gone.now at.now.want.text.now }
    ensures { OnOk result
        (Finds (IsRemovalOf change.now gone.now.table.now at.now) found.old found.new) }
{
    if is_lost(change, gone, &at.want) {
        let removal = removal_of(alloc, change.cur, at)?;
        add_move(found, removal)
    } else {
        Ok(())
    }
}

/// The removals of the places of such wants of an entry.
fn removals_in_entry(
    alloc: Global,
    change: &Change<'_>,
    gone: &Gone<'_>,
    table: &str,
    key: &str,
) -> Result<Moves, Memory>
    requires { BreaksOnly change.now gone.now }
    ensures { let Gives = GivesOfEntry change.now gone.now.table.now table.now key.now in
        IfOk result (Finds Gives []) }
{
    let _tables = change.cur.len();
    let mut found = Moves::new(alloc);
    for at in entry_wants(change.models, change.cur, table, key) {
        find_removal(alloc, change, gone, &at, &mut found)?;
    }
    Ok(found)
}

/// Adds them, where none of them is there.
fn find_in_entry(
    alloc: Global,
    change: &Change<'_>,
    gone: &Gone<'_>,
    table: &str,
    key: &str,
    found: &mut Vec<Move>,
) -> Result<(), Memory>
    requires only { BreaksOnly change.now gone.now }
    requires fresh { let Gives = GivesOfEntry change.now gone.now.table.now table.now key.now in
        HasNone Gives found.old.items }
    ensures { let Gives = GivesOfEntry change.now gone.now.table.now table.now key.now in
        OnOk result (Finds Gives found.old.items found.new.items) }
{
    let removals = removals_in_entry(alloc, change, gone, table, key)?;
    append_moves(found, removals)
}

/// The same, where the entry has one of the texts that alone can be wanted in vain.
fn find_in_mentioning(
    alloc: Global,
    change: &Change<'_>,
    gone: &Gone<'_>,
    table: &str,
    is_short: bool,
    key: &str,
    fields: &Entry,
    found: &mut Vec<Move>,
) -> Result<(), Memory>
    requires entry { entry_at change.now.cur.now table.now key.now ≡ Some fields.now }
    requires only { BreaksOnly change.now gone.now }
    requires short { IsTrue is_short → AreKeysShort change.now.models.now table.now }
    requires fresh { let Gives = GivesOfEntry change.now gone.now.table.now table.now key.now in
        HasNone Gives found.old.items }
    ensures { let Gives = GivesOfEntry change.now gone.now.table.now table.now key.now in
        OnOk result (Finds Gives found.old.items found.new.items) }
{
    let _tables = change.cur.len();
    if may_mention(gone, is_short, key, fields) {
        find_in_entry(alloc, change, gone, table, key, found)
    } else {
        Ok(())
    }
}

/// The same of each entry of a table, where one may refer to the table that loses the keys.
fn find_in_table(
    alloc: Global,
    change: &Change<'_>,
    gone: &Gone<'_>,
    table: &str,
    entries: &Table,
    found: &mut Vec<Move>,
) -> Result<(), Memory>
    requires table { find table.now change.now.cur.now ≡ Some entries.now }
    requires only { BreaksOnly change.now gone.now }
    requires fresh { let t = gone.now.table.now in
        HasNone (GivesOfTable change.now t (table.now, entries.now)) found.old.items }
    ensures { let Gives = GivesOfTable change.now gone.now.table.now (table.now, entries.now) in
        OnOk result (Finds Gives found.old.items found.new.items) }
{
    if !table_refers(change.models, table, gone.table) {
        return Ok(());
    }
    let is_short = has_short_keys(change.models, table);
    for i in 0..entries.len() {
        let key = entries.name_at(i);
        let fields = entries.part_at(i);
        find_in_mentioning(alloc, change, gone, table, is_short, key, fields, found)?;
    }
    Ok(())
}

/// The removals of the places of all wants of a configuration that are broken, where the texts are known
/// that these can have.
fn find_in_config(alloc: Global, change: &Change<'_>, gone: &Gone<'_>) -> Result<Moves, Memory>
    requires { BreaksOnly change.now gone.now }
    ensures { IfOk result (Appends (GivesOfChange change.now gone.now.table.now) []) }
{
    let cur = change.cur;
    let mut found = Vec::new(alloc);
    for i in 0..cur.len() {
        find_in_table(
            alloc,
            change,
            gone,
            cur.name_at(i),
            cur.part_at(i),
            &mut found,
        )?;
    }
    Ok(Moves::from_vec(found))
}

/// The removals of the referrers to a key that a move takes away. Only entries are looked at that have a
/// part of the key among their texts: what all others want is there still.
fn removals_of_key(
    alloc: Global,
    change: &Change<'_>,
    table: &str,
    key: &str,
) -> Result<Moves, Memory>
    requires { BreaksPartsOnly change.now table.now (key_parts key.now) }
    ensures { IfOk result (Appends (GivesOfChange change.now table.now) []) }
{
    let parts = parts_of(alloc, key)?;
    let gone = Gone {
        table,
        is_whole: false,
        parts: &parts,
    };
    find_in_config(alloc, change, &gone)
}

/// The removals of the referrers to keys of a table, of which a move takes some or all away. Entries of tables are
/// looked at that may refer to it.
fn removals_of_keys(alloc: Global, change: &Change<'_>, table: &str) -> Result<Moves, Memory>
    ensures { IfOk result (Appends (GivesOfChange change.now table.now) []) }
{
    let gone = Gone {
        table,
        is_whole: true,
        parts: &[],
    };
    find_in_config(alloc, change, &gone)
}

/// The removals of the referrers to what a move takes away. For a move that keeps the keys of any
/// configuration the next one isn't made.
fn removals_of(alloc: Global, ctx: &Ctx, cur: &Config, mv: &Move) -> Result<Moves, Memory>
    requires { IsDefined cur.now mv.now }
    ensures { IfOk result (Appends (IsReferrer (rulebook ctx.now) cur.now mv.now) []) }
{
    if keeps_always(mv) {
        return Ok(Moves::new(alloc));
    }
    let models = &ctx.models;
    let table = mv.table();
    if !is_referred(models, cur, table) {
        return Ok(Moves::new(alloc));
    }
    let next = step(alloc, cur, mv)?;
    if keeps_keys(cur, &next, mv) {
        return Ok(Moves::new(alloc));
    }
    let change = Change {
        models,
        cur,
        next: &next,
    };
    let place = mv.place();
    if place.len() > 1 {
        removals_of_key(alloc, &change, table, place.name_at(1))
    } else {
        removals_of_keys(alloc, &change, table)
    }
}

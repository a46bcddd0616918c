//! The moves of fields.
ghost use Rattle.std.specs.Prelude.{◌≡◌, ◌<◌, [], ◌∷◌, length, Some};
ghost use Rattle.conf_doc.specs.Changes.{part_at};
ghost use Rattle.conf_doc.specs.declared.configuration.Config.{Config as Configuration};
ghost use Rattle.conf_doc.specs.declared.parts.Part.TheVariants as part;
ghost use Rattle.move_core.specs.Generated.{IsFromFields};
ghost use Rattle.move_gen.specs.EntryLaws.{changed_for};
ghost use Rattle.move_gen.specs.FieldsOfEntry.{IsFieldOf};
ghost use Rattle.move_gen.specs.Given.{IsChangedEntry, IsOfFields, IsRemovedField, IsReplace, IsSetField};
ghost use Rattle.move_gen.specs.Giving.{Gives, IsOfSome};
ghost use Rattle.move_gen.specs.SameEntryLaws.{changed_differ};

use crate::beside::field_near;
use crate::entries::{EntryMoves, give_entries};
use crate::giving::{FIELD_CLASS, give_own};
use conf_doc::{Config, Entry, Part, Path, Value};
use host_core::Memory;
use move_core::{Ctx, Generated, Move, MoveGen};
use std::alloc::Global;

/// Gives, for each field that differs in an entry of both, the move to goal's value.
#[derive(Drop)]
pub struct FieldGen {}

impl FieldGen {
    /// The generator, which keeps nothing.
    pub fn new() -> FieldGen
        ensures { ⟦<FieldGen as MoveGen>⟧.gen_kind result ≡ 3 }
    {
        FieldGen {}
    }
}

impl MoveGen for FieldGen {
    ghost gen_kind = { λ _. 3 };

    fn kind(&self) -> u32 {
        3
    }

    fn moves(
        &mut self,
        alloc: Global,
        _ctx: &Ctx,
        cur: &Config,
        goal: &Config,
        out: &mut Vec<Generated>,
    ) -> Result<(), Memory> {
        give_changes(alloc, cur, goal, out)
    }
}

/// The moves of the fields of each entry that cur has too.
#[derive(Drop)]
struct ChangedEntries<'a> {
    cur: &'a Config,
}

impl<'a> EntryMoves for ChangedEntries<'a> {
    ghost is_given = { λ s. IsChangedEntry s.cur.now };

    ghost other = { λ s. s.cur.now };

    fn beside(&self) -> &Config {
        self.cur
    }

    fn is_of_missing(&self) -> bool {
        false
    }

    fn is_of_lists(&self) -> bool {
        false
    }

    fn give(
        &self,
        alloc: Global,
        table: &str,
        key: &str,
        entry: &Entry,
        there: Option<&Entry>,
        out: &mut Vec<Generated>,
    ) -> Result<(), Memory> {
        match there {
            Some(old) => give_fields(alloc, table, key, old, entry, out),
            None => Ok(()),
        }
    }

    ghost for_entries = { λ s. changed_for s.cur.now };

    ghost for_differing = { λ s. changed_differ s.cur.now };
}

/// Puts the remove of a field that goal's entry lacks. There it is looked for first at an index.
fn remove_field(
    alloc: Global,
    table: &str,
    key: &str,
    field: &str,
    value: &Value,
    new: &Entry,
    near: usize,
    out: &mut Vec<Generated>,
) -> Result<(), Memory>
    requires table { 0 < length table.now }
    requires key { 0 < length key.now }
    requires field { 0 < length field.now }
    ensures { let Is = IsRemovedField table.now key.now new.now field.now value.now in
        Gives Is result out.old.items out.new.items }
{
    match field_near(new, field, near) {
        Some(_) => Ok(()),
        None => {
            let path = Path::new(alloc, &[table, key, field])?;
            give_own(alloc, Move::Remove(path), FIELD_CLASS, out)
        }
    }
}

/// Puts the move of a field to goal's value, where cur's entry has another one or none. There it is
/// looked for first at an index.
fn set_field(
    alloc: Global,
    table: &str,
    key: &str,
    field: &str,
    value: &Value,
    old: &Entry,
    near: usize,
    out: &mut Vec<Generated>,
) -> Result<(), Memory>
    requires table { 0 < length table.now }
    requires key { 0 < length key.now }
    requires field { 0 < length field.now }
    ensures { let Is = IsSetField table.now key.now old.now field.now value.now in
        Gives Is result out.old.items out.new.items }
{
    match field_near(old, field, near) {
        Some(before) => replace_field(alloc, table, key, field, value, before, out),
        None => {
            let path = Path::new(alloc, &[table, key, field])?;
            let part = Part::Value(value.copy(alloc)?);
            give_own(alloc, Move::Add(path, part), FIELD_CLASS, out)
        }
    }
}

/// Puts the replace of another value.
fn replace_field(
    alloc: Global,
    table: &str,
    key: &str,
    field: &str,
    value: &Value,
    before: &Value,
    out: &mut Vec<Generated>,
) -> Result<(), Memory>
    requires table { 0 < length table.now }
    requires key { 0 < length key.now }
    requires field { 0 < length field.now }
    ensures { let Is = IsReplace table.now key.now before.now field.now value.now in
        Gives Is result out.old.items out.new.items }
{
    if before.same(value) {
        return Ok(());
    }
    let path = Path::new(alloc, &[table, key, field])?;
    let part = Part::Value(value.copy(alloc)?);
    give_own(alloc, Move::Replace(path, part), FIELD_CLASS, out)
}

/// Puts the removes of the fields that goal's entry lacks.
fn remove_fields(
    alloc: Global,
    table: &str,
    key: &str,
    old: &Entry,
    new: &Entry,
    out: &mut Vec<Generated>,
) -> Result<(), Memory>
    requires table { 0 < length table.now }
    requires key { 0 < length key.now }
    ensures { let Is = IsOfSome (IsRemovedField table.now key.now new.now) old.now in
        Gives Is result out.old.items out.new.items }
{
    for i in 0..old.len() {
        remove_field(
            alloc,
            table,
            key,
            old.name_at(i),
            old.part_at(i),
            new,
            i,
            out,
        )?;
    }
    Ok(())
}

/// Puts the moves of fields to goal's values.
fn set_fields(
    alloc: Global,
    table: &str,
    key: &str,
    old: &Entry,
    new: &Entry,
    out: &mut Vec<Generated>,
) -> Result<(), Memory>
    requires table { 0 < length table.now }
    requires key { 0 < length key.now }
    ensures { let Is = IsOfSome (IsSetField table.now key.now old.now) new.now in
        Gives Is result out.old.items out.new.items }
{
    for i in 0..new.len() {
        set_field(
            alloc,
            table,
            key,
            new.name_at(i),
            new.part_at(i),
            old,
            i,
            out,
        )?;
    }
    Ok(())
}

/// Puts both for an entry; for one that stays the same there are none.
fn give_fields(
    alloc: Global,
    table: &str,
    key: &str,
    old: &Entry,
    new: &Entry,
    out: &mut Vec<Generated>,
) -> Result<(), Memory>
    requires table { 0 < length table.now }
    requires key { 0 < length key.now }
    ensures { let Is = IsOfFields table.now key.now old.now new.now in
        Gives Is result out.old.items out.new.items }
{
    if old.same(new) {
        return Ok(());
    }
    remove_fields(alloc, table, key, old, new, out)?;
    set_fields(alloc, table, key, old, new, out)
}

/// Appends the moves of the fields of one entry, by what it is in cur and in goal, each once. For want of memory there
/// may be some only.
pub fn field_moves(
    alloc: Global,
    table: &str,
    key: &str,
    old: &Entry,
    new: &Entry,
    out: &mut Vec<Generated>,
) -> Result<(), Memory>
    requires table { 0 < length table.now }
    requires key { 0 < length key.now }
    ensures { (cur goal : Configuration) → let at = table.now ∷ key.now ∷ [] in
        part_at cur at ≡ Some (part.Entry old.now) → part_at goal at ≡ Some (part.Entry new.now) →
        Gives (IsFieldOf cur goal table.now key.now) result out.old.items out.new.items }
{
    give_fields(alloc, table, key, old, new, out)
}

/// Puts those of all entries.
fn give_changes(
    alloc: Global,
    cur: &Config,
    goal: &Config,
    out: &mut Vec<Generated>,
) -> Result<(), Memory>
    ensures { let Is = IsFromFields cur.now goal.now in
        Gives Is result out.old.items out.new.items }
{
    give_entries(alloc, goal, &ChangedEntries { cur }, out)
}

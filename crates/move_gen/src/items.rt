//! The moves of items of lists.
ghost use Rattle.std.specs.Prelude.{◌≡◌, ◌↔◌, ◌<◌, ◌≤◌, [], ◌∷◌, length, IsTrue, MatchOption};
ghost use Rattle.std.specs.List.{Contains};
ghost use Rattle.move_core.specs.Generated.{IsFirstDifference, IsFromItems, IsItemAdded, IsItemRemoved};
ghost use Rattle.move_gen.specs.EntryLaws.{lists_for};
ghost use Rattle.move_gen.specs.Giving.{Gives, IsOfSome};
ghost use Rattle.move_gen.specs.ItemsGiven.{HasNewItem, HasNoItems, IsAddedItem, IsItemAt, IsItemOfField, IsOfItems, IsOfItemsOfEntry, IsOfLists, IsRemovedItem};
ghost use Rattle.move_gen.specs.SameEntryLaws.{lists_differ};

use crate::beside::field_near;
use crate::entries::{EntryMoves, give_entries};
use crate::giving::{ITEM_CLASS, give_own};
use conf_doc::{Config, Entry, Path, Value};
use host_core::{Memory, Txt};
use move_core::{Ctx, Generated, Move, MoveGen};
use std::alloc::Global;

/// Gives, for each field that has another list in an entry of both, the remove or the add of the item where the two
/// lists first differ.
#[derive(Drop)]
pub struct ItemGen {}

impl ItemGen {
    /// The generator, which keeps nothing.
    pub fn new() -> ItemGen
        ensures { ⟦<ItemGen as MoveGen>⟧.gen_kind result ≡ 5 }
    {
        ItemGen {}
    }
}

impl MoveGen for ItemGen {
    ghost gen_kind = { λ _. 5 };

    fn kind(&self) -> u32 {
        5
    }

    fn moves(
        &mut self,
        alloc: Global,
        _ctx: &Ctx,
        cur: &Config,
        goal: &Config,
        out: &mut Vec<Generated>,
    ) -> Result<(), Memory> {
        give_items(alloc, cur, goal, out)
    }
}

/// The moves of the items of each entry that cur has too.
#[derive(Drop)]
struct ChangedLists<'a> {
    cur: &'a Config,
}

impl<'a> EntryMoves for ChangedLists<'a> {
    ghost is_given = { λ s. IsOfItemsOfEntry s.cur.now };

    ghost other = { λ s. s.cur.now };

    fn beside(&self) -> &Config {
        self.cur
    }

    fn is_of_missing(&self) -> bool {
        false
    }

    fn is_of_lists(&self) -> bool {
        true
    }

    fn give(
        &self,
        alloc: Global,
        table: &str,
        key: &str,
        entry: &Entry,
        there: Option<&Entry>,
        out: &mut Vec<Generated>,
    ) -> Result<(), Memory> {
        match there {
            Some(old) => give_of_fields(alloc, table, key, old, entry, out),
            None => Ok(()),
        }
    }

    ghost for_entries = { λ s. lists_for s.cur.now };

    ghost for_differing = { λ s. lists_differ s.cur.now };
}

/// The smaller length.
fn shorter(a: usize, b: usize) -> usize
    ensures left { result ≤ a }
    ensures right { result ≤ b }
    ensures one { result < a → b ≤ result }
{
    if a < b { a } else { b }
}

/// Whether two texts are the same.
fn is_same(a: &Txt, b: &Txt) -> bool
    ensures { IsTrue result ↔ (a.now ≡ b.now) }
{
    a.as_str() == b.as_str()
}

/// How many items stand before the first difference of two lists, where there is one.
fn first_difference(old: &[Txt], new: &[Txt]) -> Option<usize>
    ensures { MatchOption result (old.now ≡ new.now) (IsFirstDifference old.now new.now) }
{
    let common = shorter(old.len(), new.len());
    for i in 0..common {
        if !is_same(&old[i], &new[i]) {
            return Some(i);
        }
    }
    if old.len() == new.len() {
        None
    } else {
        Some(common)
    }
}

/// Whether a text is among those of a list.
fn has_text(items: &[Txt], text: &str) -> bool
    ensures { IsTrue result ↔ Contains items.now text.now }
{
    items.iter().any(|item| item.as_str() == text)
}

/// Whether the item of a list at an index goes: the other list lacks its text, or has one there that this list has
/// elsewhere.
fn goes(old: &[Txt], new: &[Txt], i: usize) -> bool
    ensures { IsTrue result ↔ IsItemRemoved old.now new.now i }
{
    i < old.len()
        && (!has_text(new, old[i].as_str()) || (i < new.len() && has_text(old, new[i].as_str())))
}

/// Puts the remove of cur's item at an index.
fn remove_item(
    alloc: Global,
    place: &Path,
    old: &[Txt],
    new: &[Txt],
    i: usize,
    out: &mut Vec<Generated>,
) -> Result<(), Memory>
    ensures { Gives (IsRemovedItem old.now new.now place.now i) result out.old.items out.new.items }
{
    if !goes(old, new, i) {
        return Ok(());
    }
    let place = place.copy(alloc)?;
    give_own(alloc, Move::RemoveItem(place, i), ITEM_CLASS, out)
}

/// Goal's item at an index, where cur's list lacks its text.
fn new_item<'n>(old: &[Txt], new: &'n [Txt], i: usize) -> Option<&'n Txt>
    ensures { MatchOption result (¬ HasNewItem old.now new.now i)
        (λ text. IsItemAdded old.now new.now i text.now) }
{
    if i >= new.len() {
        return None;
    }
    let item = &new[i];
    if has_text(old, item.as_str()) {
        None
    } else {
        Some(item)
    }
}

/// Puts the add of goal's item there, where cur's list lacks its text.
fn add_item(
    alloc: Global,
    place: &Path,
    old: &[Txt],
    new: &[Txt],
    i: usize,
    out: &mut Vec<Generated>,
) -> Result<(), Memory>
    ensures { Gives (IsAddedItem old.now new.now place.now i) result out.old.items out.new.items }
{
    match new_item(old, new, i) {
        Some(item) => {
            let place = place.copy(alloc)?;
            let text = item.copy(alloc)?;
            give_own(alloc, Move::AddItem(place, i, text), ITEM_CLASS, out)
        }
        None => Ok(()),
    }
}

/// Puts both.
fn give_at(
    alloc: Global,
    place: &Path,
    old: &[Txt],
    new: &[Txt],
    i: usize,
    out: &mut Vec<Generated>,
) -> Result<(), Memory>
    ensures { Gives (IsItemAt old.now new.now place.now i) result out.old.items out.new.items }
{
    remove_item(alloc, place, old, new, i, out)?;
    add_item(alloc, place, old, new, i, out)
}

/// Puts the moves of an item of two lists of a field.
fn give_of_lists(
    alloc: Global,
    table: &str,
    key: &str,
    field: &str,
    old: &[Txt],
    new: &[Txt],
    out: &mut Vec<Generated>,
) -> Result<(), Memory>
    requires table { 0 < length table.now }
    requires key { 0 < length key.now }
    requires field { 0 < length field.now }
    ensures { let place = table.now ∷ key.now ∷ field.now ∷ [] in
        Gives (IsOfItems old.now new.now place) result out.old.items out.new.items }
{
    match first_difference(old, new) {
        Some(i) => {
            let place = Path::new(alloc, &[table, key, field])?;
            give_at(alloc, &place, old, new, i, out)
        }
        None => Ok(()),
    }
}

/// Puts those of two values of a field, where both are lists.
fn give_of_values(
    alloc: Global,
    table: &str,
    key: &str,
    field: &str,
    before: &Value,
    value: &Value,
    out: &mut Vec<Generated>,
) -> Result<(), Memory>
    requires table { 0 < length table.now }
    requires key { 0 < length key.now }
    requires field { 0 < length field.now }
    ensures { let place = table.now ∷ key.now ∷ field.now ∷ [] in
        Gives (IsOfLists place before.now value.now) result out.old.items out.new.items }
{
    match (before, value) {
        (Value::List(old), Value::List(new)) => {
            give_of_lists(alloc, table, key, field, old.items(), new.items(), out)
        }
        _ => Ok(()),
    }
}

/// Whether a value is a text. Then it has no items.
fn is_text(value: &Value) -> bool
    ensures { IsTrue result → HasNoItems value.now }
{
    match value {
        Value::Text(_) => true,
        Value::List(_) => false,
    }
}

/// Puts those of a field of goal's entry, where cur's entry has it. There it is looked for first at an index, and
/// only where goal's value is a list.
fn give_of_field(
    alloc: Global,
    table: &str,
    key: &str,
    field: &str,
    value: &Value,
    old: &Entry,
    near: usize,
    out: &mut Vec<Generated>,
) -> Result<(), Memory>
    requires table { 0 < length table.now }
    requires key { 0 < length key.now }
    requires field { 0 < length field.now }
    ensures { let Is = IsItemOfField table.now key.now old.now field.now value.now in
        Gives Is result out.old.items out.new.items }
{
    if is_text(value) {
        return Ok(());
    }
    match field_near(old, field, near) {
        Some(before) => give_of_values(alloc, table, key, field, before, value, out),
        None => Ok(()),
    }
}

/// Puts those of each field.
fn give_of_fields(
    alloc: Global,
    table: &str,
    key: &str,
    old: &Entry,
    new: &Entry,
    out: &mut Vec<Generated>,
) -> Result<(), Memory>
    requires table { 0 < length table.now }
    requires key { 0 < length key.now }
    ensures { let Is = IsOfSome (IsItemOfField table.now key.now old.now) new.now in
        Gives Is result out.old.items out.new.items }
{
    for i in 0..new.len() {
        give_of_field(
            alloc,
            table,
            key,
            new.name_at(i),
            new.part_at(i),
            old,
            i,
            out,
        )?;
    }
    Ok(())
}

/// Puts those of all entries.
fn give_items(
    alloc: Global,
    cur: &Config,
    goal: &Config,
    out: &mut Vec<Generated>,
) -> Result<(), Memory>
    ensures { let Is = IsFromItems cur.now goal.now in
        Gives Is result out.old.items out.new.items }
{
    give_entries(alloc, goal, &ChangedLists { cur }, out)
}

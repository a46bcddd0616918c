//! The rule against moves that a want depends on.
ghost use Rattle.std.specs.Prelude.{◌≡◌, ◌↔◌, [], ◌∷◌, length, map, IsSome, IsTrue, Some};
ghost use Rattle.move_core.specs.Contexts.{item_at, rulebook};
ghost use Rattle.move_core.specs.Moves.{list_at};
ghost use Rattle.move_core.specs.Rules.{HasNoDependency, IsAtOrBelow};
ghost use Rattle.move_rules.specs.Dependencies.{EntryKeeps, IsKeptAt, IsMeantAt, KeepsBoth, KeepsWants, TableKeeps, field_of, place_of};
ghost use Rattle.move_rules.specs.Entries.{AreAll};

use conf_check::{WantAt, entry_wants, is_satisfied};
use conf_doc::{Config, Path, Table, Value};
use move_core::{Ctx, Move, MoveRule};
use yang_model::Models;

/// Each want that a move makes or takes away, at its place or below, is satisfied before and after it. It
/// fits all models.
#[derive(Drop)]
pub struct NoDependencyRule {}

impl NoDependencyRule {
    /// The rule, which keeps nothing.
    pub fn new() -> NoDependencyRule
        ensures { ⟦<NoDependencyRule as MoveRule>⟧.rule_kind result ≡ 2 }
    {
        NoDependencyRule {}
    }
}

impl MoveRule for NoDependencyRule {
    ghost rule_kind = { λ _. 2 };

    ghost fits = { λ _ _. Unit {0} };

    fn kind(&self) -> u32 {
        2
    }

    fn begin(&mut self, _ctx: &Ctx) {}

    fn allows(
        &mut self,
        ctx: &Ctx,
        cur: &Config,
        next: &Config,
        _goal: &Config,
        mv: &Move,
    ) -> bool {
        has_no_dependency(ctx, cur, next, mv)
    }
}

/// Whether a want stands in a table.
fn is_in_table(table: &str, at: &WantAt) -> bool
    ensures { IsTrue result ↔ (table.now ≡ at.now.table.now) }
{
    table == at.table
}

/// Whether a want stands in the entry of a table at a key.
fn is_in_entry(table: &str, key: &str, at: &WantAt) -> bool
    ensures { let same = table.now ≡ at.now.table.now in
        IsTrue result ↔ (same × (key.now ≡ at.now.key.now)) }
{
    table == at.table && key == at.key
}

/// Whether a want stands in a field of that name.
fn is_in_field(field: &str, at: &WantAt) -> bool
    ensures { IsTrue result ↔ (field_of at.now ≡ field.now ∷ []) }
{
    match at.field {
        Some(name) => name == field,
        None => false,
    }
}

/// Whether a want stands at a place or below it.
fn is_at_or_below(place: &Path, at: &WantAt) -> bool
    ensures { IsTrue result ↔ IsAtOrBelow place.now (place_of at.now) }
{
    match place.len() {
        1 => is_in_table(place.name_at(0), at),
        2 => is_in_entry(place.name_at(0), place.name_at(1), at),
        _ => {
            is_in_entry(place.name_at(0), place.name_at(1), at) && is_in_field(place.name_at(2), at)
        }
    }
}

/// How many names the place of a want has.
fn names_count(at: &WantAt) -> usize
    ensures { result ≡ length (place_of at.now) }
{
    match at.field {
        Some(_) => 3,
        None => 2,
    }
}

/// Whether a want stands at a place.
fn is_at(place: &Path, at: &WantAt) -> bool
    ensures { IsTrue result ↔ (place_of at.now ≡ place.now) }
{
    is_at_or_below(place, at) && place.len() == names_count(at)
}

/// Whether a list stands at the place of a want.
fn is_in_list(config: &Config, at: &WantAt) -> bool
    ensures { IsTrue result ↔ IsSome (list_at config.now (place_of at.now)) }
{
    match at.field {
        Some(field) => match config.value(at.table, at.key, field) {
            Some(Value::List(_)) => true,
            _ => false,
        },
        None => false,
    }
}

/// Whether a want stands in the item of a list at an index.
fn is_in_item(config: &Config, index: usize, at: &WantAt) -> bool
    ensures { let item = item_at config.now (place_of at.now) at.now.item in
        IsTrue result ↔ (item ≡ Some index) }
{
    is_in_list(config, at) && at.item == index
}

/// Whether a want is meant: it stands at a place or below it, or where an index is given in that item of its list.
fn is_meant(config: &Config, place: &Path, index: Option<usize>, at: &WantAt) -> bool
    ensures { IsTrue result ↔ IsMeantAt config.now place.now index at.now }
{
    match index {
        Some(index) => is_at(place, at) && is_in_item(config, index, at),
        None => is_at_or_below(place, at),
    }
}

/// Whether a want, if it is meant, is satisfied in another configuration.
fn is_kept(
    models: &Models,
    config: &Config,
    other: &Config,
    place: &Path,
    index: Option<usize>,
    at: &WantAt,
) -> bool
    ensures { let Kept = IsKeptAt models.now config.now other.now place.now index in
        IsTrue result ↔ Kept at.now }
{
    !is_meant(config, place, index, at) || is_satisfied(models, other, &at.want)
}

/// Whether the wants of an entry that are meant are satisfied in another configuration.
fn entry_keeps(
    models: &Models,
    config: &Config,
    other: &Config,
    place: &Path,
    index: Option<usize>,
    table: &str,
    key: &str,
) -> bool
    ensures { let Keeps = EntryKeeps models.now config.now other.now place.now index table.now in
        IsTrue result ↔ Keeps key.now }
{
    for at in entry_wants(models, config, table, key) {
        if !is_kept(models, config, other, place, index, &at) {
            return false;
        }
    }
    true
}

/// Whether those of each entry of a table are.
fn keys_keep(
    models: &Models,
    config: &Config,
    other: &Config,
    place: &Path,
    index: Option<usize>,
    table: &str,
    entries: &Table,
) -> bool
    ensures { let Keeps = EntryKeeps models.now config.now other.now place.now index table.now in
        IsTrue result ↔ AreAll Keeps (map (λ e. e.0) entries.now) }
{
    for i in 0..entries.len() {
        if !entry_keeps(
            models,
            config,
            other,
            place,
            index,
            table,
            entries.name_at(i),
        ) {
            return false;
        }
    }
    true
}

/// Whether those of each entry of a table of the configuration are.
fn table_keeps(
    models: &Models,
    config: &Config,
    other: &Config,
    place: &Path,
    index: Option<usize>,
    table: &str,
) -> bool
    ensures { let Keeps = TableKeeps models.now config.now other.now place.now index in
        IsTrue result ↔ Keeps table.now }
{
    match config.table(table) {
        Some(entries) => keys_keep(models, config, other, place, index, table, entries),
        None => true,
    }
}

/// Whether the wants of a configuration that are meant are satisfied in another. One entry is looked at where the
/// place names one.
fn keeps_wants(
    models: &Models,
    config: &Config,
    other: &Config,
    place: &Path,
    index: Option<usize>,
) -> bool
    ensures { IsTrue result ↔ KeepsWants models.now config.now other.now place.now index }
{
    if place.len() > 1 {
        entry_keeps(
            models,
            config,
            other,
            place,
            index,
            place.name_at(0),
            place.name_at(1),
        )
    } else {
        table_keeps(models, config, other, place, index, place.name_at(0))
    }
}

/// Whether the wants of next are satisfied in cur, and those of cur in next, at a place and below.
fn keeps_both(models: &Models, cur: &Config, next: &Config, place: &Path) -> bool
    ensures { IsTrue result ↔ KeepsBoth models.now cur.now next.now place.now }
{
    keeps_wants(models, next, cur, place, None) && keeps_wants(models, cur, next, place, None)
}

/// Whether the wants of next are satisfied in cur, and those of cur in next, at the move's place and below; of an item's
/// move those of the item that comes or goes.
fn has_no_dependency(ctx: &Ctx, cur: &Config, next: &Config, mv: &Move) -> bool
    ensures { IsTrue result ↔ HasNoDependency (rulebook ctx.now) cur.now next.now mv.now }
{
    match mv {
        Move::Add(place, _) => keeps_both(&ctx.models, cur, next, place),
        Move::Remove(place) => keeps_both(&ctx.models, cur, next, place),
        Move::Replace(place, _) => keeps_both(&ctx.models, cur, next, place),
        Move::AddItem(place, index, _) => {
            keeps_wants(&ctx.models, next, cur, place, Some(*index))
        }
        Move::RemoveItem(place, index) => {
            keeps_wants(&ctx.models, cur, next, place, Some(*index))
        }
    }
}

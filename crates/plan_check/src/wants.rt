//! The wants that stand at one place.
ghost use Rattle.std.specs.Prelude.{◌≡◌, ◌↔◌, ◌<◌, [], length, slice_get, IfOk, IsTrue, OnOk, Some};
ghost use Rattle.plan_check.specs.Touching.{names_at};
ghost use Rattle.plan_check.specs.WantsAt.{AreWantsAt, GathersOne};

use crate::places::{is_entry_at, is_field_at};
use conf_check::{WantAt, entry_wants};
use conf_doc::{Config, Path};
use host_core::Memory;
use std::alloc::Global;
use yang_model::Models;

/// Whether a want stands at a place.
fn is_at(place: &Path, at: &WantAt) -> bool
    ensures { IsTrue result ↔ (names_at at.now ≡ place.now) }
{
    match at.field {
        Some(field) => is_field_at(place, at.table, at.key, field),
        None => is_entry_at(place, at.table, at.key),
    }
}

/// Puts a want at the end that stands at a place.
fn gather<'a>(place: &Path, at: WantAt<'a>, found: &mut Vec<WantAt<'a>>) -> Result<(), Memory>
    ensures { let Gathers = GathersOne place.now at.entry in
        OnOk result (Gathers found.old.items found.new.items) }
{
    if is_at(place, &at) {
        found.push(at)?;
    }
    Ok(())
}

/// The wants at a place, in order: of a key at its entry, of a text or of items at their field.
pub(crate) fn wants_at<'a>(
    alloc: Global,
    models: &'a Models,
    config: &'a Config,
    place: &Path,
) -> Result<Vec<WantAt<'a>>, Memory>
    ensures { IfOk result (λ v. AreWantsAt models.now config.now place.now v.items) }
{
    let mut found = Vec::new(alloc);
    if place.len() < 2 {
        return Ok(found);
    }
    for at in entry_wants(models, config, place.name_at(0), place.name_at(1)) {
        gather(place, at, &mut found)?;
    }
    Ok(found)
}

/// Whether there are none.
pub(crate) fn are_none(wants: &[WantAt]) -> bool
    ensures { IsTrue result ↔ (wants.now ≡ []) }
{
    wants.is_empty()
}

/// The want at an index.
pub(crate) fn want_at<'s, 'w>(wants: &'s [WantAt<'w>], i: usize) -> &'s WantAt<'w>
    requires { i < length wants.now }
    ensures { slice_get wants.now i ≡ Some result.now }
{
    &wants[i]
}

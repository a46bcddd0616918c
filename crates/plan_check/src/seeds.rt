//! Whether an entry is goal's, or its seed: it has those of its fields that have no want in goal.
ghost use Rattle.std.specs.Prelude.{◌≡◌, ◌↔◌, ◌<◌, length, IfOk, IsTrue, Some};
ghost use Rattle.conf_doc.specs.Pairs.{find};
ghost use Rattle.plan_check.specs.NewEntries.{HasFree, HasIfFree, HasOnlyFree, IsAlike, IsFree, IsFreeField, IsSeedOf};

use crate::here::Here;
use crate::wants::{are_none, wants_at};
use conf_doc::{Entry, Path, Value};
use host_core::Memory;
use std::alloc::Global;

/// The entry of goal that a seed is of.
#[derive(Clone, Copy, Drop)]
pub(crate) struct Whole<'a> {
    pub(crate) table: &'a str,
    pub(crate) key: &'a str,
    pub(crate) entry: &'a Entry,
}

/// Whether a field of goal's entry has no want.
fn is_free(alloc: Global, here: &Here, whole: &Whole, field: &str) -> Result<bool, Memory>
    requires table { 0 < length whole.now.table.now }
    requires key { 0 < length whole.now.key.now }
    requires field { 0 < length field.now }
    ensures { IfOk result (λ b. IsTrue b ↔ IsFree here.now whole.now field.now) }
{
    let place = Path::new(alloc, &[whole.table, whole.key, field])?;
    let wants = wants_at(alloc, &here.ctx.models, here.goal, &place)?;
    Ok(are_none(&wants))
}

/// Whether an entry has that value in a field.
fn has_field(entry: &Entry, field: &str, value: &Value) -> bool
    ensures { IsTrue result ↔ (find field.now entry.now ≡ Some value.now) }
{
    match entry.field(field) {
        Some(there) => there.same(value),
        None => false,
    }
}

/// Whether another entry has a field's value, unless the field has a want in goal.
fn has_if_free(
    alloc: Global,
    here: &Here,
    whole: &Whole,
    field: &str,
    value: &Value,
    new: &Entry,
) -> Result<bool, Memory>
    requires table { 0 < length whole.now.table.now }
    requires key { 0 < length whole.now.key.now }
    requires field { 0 < length field.now }
    ensures { let Has = HasIfFree here.now whole.now field.now value.now new.now in
        IfOk result (λ b. IsTrue b ↔ Has) }
{
    if has_field(new, field, value) {
        return Ok(true);
    }
    let free = is_free(alloc, here, whole, field)?;
    Ok(!free)
}

/// Whether goal's entry has a field's value, and the field has no want.
fn is_free_field(
    alloc: Global,
    here: &Here,
    whole: &Whole,
    field: &str,
    value: &Value,
) -> Result<bool, Memory>
    requires table { 0 < length whole.now.table.now }
    requires key { 0 < length whole.now.key.now }
    requires field { 0 < length field.now }
    ensures { let Is = IsFreeField here.now whole.now field.now value.now in
        IfOk result (λ b. IsTrue b ↔ Is) }
{
    if !has_field(whole.entry, field, value) {
        return Ok(false);
    }
    is_free(alloc, here, whole, field)
}

/// Whether each field of goal's entry that has no want is in another one.
fn has_free(alloc: Global, here: &Here, whole: &Whole, new: &Entry) -> Result<bool, Memory>
    requires table { 0 < length whole.now.table.now }
    requires key { 0 < length whole.now.key.now }
    ensures { IfOk result (λ b. IsTrue b ↔ HasFree here.now whole.now new.now) }
{
    for i in 0..whole.entry.len() {
        let (field, value) = whole.entry.pair_at(i);
        let has = has_if_free(alloc, here, whole, field, value, new)?;
        if !has {
            return Ok(false);
        }
    }
    Ok(true)
}

/// Whether another one has only such fields.
fn has_only_free(alloc: Global, here: &Here, whole: &Whole, new: &Entry) -> Result<bool, Memory>
    requires table { 0 < length whole.now.table.now }
    requires key { 0 < length whole.now.key.now }
    ensures { IfOk result (λ b. IsTrue b ↔ HasOnlyFree here.now whole.now new.now) }
{
    for i in 0..new.len() {
        let (field, value) = new.pair_at(i);
        let free = is_free_field(alloc, here, whole, field, value)?;
        if !free {
            return Ok(false);
        }
    }
    Ok(true)
}

/// Whether an entry is the seed of goal's.
fn is_seed(alloc: Global, here: &Here, whole: &Whole, new: &Entry) -> Result<bool, Memory>
    requires table { 0 < length whole.now.table.now }
    requires key { 0 < length whole.now.key.now }
    ensures { IfOk result (λ b. IsTrue b ↔ IsSeedOf here.now whole.now new.now) }
{
    let _fields = new.len();
    let only = has_only_free(alloc, here, whole, new)?;
    if !only {
        return Ok(false);
    }
    has_free(alloc, here, whole, new)
}

/// Whether an entry is goal's, or its seed.
pub(crate) fn is_alike(
    alloc: Global,
    here: &Here,
    whole: &Whole,
    new: &Entry,
) -> Result<bool, Memory>
    requires table { 0 < length whole.now.table.now }
    requires key { 0 < length whole.now.key.now }
    ensures { IfOk result (λ b. IsTrue b ↔ IsAlike here.now whole.now new.now) }
{
    if new.same(whole.entry) {
        return Ok(true);
    }
    is_seed(alloc, here, whole, new)
}

//! What a type accepts and wants in a configuration.
ghost use Rattle.std.specs.Prelude.{◌≡◌, ◌↔◌, IsTrue, Some};
ghost use Rattle.conf_check.specs.Acceptance.{IsSatisfied};
ghost use Rattle.conf_check.specs.Verdicts.{IsVerdict, IsVerdictOfAny, HasPart, IsMet};
ghost use Rattle.conf_check.specs.Wants.{want_of};
ghost use Rattle.yang_model.specs.Belongs.{Belongs};
ghost use Rattle.yang_model.specs.ModelSets.{shapes_of};
ghost use Rattle.yang_types.specs.DataType.{types_of};
ghost use Rattle.yang_types.specs.DataTypes.{data_type};

use crate::want_iter::Want;
use conf_doc::{Config, Table};
use key_split::KeyView;
use yang_model::Models;
use yang_types::{Target, Ty, Types, accepts_plain};

/// What a type says of a text in a configuration.
#[derive(Clone, Copy, Drop)]
pub(crate) enum Verdict<'a> {
    Refused,
    /// Accepted, with no want.
    Accepted,
    /// Accepted by a leafref, which wants that leaf.
    Wanted(&'a Target),
}

/// Whether an entry of the wanted shape has a text as the wanted part of its key. It takes no memory. Where
/// the part is the first of its key only the keys are looked at that begin with the text.
pub fn is_satisfied(models: &Models, config: &Config, want: &Want) -> bool
    ensures { let wanted = want_of want.now in
        IsTrue result ↔ IsSatisfied models.now config.now wanted.target wanted.text }
{
    match config.table(want.table) {
        None => false,
        Some(table) => {
            if want.part == 0 {
                has_first_part(models, table, want)
            } else {
                has_part(models, table, want)
            }
        }
    }
}

/// Whether a key belongs to the wanted shape.
fn is_of_shape(models: &Models, want: &Want, key: &KeyView) -> bool
    ensures { let shapes = shapes_of want.now.table.now models.now in
        IsTrue result ↔ Belongs shapes key.now (Some want.now.shape) }
{
    match models.list_of(want.table, key) {
        Some(shape) => shape == want.shape,
        None => false,
    }
}

/// Whether a key has the text as the wanted part and belongs to the wanted shape.
fn is_met(models: &Models, want: &Want, key: &str) -> bool
    ensures { let wanted = want_of want.now in
        IsTrue result ↔ IsMet models.now wanted.target wanted.text key.now }
{
    let view = KeyView::new(key);
    match view.part(want.part as usize) {
        Some(part) => part == want.text && is_of_shape(models, want, &view),
        None => false,
    }
}

/// Whether a key of a table has the text as the wanted part and belongs to the wanted shape.
fn has_part(models: &Models, table: &Table, want: &Want) -> bool
    ensures { let wanted = want_of want.now in
        IsTrue result ↔ HasPart models.now table.now wanted.target wanted.text }
{
    for i in 0..table.len() {
        if is_met(models, want, table.name_at(i)) {
            return true;
        }
    }
    false
}

/// The same for the first part of the key.
fn has_first_part(models: &Models, table: &Table, want: &Want) -> bool
    requires { want.now.part ≡ 0 }
    ensures { let wanted = want_of want.now in
        IsTrue result ↔ HasPart models.now table.now wanted.target wanted.text }
{
    for i in table.first_from(want.text)..table.len() {
        let key = table.name_at(i);
        if !key.starts_with(want.text) {
            return false;
        }
        if is_met(models, want, key) {
            return true;
        }
    }
    false
}

/// What a type says of a text.
#[cycle(judging)]
pub(crate) fn judge<'a>(models: &Models, config: &Config, ty: &'a Ty, text: &str) -> Verdict<'a>
    ensures { IsVerdict models.now config.now (data_type ty.now) text.now result }
{
    match ty {
        Ty::Ref(target, inner) => {
            let want = Want::new(target, text);
            if accepts_plain(inner.ty(), text) && is_satisfied(models, config, &want) {
                Verdict::Wanted(target)
            } else {
                Verdict::Refused
            }
        }
        Ty::Union(types) => judge_any(models, config, types, text),
        _ => {
            if accepts_plain(ty, text) {
                Verdict::Accepted
            } else {
                Verdict::Refused
            }
        }
    }
}

/// What the first of some types that accepts a text says of it.
#[cycle(judging)]
fn judge_any<'a>(models: &Models, config: &Config, types: &'a Types, text: &str) -> Verdict<'a>
    ensures { IsVerdictOfAny models.now config.now (types_of types.now) text.now result }
{
    let members = types.items();
    for ty in members {
        let verdict = judge(models, config, ty, text);
        if verdict.is_accepted() {
            return verdict;
        }
    }
    Verdict::Refused
}

impl<'a> Verdict<'a> {
    ghost use Rattle.conf_check.specs.Verdicts.{is_accepted};

    /// Whether the text is accepted.
    pub(crate) fn is_accepted(&self) -> bool
        ensures { result ≡ is_accepted self.now }
    {
        match self {
            Verdict::Refused => false,
            _ => true,
        }
    }
}

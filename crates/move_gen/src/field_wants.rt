//! Whether a field of goal has a want.
ghost use Rattle.std.specs.Prelude.{◌≡◌, ◌↔◌, [], ◌∷◌, option_map, Some, IsTrue};
ghost use Rattle.move_core.specs.Contexts.{rulebook};
ghost use Rattle.move_core.specs.Generated.{HasNoWant};
ghost use Rattle.move_gen.specs.FieldWants.{AreFree};

use crate::wanting_fields::has_wanting_field;
use conf_check::{WantAt, entry_wants};
use conf_doc::Config;
use move_core::Ctx;

/// Whether a want stands at an item of that field.
fn is_at_field(at: &WantAt, field: &str) -> bool
    ensures { IsTrue result ↔ (option_map (λ s. s.now) at.now.field ≡ Some field.now) }
{
    match at.field {
        Some(name) => name == field,
        None => false,
    }
}

/// Whether no item of a field has a want.
pub(crate) fn has_no_want(ctx: &Ctx, goal: &Config, table: &str, key: &str, field: &str) -> bool
    ensures { let place = table.now ∷ key.now ∷ field.now ∷ [] in
        IsTrue result ↔ HasNoWant (rulebook ctx.now) goal.now place }
{
    for at in entry_wants(&ctx.models, goal, table, key) {
        if is_at_field(&at, field) {
            return false;
        }
    }
    true
}

/// Whether no item of any field has a want.
pub(crate) fn has_free_fields(ctx: &Ctx, goal: &Config, table: &str, key: &str) -> bool
    ensures { IsTrue result → AreFree (rulebook ctx.now) goal.now table.now key.now }
{
    if !has_wanting_field(&ctx.models, table) {
        return true;
    }
    for at in entry_wants(&ctx.models, goal, table, key) {
        if at.field.is_some() {
            return false;
        }
    }
    true
}

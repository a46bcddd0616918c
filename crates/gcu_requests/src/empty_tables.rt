//! Tables with a model and without keys, which no plan ends with.
ghost use Rattle.std.specs.Prelude.{MatchOption};
ghost use Rattle.std.specs.Bool.{MatchBool};
ghost use Rattle.gcu_requests.specs.GoalTables.{HasKeysAt, HasNoEmptyTable, IsEmptyAt, IsFirstEmpty};

use conf_doc::Config;
use move_core::Ctx;

/// The first table by name that has a model and no keys, or None where there is none.
pub(crate) fn empty_table<'c>(ctx: &Ctx, config: &'c Config) -> Option<&'c str>
    ensures { MatchOption result (HasNoEmptyTable ctx.now config.now)
        (λ t. IsFirstEmpty ctx.now config.now t.now) }
{
    for i in 0..config.len() {
        let name = config.name_at(i);
        if !has_keys(ctx, config, name) {
            return Some(name);
        }
    }
    None
}

/// Whether the table of a name has no model, has keys, or isn't there.
fn has_keys(ctx: &Ctx, config: &Config, name: &str) -> bool
    ensures { MatchBool result
        (HasKeysAt ctx.now config.now name.now) (IsEmptyAt ctx.now config.now name.now) }
{
    match config.table(name) {
        Some(table) => table.len() != 0 || !ctx.models.modelled(name),
        None => true,
    }
}

//! The rule of fields that are set only when their entry is made.
ghost use Rattle.std.specs.Prelude.{◌≡◌, ◌↔◌, map, IsTrue};
ghost use Rattle.conf_doc.specs.Pairs.{find};
ghost use Rattle.move_core.specs.Contexts.{IsResult};
ghost use Rattle.move_core.specs.Rules.{KeepsCreateOnly};
ghost use Rattle.move_rules.specs.Entries.{AreAll, AreKeys, KeepsField, KeepsFields, KeepsRuleField};

use conf_doc::{Config, Table};
use move_core::{CreateOnly, Ctx, Move, MoveRule, Settings};

/// No move changes a create-only field of an entry that stays. It fits all models.
#[derive(Drop)]
pub struct CreateOnlyRule {}

impl CreateOnlyRule {
    /// The rule, which keeps nothing.
    pub fn new() -> CreateOnlyRule
        ensures { ⟦<CreateOnlyRule as MoveRule>⟧.rule_kind result ≡ 4 }
    {
        CreateOnlyRule {}
    }
}

impl MoveRule for CreateOnlyRule {
    ghost rule_kind = { λ _. 4 };

    ghost fits = { λ _ _. Unit {0} };

    fn kind(&self) -> u32 {
        4
    }

    fn begin(&mut self, _ctx: &Ctx) {}

    fn allows(
        &mut self,
        ctx: &Ctx,
        cur: &Config,
        next: &Config,
        _goal: &Config,
        mv: &Move,
    ) -> bool {
        keeps_create_only(&ctx.settings, cur, next, mv)
    }
}

/// Whether a field of an entry that is in both is absent in both or equal in both. Most moves leave it as it was, so
/// that is looked at first.
fn keeps_field(cur: &Config, next: &Config, table: &str, key: &str, field: &str) -> bool
    ensures { IsTrue result ↔ KeepsField cur.now next.now table.now key.now field.now }
{
    cur.agrees_at_field(next, table, key, field)
        || !cur.has_entry(table, key)
        || !next.has_entry(table, key)
}

/// Whether the field of a rule is so, where the rule is for the table.
fn keeps_rule_field(rule: &CreateOnly, cur: &Config, next: &Config, table: &str, key: &str) -> bool
    ensures { IsTrue result ↔ KeepsRuleField cur.now next.now table.now key.now rule.now }
{
    rule.table.as_str() != table || keeps_field(cur, next, table, key, rule.field.as_str())
}

/// Whether the create-only fields of an entry are so.
fn keeps_fields(rules: &[CreateOnly], cur: &Config, next: &Config, table: &str, key: &str) -> bool
    ensures { IsTrue result ↔ KeepsFields rules.now cur.now next.now table.now key.now }
{
    for rule in rules {
        if !keeps_rule_field(rule, cur, next, table, key) {
            return false;
        }
    }
    true
}

/// Whether those at all keys of a table are so.
fn keeps_keys(
    rules: &[CreateOnly],
    cur: &Config,
    next: &Config,
    table: &str,
    entries: &Table,
) -> bool
    ensures { let Keeps = KeepsFields rules.now cur.now next.now table.now in
        IsTrue result ↔ AreAll Keeps (map (λ e. e.0) entries.now) }
{
    for i in 0..entries.len() {
        if !keeps_fields(rules, cur, next, table, entries.name_at(i)) {
            return false;
        }
    }
    true
}

/// Whether those of all entries of next are so.
fn keeps_table(rules: &[CreateOnly], cur: &Config, next: &Config, table: &str) -> bool
    ensures { let Keeps = KeepsFields rules.now cur.now next.now table.now in
        IsTrue result ↔ AreKeys Keeps (find table.now next.now) }
{
    match next.table(table) {
        Some(entries) => keeps_keys(rules, cur, next, table, entries),
        None => true,
    }
}

/// Whether the create-only fields of all entries that are in both stay. Only the move's table is looked at,
/// and only the move's entry where its place names one: all others are as they were.
fn keeps_create_only(settings: &Settings, cur: &Config, next: &Config, mv: &Move) -> bool
    requires { IsResult cur.now mv.now next.now }
    ensures { IsTrue result ↔ KeepsCreateOnly settings.now cur.now next.now }
{
    let rules = settings.create_only.items();
    let place = mv.place();
    if place.len() > 1 {
        keeps_fields(rules, cur, next, mv.table(), place.name_at(1))
    } else {
        keeps_table(rules, cur, next, mv.table())
    }
}

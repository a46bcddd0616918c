//! Required values: what has them, what requires them, and the move that gives one.
ghost use Rattle.std.specs.Prelude.{◌≡◌, ◌↔◌, IfOk, IsTrue};
ghost use Rattle.conf_doc.specs.Changes.{HasPlace};
ghost use Rattle.move_core.specs.Extensions.{HasRequired, put_value, required_part, rule_entry, rule_field};
ghost use Rattle.move_core.specs.Named.{HasRequiredNames};
ghost use Rattle.move_extend.specs.Requireds.{Differs, LacksValue};

use crate::changes::Change;
use conf_doc::{Config, Part, Path, Value};
use host_core::Memory;
use move_core::{Move, Required, Requiring};
use std::alloc::Global;

/// Whether a rule's field has the required value at a key. Absent it counts as having the default.
fn has_required(rule: &Required, key: &str, config: &Config) -> bool
    ensures { IsTrue result ↔ HasRequired rule.now key.now config.now }
{
    match config.value(rule.table.as_str(), key, rule.field.as_str()) {
        Some(Value::Text(text)) => text.as_str() == rule.value.as_str(),
        Some(Value::List(_)) => false,
        None => rule.default.as_str() == rule.value.as_str(),
    }
}

/// Whether a requiring place at a key changes.
pub(crate) fn differs(change: &Change, requiring: &Requiring, key: &str) -> bool
    ensures { IsTrue result ↔ Differs change.now requiring.now key.now }
{
    let table = requiring.table.as_str();
    match &requiring.field {
        Some(field) => !change
            .cur
            .agrees_at_field(change.next, table, key, field.as_str()),
        None => !change.cur.agrees_at_entry(change.next, table, key),
    }
}

/// Whether a rule's field is to get its required value at a key, where what requires it changes.
pub(crate) fn lacks_value(change: &Change, rule: &Required, key: &str) -> bool
    ensures { IsTrue result ↔ LacksValue change.now rule.now key.now }
{
    let table = rule.table.as_str();
    change.models.modelled(table)
        && change.cur.has_entry(table, key)
        && change.next.has_entry(table, key)
        && !has_required(rule, key, change.cur)
}

/// The move that gives a rule's field its required value at a key.
pub(crate) fn put_value(
    alloc: Global,
    rule: &Required,
    key: &str,
    cur: &Config,
) -> Result<Move, Memory>
    requires named { HasRequiredNames rule.now }
    requires entry { HasPlace cur.now (rule_entry rule.now key.now) }
    ensures { let at = rule_field rule.now key.now in
        IfOk result (λ m. m ≡ put_value cur.now at (required_part rule.now)) }
{
    let _tables = cur.len();
    let table = rule.table.as_str();
    let field = rule.field.as_str();
    let path = Path::new(alloc, &[table, key, field])?;
    let part = Part::Value(Value::Text(rule.value.copy(alloc)?));
    if cur.value(table, key, field).is_some() {
        Ok(Move::Replace(path, part))
    } else {
        Ok(Move::Add(path, part))
    }
}

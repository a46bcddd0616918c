//! What is wrong with the key and the fields of an entry: the first rule that they break.
ghost use Rattle.std.specs.Prelude.{◌↔◌, IsTrue, Any};
ghost use Rattle.conf_check.specs.Faults.{
  IsFirstNumber,
  IsFirstFault,
  IsFirstRule,
  FieldBreaks,
  FieldsBreak,
  IsRefusedPart,
  TextsBreak,
  ValueBreaks,
  IsMissingAt,
};
ghost use Rattle.conf_check.specs.Validity.{IsRefused, IsMissing};
ghost use Rattle.yang_types.specs.DataTypes.{data_type};

use crate::acceptance::judge;
use crate::equal_items::has_equal;
use crate::rows::rule_of_field;
use crate::violations::RuleName;
use conf_doc::{Config, Entry, Value};
use host_core::Txt;
use key_split::KeyView;
use yang_model::{FieldRule, Models, Shape};
use yang_types::Ty;

/// A rule that an entry breaks, at a part of the key, a field or a number.
#[derive(Clone, Copy, Drop)]
pub(crate) struct Fault {
    pub(crate) rule: RuleName,
    pub(crate) field: usize,
}

/// Whether a type refuses a text in the configuration.
fn is_refused(models: &Models, config: &Config, ty: &Ty, text: &str) -> bool
    ensures { IsTrue result ↔ IsRefused models.now config.now (data_type ty.now, text.now) }
{
    !judge(models, config, ty, text).is_accepted()
}

/// The first part of the key that its leaf refuses.
pub(crate) fn first_refused_part(
    models: &Models,
    config: &Config,
    shape: &Shape,
    key: &str,
) -> Option<usize>
    ensures { IsFirstNumber (IsRefusedPart models.now config.now shape.now key.now) result }
{
    let view = KeyView::new(key);
    for (i, leaf) in shape.keys.items().iter().enumerate() {
        if let Some(part) = view.part(i) {
            if is_refused(models, config, &leaf.ty, part) {
                return Some(i);
            }
        }
    }
    None
}

/// Whether some of the texts is refused.
fn has_refused(models: &Models, config: &Config, ty: &Ty, texts: &[Txt]) -> bool
    ensures { IsTrue result
        ↔ Any (λ s. IsRefused models.now config.now (data_type ty.now, s)) texts.now }
{
    for text in texts {
        if is_refused(models, config, ty, text.as_str()) {
            return true;
        }
    }
    false
}

/// The first rule that the items of a leaf-list break.
fn first_of_items(models: &Models, config: &Config, ty: &Ty, texts: &[Txt]) -> Option<RuleName>
    ensures { IsFirstRule (TextsBreak models.now config.now (data_type ty.now) texts.now) result }
{
    if has_refused(models, config, ty, texts) {
        Some(RuleName::BadValue)
    } else if has_equal(texts) {
        Some(RuleName::DuplicateItem)
    } else {
        None
    }
}

/// The first rule that a value breaks.
fn first_of_value(
    models: &Models,
    config: &Config,
    rule: &FieldRule,
    value: &Value,
) -> Option<RuleName>
    ensures { let type = data_type rule.now.ty in
        IsFirstRule (ValueBreaks models.now config.now type rule.now.list value.now) result }
{
    match value {
        Value::Text(_) if rule.list => Some(RuleName::WrongKind),
        Value::Text(text) => {
            if is_refused(models, config, &rule.ty, text.as_str()) {
                Some(RuleName::BadValue)
            } else {
                None
            }
        }
        Value::List(texts) if rule.list => first_of_items(models, config, &rule.ty, texts.items()),
        Value::List(_) => Some(RuleName::WrongKind),
    }
}

/// The first rule that a field breaks.
fn first_of_field(
    models: &Models,
    config: &Config,
    shape: &Shape,
    name: &str,
    value: &Value,
) -> Option<RuleName>
    ensures { let Breaks = FieldBreaks models.now config.now shape.now in
        IsFirstRule (Breaks (name.now, value.now)) result }
{
    match rule_of_field(shape, name) {
        None => Some(RuleName::UnknownField),
        Some(rule) => first_of_value(models, config, rule, value),
    }
}

/// The first rule that the fields break, field by field.
pub(crate) fn first_of_fields(
    models: &Models,
    config: &Config,
    shape: &Shape,
    fields: &Entry,
) -> Option<Fault>
    ensures { IsFirstFault (FieldsBreak models.now config.now shape.now fields.now) result }
{
    for i in 0..fields.len() {
        let rule = first_of_field(models, config, shape, fields.name_at(i), fields.part_at(i));
        if let Some(rule) = rule {
            return Some(Fault { rule, field: i });
        }
    }
    None
}

/// Whether a mandatory leaf is absent.
fn is_missing(rule: &FieldRule, fields: &Entry) -> bool
    ensures { IsTrue result ↔ IsMissing fields.now rule.now }
{
    rule.mandatory && fields.field(rule.name.as_str()).is_none()
}

/// The first of the shape's fields that is mandatory and absent.
pub(crate) fn first_missing(shape: &Shape, fields: &Entry) -> Option<usize>
    ensures { IsFirstNumber (IsMissingAt shape.now fields.now) result }
{
    for (i, rule) in shape.fields.items().iter().enumerate() {
        if is_missing(rule, fields) {
            return Some(i);
        }
    }
    None
}

//! The first want of a text, of an entry and of a configuration, from a place on.
ghost use Rattle.std.specs.Prelude.{◌≡◌, ◌+◌, ◌<◌, ◌^◌, ◌∷◌, [], option_map, map, slice_get, Some, IfSome};
ghost use Rattle.conf_check.specs.EntryShapes.{IsShapeAt};
ghost use Rattle.conf_check.specs.FirstWants.{IsFieldNamed, IsFirstFrom, IsFirstInFields, IsFirstOfEntry, IsFirstText, IsFirstWant, IsWantOf, IsWantOfText, IsWantedIn, IsWantedItem, IsWantedItemOf, IsWantedPart, start_of, typed_by};
ghost use Rattle.conf_check.specs.Rows.{row_of};
ghost use Rattle.conf_check.specs.Wants.{IsNamed};
ghost use Rattle.yang_types.specs.DataTypes.{data_type};

use crate::acceptance::{Verdict, judge};
use crate::rows::{rule_of_field, shape_at_place};
use crate::want_iter::{Want, WantAt, WantPlace};
use conf_doc::{Config, Entry, Value};
use host_core::Txt;
use key_split::KeyView;
use yang_model::{KeyLeaf, Models, Shape};
use yang_types::Ty;

/// A want at a part of the key or at an item of a field of an entry.
#[derive(Clone, Copy, Drop)]
struct SlotWant<'a> {
    field: Option<usize>,
    name: Option<&'a str>,
    item: usize,
    want: Want<'a>,
}

/// A want at an item of a field of an entry.
#[derive(Clone, Copy, Drop)]
struct FieldWant<'a> {
    field: usize,
    name: &'a str,
    item: usize,
    want: Want<'a>,
}

/// A want at an item of a field, or at a part of a key.
#[derive(Clone, Copy, Drop)]
struct ItemWant<'a> {
    item: usize,
    want: Want<'a>,
}

/// What a type wants of a text, by what it says of it.
fn want_by_verdict<'a>(
    models: &Models,
    config: &Config,
    ty: &'a Ty,
    text: &'a str,
) -> Option<Want<'a>>
    ensures { IsWantOfText models.now config.now (data_type ty.now) text.now result }
{
    match judge(models, config, ty, text) {
        Verdict::Wanted(target) => Some(Want::new(target, text)),
        Verdict::Accepted => None,
        Verdict::Refused => None,
    }
}

/// What a type wants of a text. Only of a leafref and of a union the text is looked at: the other types want nothing.
fn want_of<'a>(models: &Models, config: &Config, ty: &'a Ty, text: &'a str) -> Option<Want<'a>>
    ensures { IsWantOfText models.now config.now (data_type ty.now) text.now result }
{
    match ty {
        Ty::Ref(_, _) => want_by_verdict(models, config, ty, text),
        Ty::Union(_) => want_by_verdict(models, config, ty, text),
        _ => None,
    }
}

/// What a key leaf wants of a part, where there is one.
fn want_of_part<'a>(
    models: &Models,
    config: &Config,
    leaf: &'a KeyLeaf,
    part: Option<&'a str>,
) -> Option<Want<'a>>
    ensures { let typed = option_map (typed_by (data_type leaf.now.ty)) part.entry in
        IsWantOf models.now config.now typed result }
{
    match part {
        Some(part) => want_of(models, config, &leaf.ty, part),
        None => None,
    }
}

/// The first want among texts of a type from one on.
fn first_in_texts<'a>(
    models: &Models,
    config: &Config,
    ty: &'a Ty,
    texts: &'a [Txt],
    from: usize,
) -> Option<ItemWant<'a>>
    ensures first { let type = data_type ty.now in
        IsFirstFrom (IsWantedItem models.now config.now type texts.now) from result }
    ensures small { IfSome result (λ a. a.item + 1 < 2 ^ 64) }
{
    for item in from..texts.len() {
        if let Some(want) = want_of(models, config, ty, texts[item].as_str()) {
            return Some(ItemWant { item, want });
        }
    }
    None
}

/// The first want of a text of a leaf, which is its only item.
fn first_in_text<'a>(
    models: &Models,
    config: &Config,
    ty: &'a Ty,
    text: &'a str,
    from: usize,
) -> Option<ItemWant<'a>>
    ensures first { let type = data_type ty.now in
        IsFirstFrom (IsWantedItem models.now config.now type (text.now ∷ [])) from result }
    ensures small { IfSome result (λ a. a.item + 1 < 2 ^ 64) }
{
    if from > 0 {
        return None;
    }
    match want_of(models, config, ty, text) {
        Some(want) => Some(ItemWant { item: 0, want }),
        None => None,
    }
}

/// The first want among the items of a field from one on.
fn first_in_field<'a>(
    models: &Models,
    config: &Config,
    shape: &'a Shape,
    name: &str,
    value: &'a Value,
    from: usize,
) -> Option<ItemWant<'a>>
    ensures first { let W = IsWantedItemOf models.now config.now shape.now name.now value.now in
        IsFirstFrom W from result }
    ensures small { IfSome result (λ a. a.item + 1 < 2 ^ 64) }
{
    let Some(rule) = rule_of_field(shape, name) else {
        return None;
    };
    match value {
        Value::Text(text) => {
            if rule.list {
                None
            } else {
                first_in_text(models, config, &rule.ty, text.as_str(), from)
            }
        }
        Value::List(texts) => {
            if rule.list {
                first_in_texts(models, config, &rule.ty, texts.items(), from)
            } else {
                None
            }
        }
    }
}

/// The first want among the parts of a key from one on.
fn first_in_key<'a>(
    models: &Models,
    config: &Config,
    shape: &'a Shape,
    key: &'a str,
    from: usize,
) -> Option<ItemWant<'a>>
    ensures first { IsFirstFrom (IsWantedPart models.now config.now shape.now key.now) from result }
    ensures small { IfSome result (λ a. a.item + 1 < 2 ^ 64) }
{
    let view = KeyView::new(key);
    let leaves = shape.keys.items();
    for item in from..leaves.len() {
        let want = want_of_part(models, config, &leaves[item], view.part(item));
        if let Some(want) = want {
            return Some(ItemWant { item, want });
        }
    }
    None
}

/// The first want among the fields of an entry from a field and an item of it on.
fn first_in_fields<'a>(
    models: &Models,
    config: &Config,
    shape: &'a Shape,
    fields: &'a Entry,
    from: usize,
    item: usize,
) -> Option<FieldWant<'a>>
    ensures first { IsFirstInFields models.now config.now shape.now fields.now from item result }
    ensures named { IfSome result
        (λ a. slice_get (map (λ f. f.0) fields.now) a.field ≡ Some a.name.now) }
    ensures small { IfSome result (λ a. a.item + 1 < 2 ^ 64) }
{
    let mut first = item;
    for field in from..fields.len() {
        let name = fields.name_at(field);
        let found = first_in_field(models, config, shape, name, fields.part_at(field), first);
        if let Some(found) = found {
            return Some(FieldWant {
                field,
                name,
                item: found.item,
                want: found.want,
            });
        }
        first = 0;
    }
    None
}

/// The first want of an entry of a shape from a field and an item of it on.
fn first_from_field<'a>(
    models: &Models,
    config: &Config,
    shape: &'a Shape,
    fields: &'a Entry,
    field: usize,
    item: usize,
) -> Option<SlotWant<'a>>
    ensures first { (table key : _) →
        let row = row_of table key fields.now in
        IsFirstText (IsWantedIn models.now config.now shape.now row) (Some field) item result }
    ensures named { IfSome result (λ a. IsFieldNamed fields.now a.field a.name) }
    ensures small { IfSome result (λ a. a.item + 1 < 2 ^ 64) }
{
    match first_in_fields(models, config, shape, fields, field, item) {
        Some(found) => Some(SlotWant {
            field: Some(found.field),
            name: Some(found.name),
            item: found.item,
            want: found.want,
        }),
        None => None,
    }
}

/// The first want of an entry of a shape from a part of the key, or a field and an item, on.
fn first_in_entry<'a>(
    models: &Models,
    config: &Config,
    shape: &'a Shape,
    key: &'a str,
    fields: &'a Entry,
    field: Option<usize>,
    item: usize,
) -> Option<SlotWant<'a>>
    ensures first { (table : _) →
        let row = row_of table key.now fields.now in
        IsFirstText (IsWantedIn models.now config.now shape.now row) field item result }
    ensures named { IfSome result (λ a. IsFieldNamed fields.now a.field a.name) }
    ensures small { IfSome result (λ a. a.item + 1 < 2 ^ 64) }
{
    match field {
        Some(field) => first_from_field(models, config, shape, fields, field, item),
        None => match first_in_key(models, config, shape, key, item) {
            Some(found) => Some(SlotWant {
                field: None,
                name: None,
                item: found.item,
                want: found.want,
            }),
            None => first_from_field(models, config, shape, fields, 0, 0),
        },
    }
}

/// The first want of the entry of a shape at a place, from that place on. None where there is no entry.
fn first_of_shape<'a>(
    models: &Models,
    config: &'a Config,
    shape: &'a Shape,
    from: WantPlace,
) -> Option<(WantPlace, WantAt<'a>)>
    requires { IsShapeAt models.now config.now from.table from.key (Some shape) }
    ensures first { IsFirstOfEntry models.now config.now from result }
    ensures named { IfSome result (λ a. IsNamed config.now a.0 a.1) }
    ensures small { IfSome result (λ a. a.0.item + 1 < 2 ^ 64) }
{
    if from.table >= config.len() {
        return None;
    }
    let table = config.part_at(from.table);
    if from.key >= table.len() {
        return None;
    }
    let name = config.name_at(from.table);
    let key = table.name_at(from.key);
    let fields = table.part_at(from.key);
    match first_in_entry(models, config, shape, key, fields, from.field, from.item) {
        Some(found) => {
            let place = WantPlace {
                table: from.table,
                key: from.key,
                field: found.field,
                item: found.item,
            };
            let at = WantAt {
                table: name,
                key,
                field: found.name,
                item: found.item,
                want: found.want,
            };
            Some((place, at))
        }
        None => None,
    }
}

/// The first want of the entry at a place, whose shape is known, from that place on.
pub(crate) fn first_by_shape<'a>(
    models: &Models,
    config: &'a Config,
    shape: Option<&'a Shape>,
    from: WantPlace,
) -> Option<(WantPlace, WantAt<'a>)>
    requires { IsShapeAt models.now config.now from.table from.key shape }
    ensures first { IsFirstOfEntry models.now config.now from result }
    ensures named { IfSome result (λ a. IsNamed config.now a.0 a.1) }
    ensures small { IfSome result (λ a. a.0.item + 1 < 2 ^ 64) }
{
    match shape {
        Some(shape) => first_of_shape(models, config, shape, from),
        None => None,
    }
}

/// The first want of the entry at a place, from that place on. None where there is no entry.
fn first_of_entry<'a>(
    models: &'a Models,
    config: &'a Config,
    from: WantPlace,
) -> Option<(WantPlace, WantAt<'a>)>
    ensures first { IsFirstOfEntry models.now config.now from result }
    ensures named { IfSome result (λ a. IsNamed config.now a.0 a.1) }
    ensures small { IfSome result (λ a. a.0.item + 1 < 2 ^ 64) }
{
    let shape = shape_at_place(models, config, from.table, from.key);
    first_by_shape(models, config, shape, from)
}

/// The first want of a configuration from a place on.
pub(crate) fn first_want<'a>(
    models: &'a Models,
    config: &'a Config,
    from: WantPlace,
) -> Option<(WantPlace, WantAt<'a>)>
    ensures first { IsFirstWant models.now config.now from result }
    ensures named { IfSome result (λ a. IsNamed config.now a.0 a.1) }
    ensures small { IfSome result (λ a. a.0.item + 1 < 2 ^ 64) }
{
    let mut at = from;
    while at.table < config.len() {
        if at.key >= config.part_at(at.table).len() {
            at = start_of_entry(at.table + 1, 0);
        } else {
            if let Some(found) = first_of_entry(models, config, at) {
                return Some(found);
            }
            at = start_of_entry(at.table, at.key + 1);
        }
    }
    None
}

/// Where an entry begins.
pub(crate) fn start_of_entry(table: usize, key: usize) -> WantPlace
    ensures { result ≡ start_of table key }
{
    WantPlace {
        table,
        key,
        field: None,
        item: 0,
    }
}

//! A removed target of a reference, and an entry that wants it: the entry to look at before anything else. Which one it
//! is steers only how soon an invalid configuration is told.
ghost use Rattle.std.specs.Prelude.{◌≡◌, IfSome, IsTrue, is_some};
ghost use Rattle.std.specs.List.{Contains};
ghost use Rattle.recheck.specs.Losses.{HasLost, IsLoser, IsWantOfPart, entry_at};
ghost use Rattle.recheck.specs.Turned.{Wants};
ghost use Rattle.ref_index.specs.Agreements.{entry_of};

use crate::alone::has_entry;
use conf_doc::Config;
use key_split::KeyView;
use move_core::Move;
use ref_index::{Place, RefIndex};
use yang_model::Models;

/// Whether another configuration has the entry of a place.
fn is_there(place: &Place, next: &Config) -> bool
    ensures { IsTrue result
        → IsTrue (is_some (entry_of place.now.table place.now.key next.now)) }
{
    let table = place.table.as_str();
    let key = place.key.as_str();
    has_entry(next, table, key)
}

/// Whether a place is in a key, of an entry that another configuration has.
fn is_key_there(place: &Place, next: &Config) -> bool
    ensures { IsTrue result
        → IsTrue (is_some (entry_of place.now.table place.now.key next.now)) }
{
    if place.field.is_some() {
        return false;
    }
    is_there(place, next)
}

/// The first of some places in a key whose entry another configuration has.
fn first_key_there<'a>(places: &'a [Place], next: &Config) -> Option<&'a Place>
    ensures one { IfSome result (λ p. Contains places.now p.now) }
    ensures there { IfSome result
        (λ p. IsTrue (is_some (entry_of p.now.table p.now.key next.now))) }
{
    for place in places {
        if is_key_there(place, next) {
            return Some(place);
        }
    }
    None
}

/// The first of some places, in a key or a field, whose entry another configuration has.
fn first_of_all<'a>(places: &'a [Place], next: &Config) -> Option<&'a Place>
    ensures one { IfSome result (λ p. Contains places.now p.now) }
    ensures there { IfSome result
        (λ p. IsTrue (is_some (entry_of p.now.table p.now.key next.now))) }
{
    for place in places {
        if is_there(place, next) {
            return Some(place);
        }
    }
    None
}

/// The first of some places whose entry another configuration has: one in a key where there is one. A key is judged
/// before the fields, of which one may be a long list.
fn first_there<'a>(places: &'a [Place], next: &Config) -> Option<&'a Place>
    ensures one { IfSome result (λ p. Contains places.now p.now) }
    ensures there { IfSome result
        (λ p. IsTrue (is_some (entry_of p.now.table p.now.key next.now))) }
{
    match first_key_there(places, next) {
        Some(place) => Some(place),
        None => first_of_all(places, next),
    }
}

/// An entry that wants a part of a key of a shape.
fn referrer_of_part<'a>(
    index: &'a RefIndex,
    next: &Config,
    table: &str,
    shape: u32,
    key: &KeyView,
    part: usize,
) -> Option<&'a Place>
    ensures wants { IfSome result (λ p. IsWantOfPart index.now.models index.now.config
        table.now shape key.now part p.now) }
    ensures there { IfSome result
        (λ p. IsTrue (is_some (entry_of p.now.table p.now.key next.now))) }
{
    let Ok(number) = u32::try_from(part) else {
        return None;
    };
    let Some(text) = key.part(part) else {
        return None;
    };
    first_there(index.referrers(table, shape, number, text), next)
}

/// An entry that wants some part of a key.
fn referrer_of_key<'a>(
    index: &'a RefIndex,
    models: &Models,
    next: &Config,
    table: &str,
    key: &str,
) -> Option<&'a Place>
    requires { index.now.models ≡ models.now }
    ensures wants { IfSome result
        (λ p. Wants models.now index.now.config table.now key.now (entry_at p.now)) }
    ensures there { IfSome result
        (λ p. IsTrue (is_some (entry_of p.now.table p.now.key next.now))) }
{
    let view = KeyView::new(key);
    let Some(shape) = models.list_of(table, &view) else {
        return None;
    };
    for part in 0..view.parts() {
        if let Some(place) = referrer_of_part(index, next, table, shape, &view, part) {
            return Some(place);
        }
    }
    None
}

/// The same where the other configuration lacks the key.
fn referrer_of_key_if_gone<'a>(
    index: &'a RefIndex,
    models: &Models,
    next: &Config,
    table: &str,
    key: &str,
) -> Option<&'a Place>
    requires { index.now.models ≡ models.now }
    ensures { IfSome result
        (λ p. HasLost models.now index.now.config next.now table.now (entry_at p.now)) }
{
    if has_entry(next, table, key) {
        return None;
    }
    referrer_of_key(index, models, next, table, key)
}

/// An entry that wants a part of a key which a table of the index has, and which another configuration lacks.
fn referrer_of_gone_key<'a>(
    index: &'a RefIndex,
    models: &Models,
    next: &Config,
    name: &str,
) -> Option<&'a Place>
    requires { index.now.models ≡ models.now }
    ensures { IfSome result
        (λ p. HasLost models.now index.now.config next.now name.now (entry_at p.now)) }
{
    let Some(table) = index.config().table(name) else {
        return None;
    };
    for i in 0..table.len() {
        let key = table.name_at(i);
        if let Some(place) = referrer_of_key_if_gone(index, models, next, name, key) {
            return Some(place);
        }
    }
    None
}

/// An entry of the configuration after a move which wanted, by the index, what a key of the move's table was
/// that isn't there any more. A move at an entry takes no other key away, and one at a field none.
pub(crate) fn first_loser<'a>(
    index: &'a RefIndex,
    models: &Models,
    next: &Config,
    mv: &Move,
) -> Option<&'a Place>
    requires { index.now.models ≡ models.now }
    ensures { IfSome result
        (λ p. IsLoser models.now index.now.config next.now mv.now (entry_at p.now)) }
{
    let place = mv.place();
    match place.len() {
        1 => referrer_of_gone_key(index, models, next, place.name_at(0)),
        2 => referrer_of_key_if_gone(index, models, next, place.name_at(0), place.name_at(1)),
        _ => None,
    }
}

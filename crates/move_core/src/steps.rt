//! What a move makes of a configuration.
ghost use Rattle.std.specs.Prelude.{◌≡◌, ◌≤◌, ◌<◌, length, option_map, IfOk, IsSomeAnd, insert, remove as removed_at};
ghost use Rattle.conf_doc.specs.WellFormed.{IsConfig};
ghost use Rattle.move_core.specs.Moves.{IsDefined, items_at, list_at, list_part, step};

use crate::Move;
use conf_doc::{Config, Part, Path, Value};
use host_core::{Memory, Names, Txt};
use std::alloc::Global;

/// The configuration after a move. What doesn't lie on the way to the move's place is shared.
pub fn step(alloc: Global, cur: &Config, mv: &Move) -> Result<Config, Memory>
    requires { IsDefined cur.now mv.now }
    ensures step { IfOk result (λ c. c ≡ step cur.now mv.now) }
    ensures formed { IfOk result IsConfig }
{
    match mv {
        Move::Add(path, part) => cur.with(alloc, path, Some(part)),
        Move::Remove(path) => cur.with(alloc, path, None),
        Move::Replace(path, part) => cur.with(alloc, path, Some(part)),
        Move::AddItem(path, index, text) => {
            let part = with_item(alloc, cur, path, *index, text)?;
            cur.with(alloc, path, Some(&part))
        }
        Move::RemoveItem(path, index) => {
            let part = without_item(alloc, cur, path, *index)?;
            cur.with(alloc, path, Some(&part))
        }
    }
}

/// The items of the list at a place, where a list stands there.
fn list_at<'c>(config: &'c Config, path: &Path) -> Option<&'c Names>
    ensures { option_map (λ items. items.now) result ≡ list_at config.now path.now }
{
    if path.len() != 3 {
        return None;
    }
    match config.value(path.name_at(0), path.name_at(1), path.name_at(2)) {
        Some(Value::List(items)) => Some(items),
        _ => None,
    }
}

/// A copy of texts.
#[tactic(auto, using(crate::proofs::ListOrders::take_one_more, std::proofs::lemmas::List::take_all))]
fn copy_texts(alloc: Global, texts: &Names) -> Result<Vec<Txt>, Memory>
    ensures { IfOk result (λ copies. copies.items ≡ texts.now) }
{
    let mut copies = Vec::new(alloc);
    for i in 0..texts.len() {
        let text = texts.at(i).copy(alloc)?;
        copies.push(text)?;
    }
    Ok(copies)
}

/// A copy of the items of the list at a place.
fn copy_items(alloc: Global, config: &Config, path: &Path) -> Result<Vec<Txt>, Memory>
    ensures { IfOk result (λ items. items.items ≡ items_at config.now path.now) }
{
    match list_at(config, path) {
        Some(items) => copy_texts(alloc, items),
        None => Ok(Vec::new(alloc)),
    }
}

/// The list at a place with a text put in at an index.
fn with_item(
    alloc: Global,
    config: &Config,
    path: &Path,
    index: usize,
    text: &Txt,
) -> Result<Part, Memory>
    requires { IsSomeAnd (list_at config.now path.now) (λ items. index ≤ length items) }
    ensures { IfOk result
        (λ p. p ≡ list_part (insert (items_at config.now path.now) index text.now)) }
{
    let mut items = copy_items(alloc, config, path)?;
    items.insert(index, text.copy(alloc)?)?;
    Ok(Part::Value(Value::List(Names::from_vec(items))))
}

/// The list at a place without the item at an index.
fn without_item(alloc: Global, config: &Config, path: &Path, index: usize) -> Result<Part, Memory>
    requires { IsSomeAnd (list_at config.now path.now) (λ items. index < length items) }
    ensures { IfOk result
        (λ p. p ≡ list_part (removed_at (items_at config.now path.now) index)) }
{
    let mut items = copy_items(alloc, config, path)?;
    drop(items.remove(index));
    Ok(Part::Value(Value::List(Names::from_vec(items))))
}

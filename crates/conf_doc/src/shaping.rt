//! Trees as configurations. Names and texts are taken over from the tree.
ghost use Rattle.std.specs.Prelude.{◌≡◌, ◌∷◌, [], ◌++◌, IfOk, IsUtf8, decimal};
ghost use Rattle.host_core.specs.Answers.{Gives};
ghost use Rattle.conf_doc.specs.Document.{Document, items_of, members_of};
ghost use Rattle.conf_doc.specs.Reading.{below};
ghost use Rattle.conf_doc.specs.Shaping.{configuration, entry_of, mapping_of, named, parts, shape_fault, shaping, table_of, text_of, texts_from, value_of};
ghost use Rattle.conf_doc.specs.Stops.{located, stop_place};
ghost use Rattle.conf_doc.specs.Trees.{document};
ghost use Rattle.conf_doc.specs.WellFormed.{AreTexts, Each, IsConfig, IsEntry, IsShaped, IsTable, IsValue};

use crate::entries::Entries;
use crate::sorted::Sorted;
use crate::stops::Stop;
use crate::{Config, Entry, Items, Members, ShapeError, Table, Tree, Value};
use host_core::{Names, Txt};
use std::alloc::Global;
use std::rc::Rc;

/// The configuration of a tree, which stays as it is.
pub fn config_of(alloc: Global, tree: &Tree) -> Result<Config, ShapeError>
    ensures config { Gives (λ c. c) shape_fault result (shaping (document tree.now)) }
    ensures formed { IfOk result IsConfig }
{
    match tree.copy(alloc) {
        Ok(tree) => config_of_tree(alloc, tree),
        Err(_) => Err(ShapeError::Memory),
    }
}

/// The configuration of a tree, whose names and texts are taken over and not copied.
pub fn config_of_tree(alloc: Global, tree: Tree) -> Result<Config, ShapeError>
    ensures config { Gives (λ c. c) shape_fault result (shaping (document tree)) }
    ensures formed { IfOk result IsConfig }
{
    match Config::shape(alloc, tree) {
        Ok(config) => Ok(config),
        Err(Stop::At(place)) => Err(ShapeError::Shape { place }),
        Err(Stop::Memory) => Err(ShapeError::Memory),
    }
}

/// What a node of a configuration's tree is shaped as.
trait Shaped: Drop {
    ghost use Rattle.std.specs.Prelude.{Result};
    ghost use Rattle.conf_doc.specs.Document.{Document};
    ghost use Rattle.conf_doc.specs.Reading.{Way};

    ghost shape: { Document → Result Self Way };

    ghost IsWell: { Self → Type 0 };

    fn shape(alloc: Global, tree: Tree) -> Result<Self, Stop>
        ensures answer { Gives (λ x. x) stop_place result (located (shape (document tree))) }
        ensures formed { IfOk result IsWell };
}

impl Shaped for Config {
    ghost shape = { configuration };

    ghost IsWell = { IsConfig };

    fn shape(alloc: Global, tree: Tree) -> Result<Config, Stop> {
        Ok(Config {
            tables: shape_map(alloc, tree)?,
        })
    }
}

impl Shaped for Table {
    ghost shape = { table_of };

    ghost IsWell = { IsTable };

    fn shape(alloc: Global, tree: Tree) -> Result<Table, Stop> {
        let list = shape_map(alloc, tree)?;
        Ok(Table {
            entries: Entries::of(alloc, list),
        })
    }
}

impl Shaped for Entry {
    ghost shape = { entry_of };

    ghost IsWell = { IsEntry };

    fn shape(alloc: Global, tree: Tree) -> Result<Entry, Stop> {
        Ok(Entry {
            fields: shape_map(alloc, tree)?,
        })
    }
}

impl Shaped for Value {
    ghost shape = { value_of };

    ghost IsWell = { IsValue };

    fn shape(alloc: Global, tree: Tree) -> Result<Value, Stop> {
        match tree {
            Tree::Text(text) => Ok(Value::Text(utf8(text))),
            Tree::List(items) => match shape_texts(alloc, items) {
                Ok(texts) => Ok(Value::List(texts)),
                Err(stop) => Err(stop),
            },
            other => {
                drop(other);
                Err(Stop::here(alloc))
            }
        }
    }
}

/// The parts of a map.
fn shape_map<X: Shaped>(alloc: Global, tree: Tree) -> Result<Sorted<X>, Stop>
    ensures answer { Gives (λ s. s) stop_place result
        (located (mapping_of X.shape (document tree))) }
    ensures shaped { IfOk result IsShaped }
    ensures formed { IfOk result (Each X.IsWell) }
{
    match tree {
        Tree::Map(members) => shape_parts(alloc, members),
        other => {
            drop(other);
            Err(Stop::here(alloc))
        }
    }
}

fn shape_parts<X: Shaped>(alloc: Global, members: Members) -> Result<Sorted<X>, Stop>
    ensures answer { Gives (λ s. s) stop_place result
        (located (parts X.shape (members_of members))) }
    ensures shaped { IfOk result IsShaped }
    ensures formed { IfOk result (Each X.IsWell) }
{
    let mut pairs = Vec::with_capacity(alloc, members.len())?;
    for (name, tree) in members.into_members() {
        let pair = shape_pair(alloc, name, tree)?;
        pairs.push(pair)?;
    }
    Ok(Sorted::from_shaped(pairs))
}

/// The pair of a name and its node, behind a pointer. The name is looked at before what stands below it.
fn shape_pair<X: Shaped>(alloc: Global, name: Txt, tree: Tree) -> Result<Rc<(Txt, X)>, Stop>
    ensures answer { Gives (λ p. p.value.1) stop_place result
        (located (below name (named name (X.shape (document tree))))) }
    ensures named { IfOk result (λ p. p.value.0 ≡ name) }
    ensures formed { IfOk result (λ p. X.IsWell p.value.1) }
    ensures utf8 { IsUtf8 name }
{
    if name.as_str().is_empty() {
        drop(tree);
        return Err(Stop::here(alloc).below(alloc, name.as_str()));
    }
    match X::shape(alloc, tree) {
        Ok(part) => Ok(Rc::new(alloc, (name, part))?),
        Err(stop) => Err(stop.below(alloc, name.as_str())),
    }
}

fn shape_texts(alloc: Global, items: Items) -> Result<Names, Stop>
    ensures answer { Gives (λ ts. ts) stop_place result (located (texts_from 0 (items_of items))) }
    ensures formed { IfOk result AreTexts }
{
    let mut texts = Names::new(alloc);
    for item in items.into_items() {
        let text = shape_item(alloc, texts.len(), item)?;
        texts.push(text)?;
    }
    Ok(texts)
}

fn shape_item(alloc: Global, i: usize, item: Tree) -> Result<Txt, Stop>
    ensures answer { Gives (λ t. t) stop_place result
        (located (below (decimal i) (text_of (document item)))) }
    ensures formed { IfOk result IsUtf8 }
{
    match item {
        Tree::Text(text) => Ok(utf8(text)),
        other => {
            drop(other);
            Err(Stop::here(alloc).below_item(alloc, i))
        }
    }
}

/// The same text, of which a caller learns that it is UTF-8.
fn utf8(text: Txt) -> Txt
    ensures same { result ≡ text }
    ensures utf8 { IsUtf8 text }
{
    let _ = text.as_str();
    text
}

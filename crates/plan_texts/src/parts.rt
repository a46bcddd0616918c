//! Trees as parts of a configuration.
ghost use Rattle.std.specs.Prelude.{◌≡◌, ◌≤◌, ◌<◌, ◌∷◌, [], IfOk};
ghost use Rattle.conf_doc.specs.Document.{object, members_of};
ghost use Rattle.conf_doc.specs.Trees.{document};
ghost use Rattle.plan_texts.specs.Parts.{IsShapedAs, Shapes, wrap};

use conf_doc::{Config, Members, Part, ShapeError, Tree, config_of_tree};
use host_core::{Memory, Txt};
use std::alloc::Global;

/// The name of a table, of a key and of a field around a part that is read alone.
const NAME: &str = "a";

/// The map in which the name names a tree.
fn wrap(alloc: Global, tree: Tree) -> Result<Tree, Memory>
    ensures { IfOk result (λ t. document t ≡ wrap (document tree)) }
{
    match Txt::new(alloc, NAME) {
        Ok(name) => name_tree(alloc, name, tree),
        Err(error) => {
            drop(tree);
            Err(error)
        }
    }
}

/// The map in which a name names a tree.
fn name_tree(alloc: Global, name: Txt, tree: Tree) -> Result<Tree, Memory>
    ensures { IfOk result (λ t. document t ≡ object (members_of ((name, document tree) ∷ []))) }
{
    let mut members = Members::new(alloc);
    match members.set(name, tree) {
        Ok(()) => Ok(Tree::Map(members)),
        Err(error) => {
            drop(members);
            Err(error)
        }
    }
}

/// The configuration of a tree, where it is one.
fn config_in(alloc: Global, tree: Tree) -> Result<Option<Config>, Memory>
    ensures { IfOk result (IsShapedAs (document tree)) }
{
    match config_of_tree(alloc, tree) {
        Ok(config) => Ok(Some(config)),
        Err(ShapeError::Shape { .. }) => Ok(None),
        Err(ShapeError::Memory) => Err(Memory),
    }
}

/// The table of a tree.
fn table_of(alloc: Global, tree: Tree) -> Result<Option<Part>, Memory>
    ensures { IfOk result (Shapes 1 (document tree)) }
{
    let around = wrap(alloc, tree)?;
    let Some(config) = config_in(alloc, around)? else {
        return Ok(None);
    };
    match config.table(NAME) {
        Some(table) => Ok(Some(Part::Table(table.copy(alloc)?))),
        None => Ok(None),
    }
}

/// The entry of a tree.
fn entry_of(alloc: Global, tree: Tree) -> Result<Option<Part>, Memory>
    ensures { IfOk result (Shapes 2 (document tree)) }
{
    let table = wrap(alloc, tree)?;
    let around = wrap(alloc, table)?;
    let Some(config) = config_in(alloc, around)? else {
        return Ok(None);
    };
    match config.entry(NAME, NAME) {
        Some(entry) => Ok(Some(Part::Entry(entry.copy(alloc)?))),
        None => Ok(None),
    }
}

/// The value of a tree.
fn value_of(alloc: Global, tree: Tree) -> Result<Option<Part>, Memory>
    ensures { IfOk result (Shapes 3 (document tree)) }
{
    let entry = wrap(alloc, tree)?;
    let table = wrap(alloc, entry)?;
    let around = wrap(alloc, table)?;
    let Some(config) = config_in(alloc, around)? else {
        return Ok(None);
    };
    match config.value(NAME, NAME, NAME) {
        Some(value) => Ok(Some(Part::Value(value.copy(alloc)?))),
        None => Ok(None),
    }
}

/// The part that a tree is at a place of so many names, where it is one.
pub(crate) fn part_of(alloc: Global, names: usize, tree: Tree) -> Result<Option<Part>, Memory>
    requires some { 0 < names }
    requires few { names ≤ 3 }
    ensures { IfOk result (Shapes names (document tree)) }
{
    match names {
        1 => table_of(alloc, tree),
        2 => entry_of(alloc, tree),
        _ => value_of(alloc, tree),
    }
}

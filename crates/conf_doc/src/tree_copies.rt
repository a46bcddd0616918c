//! Copies of trees, and whether two trees are the same document.
ghost use Rattle.std.specs.Prelude.{◌≡◌, ◌↔◌, IfOk, IsTrue};
ghost use Rattle.conf_doc.specs.Trees.{document};

use crate::{Items, Members, Tree};
use host_core::{Memory, Txt};
use std::alloc::Global;

impl Tree {
    /// A copy of the whole tree.
    pub fn copy(&self, alloc: Global) -> Result<Tree, Memory>
        ensures { IfOk result (λ t. document t ≡ document self.now) }
    {
        copy_tree(alloc, self)
    }

    /// Whether the trees are the same document.
    pub fn same(&self, other: &Tree) -> bool
        ensures { IsTrue result ↔ (document self.now ≡ document other.now) }
    {
        same_trees(self, other)
    }
}

#[cycle(copying)]
fn copy_tree(alloc: Global, tree: &Tree) -> Result<Tree, Memory>
    ensures { IfOk result (λ t. document t ≡ document tree.now) }
{
    match tree {
        Tree::Text(text) => match text.copy(alloc) {
            Ok(copy) => Ok(Tree::Text(copy)),
            Err(_) => Err(Memory),
        },
        Tree::List(items) => match copy_items(alloc, items) {
            Ok(copies) => Ok(Tree::List(copies)),
            Err(_) => Err(Memory),
        },
        Tree::Map(members) => match copy_members(alloc, members) {
            Ok(copies) => Ok(Tree::Map(copies)),
            Err(_) => Err(Memory),
        },
    }
}

#[cycle(copying)]
fn copy_items(alloc: Global, items: &Items) -> Result<Items, Memory>
    ensures { IfOk result (λ copies. copies ≡ items.now) }
{
    let mut copies = Items::new(alloc);
    for item in items.items() {
        let copy = copy_tree(alloc, item)?;
        copies.push(copy)?;
    }
    Ok(copies)
}

#[cycle(copying)]
fn copy_members(alloc: Global, members: &Members) -> Result<Members, Memory>
    ensures { IfOk result (λ copies. copies ≡ members.now) }
{
    let mut copies = Vec::new(alloc);
    for (name, tree) in members.members() {
        let name = name.copy(alloc)?;
        let tree = copy_tree(alloc, tree)?;
        copies.push((name, tree))?;
    }
    Ok(Members::from_sorted(copies))
}

#[cycle(sameness)]
fn same_trees(left: &Tree, right: &Tree) -> bool
    ensures { IsTrue result ↔ (document left.now ≡ document right.now) }
{
    match (left, right) {
        (Tree::Text(left), Tree::Text(right)) => left.as_str() == right.as_str(),
        (Tree::List(left), Tree::List(right)) => same_items(left, right),
        (Tree::Map(left), Tree::Map(right)) => same_members(left, right),
        _ => false,
    }
}

#[cycle(sameness)]
fn same_items(left: &Items, right: &Items) -> bool
    ensures { IsTrue result ↔ (left.now ≡ right.now) }
{
    if left.len() != right.len() {
        return false;
    }
    for i in 0..left.len() {
        if !same_trees(left.at(i), right.at(i)) {
            return false;
        }
    }
    true
}

#[cycle(sameness)]
fn same_members(left: &Members, right: &Members) -> bool
    ensures { IsTrue result ↔ (left.now ≡ right.now) }
{
    if left.len() != right.len() {
        return false;
    }
    for i in 0..left.len() {
        if left.name_at(i) != right.name_at(i) {
            return false;
        }
        if !same_trees(left.at(i), right.at(i)) {
            return false;
        }
    }
    true
}

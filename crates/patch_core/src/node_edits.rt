//! Edits at one node, of the child that a token names.
//! What is given up goes whole to `drop`: one call to the prover, where a removal at an end has many steps.
ghost use Rattle.std.specs.Prelude.{◌≡◌, IfErr, IfOk, IsOk, Some};
ghost use Rattle.conf_doc.specs.Document.{list, object, items_of, members_of};
ghost use Rattle.conf_doc.specs.Trees.{document};
ghost use Rattle.host_core.specs.Answers.{Gives};
ghost use Rattle.patch_core.specs.Apply.{below, with_new};
ghost use Rattle.patch_core.specs.Edits.{HandsOut, IsTaken, edit_below, grown_list, remove_below, replace_below};
ghost use Rattle.patch_core.specs.Measures.{IsMeasured};
ghost use Rattle.patch_core.specs.Stops.{stop_fault};
ghost use Rattle.patch_core.specs.declared.node_edits.Edit.TheVariants.{Add, Remove, Replace};
ghost use Rattle.patch_core.specs.declared.errors.FailWhy.TheVariants.{NoTarget};
ghost use Rattle.patch_core.specs.declared.errors.Stop.TheVariants.{Memory as StopMemory};

use crate::errors::{FailWhy, Stop};
use crate::indexes::{Spot, spot_of};
use crate::walks::item_index;
use conf_doc::{Items, Members, Tree};
use host_core::{Memory, Txt};
use std::alloc::Global;

/// What becomes of what a path leads to.
#[derive(Drop)]
pub(crate) enum Edit {
    Add(Tree),
    Remove,
    Replace(Tree),
}

/// A tree after an edit, and what the edit changed.
#[derive(Drop)]
pub(crate) struct Change {
    pub(crate) tree: Tree,
    /// What went out.
    pub(crate) out: Option<Tree>,
    /// The bytes of a name that came in.
    pub(crate) name_in: usize,
    /// The bytes of a name that went out.
    pub(crate) name_out: usize,
}

/// The node after an edit of the child that a token names.
pub(crate) fn edit_below(alloc: Global, token: &Txt, edit: Edit, tree: Tree) -> Result<Change, Stop>
    ensures left { Gives (λ c. document c.tree) stop_fault result
        (edit_below edit token.now (document tree)) }
    ensures taken { IfOk result (λ c.
        HandsOut edit c.out (below NoTarget token.now (document tree))) }
    ensures measured { IfOk result (λ c. IsMeasured edit c 1 (document tree)) }
{
    match edit {
        Edit::Add(value) => add_below(alloc, token, value, tree),
        Edit::Remove => Ok(remove_below(token, tree)?),
        Edit::Replace(value) => Ok(replace_below(token, value, tree)?),
    }
}

// ---- adds

/// The node with one more child, or another in the place of a member.
fn add_below(alloc: Global, token: &Txt, value: Tree, tree: Tree) -> Result<Change, Stop>
    ensures left { Gives (λ c. document c.tree) stop_fault result
        (with_new token.now (document value) (document tree)) }
    ensures measured { IfOk result (λ c. IsMeasured (Add value) c 1 (document tree)) }
{
    match tree {
        Tree::Text(text) => {
            drop(text);
            drop(value);
            Err(Stop::Fails(FailWhy::NoParent))
        }
        Tree::List(items) => add_item(token, value, items),
        Tree::Map(members) => add_member(alloc, token, value, members),
    }
}

/// A list with one more item.
fn add_item(token: &Txt, value: Tree, mut items: Items) -> Result<Change, Stop>
    ensures left { Gives (λ c. document c.tree) stop_fault result
        (with_new token.now (document value) (list (items_of items))) }
    ensures measured { IfOk result (λ c. IsMeasured (Add value) c 1 (list (items_of items))) }
{
    match spot_of(token, items.len()) {
        Spot::At(i) => {
            let put = items.insert(i, value);
            give_list(put, items)
        }
        Spot::End => {
            let put = items.push(value);
            give_list(put, items)
        }
        Spot::Dash => {
            let put = items.push(value);
            give_list(put, items)
        }
        Spot::Past => {
            drop(value);
            drop(items);
            Err(Stop::Fails(FailWhy::BadIndex))
        }
        Spot::NoIndex => {
            drop(value);
            drop(items);
            Err(Stop::Fails(FailWhy::BadIndex))
        }
    }
}

/// The list into which an item was put, where there was memory for it.
fn give_list(put: Result<(), Memory>, items: Items) -> Result<Change, Stop>
    ensures given { IfOk result (λ c. IsOk put × (c ≡ grown_list items)) }
    ensures memory { IfErr result (λ stop. stop ≡ StopMemory) }
{
    match put {
        Ok(()) => Ok(Change {
            tree: Tree::List(items),
            out: None,
            name_in: 0,
            name_out: 0,
        }),
        Err(_) => {
            drop(items);
            Err(Stop::Memory)
        }
    }
}

/// A map with a member set.
fn add_member(alloc: Global, token: &Txt, value: Tree, mut members: Members) -> Result<Change, Stop>
    ensures left { Gives (λ c. document c.tree) stop_fault result
        (with_new token.now (document value) (object (members_of members))) }
    ensures measured { IfOk result (λ c.
        IsMeasured (Add value) c 1 (object (members_of members))) }
{
    match members.replace(token.as_str(), value) {
        Ok(out) => Ok(Change {
            tree: Tree::Map(members),
            out: Some(out),
            name_in: 0,
            name_out: 0,
        }),
        Err(value) => {
            let name = match Txt::new(alloc, token.as_str()) {
                Ok(name) => name,
                Err(_) => {
                    drop(value);
                    drop(members);
                    return Err(Stop::Memory);
                }
            };
            match members.set(name, value) {
                Ok(()) => Ok(Change {
                    tree: Tree::Map(members),
                    out: None,
                    name_in: token.as_str().len(),
                    name_out: 0,
                }),
                Err(_) => {
                    drop(members);
                    Err(Stop::Memory)
                }
            }
        }
    }
}

// ---- removes

/// The node without what a token names.
fn remove_below(token: &Txt, tree: Tree) -> Result<Change, FailWhy>
    ensures left { Gives (λ c. document c.tree) Some result
        (remove_below token.now (document tree)) }
    ensures taken { IfOk result (λ c. IsTaken c.out (below NoTarget token.now (document tree))) }
    ensures measured { IfOk result (λ c. IsMeasured Remove c 1 (document tree)) }
{
    match tree {
        Tree::Text(_) => Err(FailWhy::NoParent),
        Tree::List(items) => remove_item(token, items),
        Tree::Map(members) => remove_member(token, members),
    }
}

/// A list without an item.
fn remove_item(token: &Txt, mut items: Items) -> Result<Change, FailWhy>
    ensures left { Gives (λ c. document c.tree) Some result
        (remove_below token.now (list (items_of items))) }
    ensures taken { IfOk result (λ c.
        IsTaken c.out (below NoTarget token.now (list (items_of items)))) }
    ensures measured { IfOk result (λ c. IsMeasured Remove c 1 (list (items_of items))) }
{
    let i = match item_index(FailWhy::NoTarget, token, &items) {
        Ok(i) => i,
        Err(why) => {
            drop(items);
            return Err(why);
        }
    };
    let out = items.remove(i);
    Ok(Change {
        tree: Tree::List(items),
        out: Some(out),
        name_in: 0,
        name_out: 0,
    })
}

/// A map without a member.
fn remove_member(token: &Txt, mut members: Members) -> Result<Change, FailWhy>
    ensures left { Gives (λ c. document c.tree) Some result
        (remove_below token.now (object (members_of members))) }
    ensures taken { IfOk result (λ c.
        IsTaken c.out (below NoTarget token.now (object (members_of members)))) }
    ensures measured { IfOk result (λ c. IsMeasured Remove c 1 (object (members_of members))) }
{
    match members.take(token.as_str()) {
        Some(out) => Ok(Change {
            tree: Tree::Map(members),
            out: Some(out),
            name_in: 0,
            name_out: token.as_str().len(),
        }),
        None => {
            drop(members);
            Err(FailWhy::NoTarget)
        }
    }
}

// ---- replaces

/// The node with another child in the place of what a token names.
fn replace_below(token: &Txt, value: Tree, tree: Tree) -> Result<Change, FailWhy>
    ensures left { Gives (λ c. document c.tree) Some result
        (replace_below token.now (document value) (document tree)) }
    ensures taken { IfOk result (λ c. IsTaken c.out (below NoTarget token.now (document tree))) }
    ensures measured { IfOk result (λ c. IsMeasured (Replace value) c 1 (document tree)) }
{
    match tree {
        Tree::Text(text) => {
            drop(text);
            drop(value);
            Err(FailWhy::NoParent)
        }
        Tree::List(items) => replace_item(token, value, items),
        Tree::Map(members) => replace_member(token, value, members),
    }
}

/// A list with another item in the place of one.
fn replace_item(token: &Txt, value: Tree, mut items: Items) -> Result<Change, FailWhy>
    ensures left { Gives (λ c. document c.tree) Some result
        (replace_below token.now (document value) (list (items_of items))) }
    ensures taken { IfOk result (λ c.
        IsTaken c.out (below NoTarget token.now (list (items_of items)))) }
    ensures measured { IfOk result (λ c. IsMeasured (Replace value) c 1 (list (items_of items))) }
{
    let i = match item_index(FailWhy::NoTarget, token, &items) {
        Ok(i) => i,
        Err(why) => {
            drop(items);
            drop(value);
            return Err(why);
        }
    };
    let out = items.replace(i, value);
    Ok(Change {
        tree: Tree::List(items),
        out: Some(out),
        name_in: 0,
        name_out: 0,
    })
}

/// A map with another document at a name that is there.
fn replace_member(token: &Txt, value: Tree, mut members: Members) -> Result<Change, FailWhy>
    ensures left { Gives (λ c. document c.tree) Some result
        (replace_below token.now (document value) (object (members_of members))) }
    ensures taken { IfOk result (λ c.
        IsTaken c.out (below NoTarget token.now (object (members_of members)))) }
    ensures measured { IfOk result (λ c.
        IsMeasured (Replace value) c 1 (object (members_of members))) }
{
    match members.replace(token.as_str(), value) {
        Ok(out) => Ok(Change {
            tree: Tree::Map(members),
            out: Some(out),
            name_in: 0,
            name_out: 0,
        }),
        Err(value) => {
            drop(value);
            drop(members);
            Err(FailWhy::NoTarget)
        }
    }
}

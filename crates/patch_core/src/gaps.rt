//! Nodes with a child taken out.
//! What is given up goes whole to `drop`: one call to the prover, where a removal at an end has many steps.
ghost use Rattle.std.specs.Prelude.{◌≡◌, IfOk, Some};
ghost use Rattle.conf_doc.specs.Document.{list, object, items_of, members_of};
ghost use Rattle.conf_doc.specs.Trees.{document};
ghost use Rattle.host_core.specs.Answers.{Gives};
ghost use Rattle.patch_core.specs.Apply.{below};
ghost use Rattle.patch_core.specs.Gaps.{IsGap, CanClose, fill};
ghost use Rattle.patch_core.specs.declared.errors.FailWhy.TheVariants.{NoParent};

use crate::errors::FailWhy;
use crate::walks::item_index;
use conf_doc::{Items, Members, Tree};
use host_core::Txt;
use std::alloc::Global;

/// A node with an empty list in the place of one of its children.
#[derive(Drop)]
pub(crate) enum Gap {
    /// The items, and the index of the child.
    Item(Items, usize),
    Member(Members),
}

/// What takes a child's place.
fn hole(alloc: Global) -> Tree {
    Tree::List(Items::new(alloc))
}

/// Takes out the child that a token names.
pub(crate) fn open_gap(alloc: Global, token: &Txt, tree: Tree) -> Result<(Gap, Tree), FailWhy>
    ensures child { Gives (λ x. document x.1) Some result
        (below NoParent token.now (document tree)) }
    ensures gap { IfOk result (λ x.
        IsGap x.0 token.now (document tree) (document x.1)) }
{
    match tree {
        Tree::Text(_) => Err(FailWhy::NoParent),
        Tree::List(items) => open_item(alloc, token, items),
        Tree::Map(members) => open_member(alloc, token, members),
    }
}

/// Takes out the item that a token names.
fn open_item(alloc: Global, token: &Txt, mut items: Items) -> Result<(Gap, Tree), FailWhy>
    ensures child { Gives (λ x. document x.1) Some result
        (below NoParent token.now (list (items_of items))) }
    ensures gap { IfOk result (λ x.
        IsGap x.0 token.now (list (items_of items)) (document x.1)) }
{
    let i = match item_index(FailWhy::NoParent, token, &items) {
        Ok(i) => i,
        Err(why) => {
            drop(items);
            return Err(why);
        }
    };
    let child = items.replace(i, hole(alloc));
    Ok((Gap::Item(items, i), child))
}

/// Takes out the member that a token names.
fn open_member(alloc: Global, token: &Txt, mut members: Members) -> Result<(Gap, Tree), FailWhy>
    ensures child { Gives (λ x. document x.1) Some result
        (below NoParent token.now (object (members_of members))) }
    ensures gap { IfOk result (λ x.
        IsGap x.0 token.now (object (members_of members)) (document x.1)) }
{
    match members.replace(token.as_str(), hole(alloc)) {
        Ok(child) => Ok((Gap::Member(members), child)),
        Err(hole) => {
            drop(hole);
            drop(members);
            Err(FailWhy::NoParent)
        }
    }
}

/// Puts a child in.
pub(crate) fn close_gap(token: &Txt, gap: Gap, child: Tree) -> Tree
    requires { CanClose gap token.now }
    ensures { document result ≡ fill gap token.now (document child) }
{
    match gap {
        Gap::Item(mut items, i) => {
            drop(items.replace(i, child));
            Tree::List(items)
        }
        Gap::Member(mut members) => match members.replace(token.as_str(), child) {
            Ok(hole) => {
                drop(hole);
                Tree::Map(members)
            }
            Err(_) => unreachable!(),
        },
    }
}

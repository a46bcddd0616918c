//! Patches applied to trees.
ghost use Rattle.std.specs.Prelude.{map};
ghost use Rattle.conf_doc.specs.Trees.{document};
ghost use Rattle.host_core.specs.Answers.{Gives};
ghost use Rattle.patch_core.specs.Apply.{apply, apply_fault, apply_plain, in_order, result_of, result_within};
ghost use Rattle.patch_core.specs.Operation.{operation_of, operations};

use crate::Op;
use crate::errors::{ApplyError, Stop};
use crate::limits::{Weighed, perform_first, perform_within};
use crate::node_edits::Change;
use crate::operations::perform;
use conf_doc::Tree;
use host_core::Sequence;
use std::alloc::Global;

/// The operations of a patch, in order.
#[derive(Drop)]
pub struct Patch {
    pub ops: Sequence<Op>,
}

/// The tree after all operations of a patch, in order. One that fails, or that makes the tree too large,
/// fails the whole patch. The tree given stays as it is.
pub fn apply(alloc: Global, patch: &Patch, tree: &Tree) -> Result<Tree, ApplyError>
    ensures { Gives document apply_fault result
        (apply (operations patch.now) (document tree.now)) }
{
    apply_owned(alloc, patch, tree.copy(alloc)?)
}

/// The same of a tree that is given up for it: what the operations leave alone isn't copied.
pub fn apply_owned(alloc: Global, patch: &Patch, tree: Tree) -> Result<Tree, ApplyError>
    ensures { Gives document apply_fault result (apply (operations patch.now) (document tree)) }
{
    match patch.ops.items() {
        [] => Ok(tree),
        [op, rest @ ..] => match perform_first(alloc, op, tree) {
            Ok(first) => perform_rest(alloc, rest, first),
            Err(Stop::Memory) => Err(ApplyError::Memory),
            Err(Stop::Fails(why)) => Err(ApplyError::Failed { index: 0, why }),
        },
    }
}

/// The same as `apply` with no limit on the size of the tree: `TooLarge` doesn't come.
pub fn apply_plain(alloc: Global, patch: &Patch, tree: &Tree) -> Result<Tree, ApplyError>
    ensures { Gives document apply_fault result
        (apply_plain (operations patch.now) (document tree.now)) }
{
    apply_plain_owned(alloc, patch, tree.copy(alloc)?)
}

/// The same of a tree that is given up for it: what the operations leave alone isn't copied.
pub fn apply_plain_owned(alloc: Global, patch: &Patch, tree: Tree) -> Result<Tree, ApplyError>
    ensures { Gives document apply_fault result
        (apply_plain (operations patch.now) (document tree)) }
{
    perform_all(alloc, patch.ops.items(), tree)
}

/// The tree after operations, with no limit.
fn perform_all(alloc: Global, ops: &[Op], tree: Tree) -> Result<Tree, ApplyError>
    ensures { Gives document apply_fault result
        (in_order result_of 0 (map operation_of ops.now) (document tree)) }
{
    let mut left = tree;
    for (index, op) in ops.iter().enumerate() {
        left = match perform(alloc, op, left) {
            Ok(Change { tree, out, .. }) => {
                drop(out);
                tree
            }
            Err(Stop::Memory) => return Err(ApplyError::Memory),
            Err(Stop::Fails(why)) => return Err(ApplyError::Failed { index, why }),
        };
    }
    Ok(left)
}

/// The tree after the operations behind a first one.
fn perform_rest(alloc: Global, ops: &[Op], first: Weighed) -> Result<Tree, ApplyError>
    ensures { Gives document apply_fault result
        (in_order result_within 1 (map operation_of ops.now) (document first.tree)) }
{
    let mut before = first;
    for (i, op) in ops.iter().enumerate() {
        before = match perform_within(alloc, op, before) {
            Ok(after) => after,
            Err(Stop::Memory) => return Err(ApplyError::Memory),
            Err(Stop::Fails(why)) => return Err(ApplyError::Failed { index: i + 1, why }),
        };
    }
    let Weighed { tree, total: _ } = before;
    Ok(tree)
}

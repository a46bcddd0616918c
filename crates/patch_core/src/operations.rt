//! The operations of a patch, and what each makes of a tree (RFC 6902, section 4).
//! What is given up goes whole to `drop`: one call to the prover, where a removal at an end has many steps.
ghost use Rattle.std.specs.Prelude.{◌≡◌, IfOk};
ghost use Rattle.conf_doc.specs.Trees.{document};
ghost use Rattle.host_core.specs.Answers.{Gives};
ghost use Rattle.patch_core.specs.Apply.{result_of};
ghost use Rattle.patch_core.specs.Measures.{IsChange};
ghost use Rattle.patch_core.specs.Operation.{copy_to, move_to, operation_of, test};
ghost use Rattle.patch_core.specs.Same.{same};
ghost use Rattle.patch_core.specs.Stops.{stop_fault};

use crate::Pointer;
use crate::errors::{FailWhy, Stop};
use crate::node_edits::{Change, Edit};
use crate::path_edits::edit_at;
use crate::walks::{leads_into, target};
use conf_doc::Tree;
use host_core::Txt;
use std::alloc::Global;

/// One operation of a patch (RFC 6902, section 4).
#[derive(Drop)]
pub enum Op {
    Add(Pointer, Tree),
    Remove(Pointer),
    Replace(Pointer, Tree),
    Move { from: Pointer, path: Pointer },
    Copy { from: Pointer, path: Pointer },
    Test(Pointer, Tree),
}

/// The tree after one operation, and what it changed.
pub(crate) fn perform(alloc: Global, op: &Op, tree: Tree) -> Result<Change, Stop>
    ensures left { Gives (λ c. document c.tree) stop_fault result
        (result_of (operation_of op.now) (document tree)) }
    ensures change { IfOk result (λ c. IsChange (operation_of op.now) c (document tree)) }
{
    match op {
        Op::Add(path, value) => match value.copy(alloc) {
            Ok(value) => edit_at(alloc, path.tokens.items(), Edit::Add(value), tree),
            Err(_) => {
                drop(tree);
                Err(Stop::Memory)
            }
        },
        Op::Remove(path) => edit_at(alloc, path.tokens.items(), Edit::Remove, tree),
        Op::Replace(path, value) => match value.copy(alloc) {
            Ok(value) => edit_at(alloc, path.tokens.items(), Edit::Replace(value), tree),
            Err(_) => {
                drop(tree);
                Err(Stop::Memory)
            }
        },
        Op::Move { from, path } => {
            move_value(alloc, from.tokens.items(), path.tokens.items(), tree)
        }
        Op::Copy { from, path } => {
            copy_value(alloc, from.tokens.items(), path.tokens.items(), tree)
        }
        Op::Test(path, value) => test_value(path.tokens.items(), value, tree),
    }
}

/// A move: `IntoItself` comes before all else, then what keeps the value from going out.
fn move_value(alloc: Global, from: &[Txt], path: &[Txt], tree: Tree) -> Result<Change, Stop>
    ensures left { Gives (λ c. document c.tree) stop_fault result
        (result_of (move_to from.now path.now) (document tree)) }
    ensures change { IfOk result (λ c. IsChange (move_to from.now path.now) c (document tree)) }
{
    if leads_into(from, path) {
        drop(tree);
        return Err(Stop::Fails(FailWhy::IntoItself));
    }
    if let Err(why) = target(from, &tree) {
        drop(tree);
        return Err(Stop::Fails(why));
    }
    let Change {
        tree,
        out,
        name_out,
        ..
    } = edit_at(alloc, from, Edit::Remove, tree)?;
    match out {
        None => unreachable!(),
        Some(value) => {
            let Change {
                tree,
                out,
                name_in,
                ..
            } = edit_at(alloc, path, Edit::Add(value), tree)?;
            Ok(Change {
                tree,
                out,
                name_in,
                name_out,
            })
        }
    }
}

/// A copy: what keeps the value from being found comes before what keeps it from going in.
fn copy_value(alloc: Global, from: &[Txt], path: &[Txt], tree: Tree) -> Result<Change, Stop>
    ensures left { Gives (λ c. document c.tree) stop_fault result
        (result_of (copy_to from.now path.now) (document tree)) }
    ensures change { IfOk result (λ c. IsChange (copy_to from.now path.now) c (document tree)) }
{
    match target(from, &tree) {
        Ok(value) => match value.copy(alloc) {
            Ok(value) => edit_at(alloc, path, Edit::Add(value), tree),
            Err(_) => {
                drop(tree);
                Err(Stop::Memory)
            }
        },
        Err(why) => {
            drop(tree);
            Err(Stop::Fails(why))
        }
    }
}

/// A test, which changes nothing.
fn test_value(path: &[Txt], value: &Tree, tree: Tree) -> Result<Change, Stop>
    ensures left { Gives (λ c. document c.tree) stop_fault result
        (result_of (test path.now (document value.now)) (document tree)) }
    ensures change { IfOk result (λ c.
        IsChange (test path.now (document value.now)) c (document tree)) }
{
    let found = match target(path, &tree) {
        Ok(found) => found,
        Err(why) => {
            drop(tree);
            return Err(Stop::Fails(why));
        }
    };
    if !is_same(value, found) {
        drop(tree);
        return Err(Stop::Fails(FailWhy::TestFailed));
    }
    Ok(Change {
        tree,
        out: None,
        name_in: 0,
        name_out: 0,
    })
}

/// Whether two trees are the same document.
fn is_same(value: &Tree, found: &Tree) -> bool
    ensures { result ≡ same (document value.now) (document found.now) }
{
    value.same(found)
}

//! Operations within the limit on the size of a tree. The weight is kept, and not counted again.
//! What is given up goes whole to `drop`: one call to the prover, where a removal at an end has many steps.
ghost use Rattle.std.specs.Prelude.{◌≡◌, ◌+◌, ◌≤◌, false, length, IfErr, IfOk};
ghost use Rattle.conf_doc.specs.Document.{depth, weight};
ghost use Rattle.conf_doc.specs.Trees.{document};
ghost use Rattle.host_core.specs.Answers.{Gives};
ghost use Rattle.patch_core.specs.Apply.{fits, most_levels, most_weight, result_within};
ghost use Rattle.patch_core.specs.Measures.{weight_out, IsWeightAt, IsWeightOf, IsSumWithin};
ghost use Rattle.patch_core.specs.Operation.{operation_of};
ghost use Rattle.patch_core.specs.Stops.{stop_fault};

use crate::Op;
use crate::errors::{FailWhy, Stop};
use crate::node_edits::Change;
use crate::operations::perform;
use crate::walks::target;
use crate::weights::left_after;
use conf_doc::Tree;
use host_core::Txt;
use std::alloc::Global;

/// The most that a tree may weigh: one for each node, and the bytes of each text and name.
const MOST_WEIGHT: usize = 8_388_608;

/// The most levels that lists and maps may nest.
const MOST_LEVELS: usize = 127;

/// A tree within the limit, and its weight.
#[derive(Drop)]
pub(crate) struct Weighed {
    pub(crate) tree: Tree,
    pub(crate) total: usize,
    ghost exact: { total ≡ weight (document tree) },
    ghost light: { total ≤ most_weight },
    ghost shallow: { depth (document tree) ≤ most_levels },
}

/// The tree after one operation, or `TooLarge`.
pub(crate) fn perform_within(alloc: Global, op: &Op, before: Weighed) -> Result<Weighed, Stop>
    ensures { Gives (λ w. document w.tree) stop_fault result
        (result_within (operation_of op.now) (document before.tree)) }
{
    let Weighed { tree, total } = before;
    let weight_new = weight_of(op, &tree);
    let Change {
        tree,
        out,
        name_in,
        name_out,
    } = perform(alloc, op, tree)?;
    let rest = weight_without(total, &out, name_out);
    drop(out);
    match weight_new {
        None => {
            drop(tree);
            Err(Stop::Fails(FailWhy::TooLarge))
        }
        Some(weight_new) => match sum_within(rest, weight_new, name_in) {
            None => {
                drop(tree);
                Err(Stop::Fails(FailWhy::TooLarge))
            }
            Some(total) => Ok(Weighed { tree, total }),
        },
    }
}

/// The same for the first operation of a patch, before which the tree may be too large.
pub(crate) fn perform_first(alloc: Global, op: &Op, tree: Tree) -> Result<Weighed, Stop>
    ensures { Gives (λ w. document w.tree) stop_fault result
        (result_within (operation_of op.now) (document tree)) }
{
    match weigh(tree) {
        Ok(before) => perform_within(alloc, op, before),
        Err(tree) => {
            let Change { tree, out, .. } = perform(alloc, op, tree)?;
            drop(out);
            match weigh(tree) {
                Ok(after) => Ok(after),
                Err(tree) => {
                    drop(tree);
                    Err(Stop::Fails(FailWhy::TooLarge))
                }
            }
        }
    }
}

/// A tree with its weight, or the tree alone where it is too large.
fn weigh(tree: Tree) -> Result<Weighed, Tree>
    ensures fits { IfOk result (λ w. document w.tree ≡ document tree) }
    ensures large { IfErr result (λ t.
        (document t ≡ document tree) × (fits (document tree) ≡ false)) }
{
    match left_after(&tree, MOST_WEIGHT, MOST_LEVELS) {
        Some(left) => Ok(Weighed {
            tree,
            total: MOST_WEIGHT - left,
        }),
        None => Err(tree),
    }
}

/// The weight that an operation adds, or None where what it puts at its path is too large there.
fn weight_of(op: &Op, tree: &Tree) -> Option<usize>
    ensures { IsWeightOf (operation_of op.now) (document tree.now) result }
{
    match op {
        Op::Add(path, value) => weight_at(path.tokens.items(), value),
        Op::Remove(_) => Some(0),
        Op::Replace(path, value) => weight_at(path.tokens.items(), value),
        Op::Move { from, path } => match target(from.tokens.items(), tree) {
            Ok(value) => weight_at(path.tokens.items(), value).map(|_| 0),
            Err(_) => Some(0),
        },
        Op::Copy { from, path } => match target(from.tokens.items(), tree) {
            Ok(value) => weight_at(path.tokens.items(), value),
            Err(_) => Some(0),
        },
        Op::Test(..) => Some(0),
    }
}

/// The weight of a tree at the end of a path, or None where it is too large there.
fn weight_at(path: &[Txt], tree: &Tree) -> Option<usize>
    ensures { IsWeightAt (length path.now) (document tree.now) result }
{
    let left = left_after(tree, MOST_WEIGHT, MOST_LEVELS.checked_sub(path.len())?)?;
    Some(MOST_WEIGHT - left)
}

/// The weight without what went out.
fn weight_without(total: usize, out: &Option<Tree>, name_out: usize) -> usize
    requires { weight_out out.now + name_out ≤ total }
    ensures { result + weight_out out.now + name_out ≡ total }
{
    let most = total - name_out;
    most - weight_out(out, most)
}

/// The weight of what went out.
fn weight_out(out: &Option<Tree>, most: usize) -> usize
    requires { weight_out out.now ≤ most }
    ensures { result ≡ weight_out out.now }
{
    match out {
        None => 0,
        Some(tree) => match left_after(tree, most, most) {
            Some(left) => most - left,
            None => unreachable!(),
        },
    }
}

/// The sum of weights, where it is within the limit.
fn sum_within(rest: usize, weight_new: usize, name_in: usize) -> Option<usize>
    requires { rest ≤ most_weight }
    ensures { IsSumWithin (rest + (weight_new + name_in)) result }
{
    let room = MOST_WEIGHT - rest;
    let room = room.checked_sub(weight_new)?.checked_sub(name_in)?;
    Some(MOST_WEIGHT - room)
}

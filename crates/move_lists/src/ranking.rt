//! Chains of one part with their ranks: at least one of least rank for each move that none of a lesser
//! part ends with.
ghost use Rattle.std.specs.Prelude.{◌≡◌, [], IfOk};
ghost use Rattle.move_core.specs.Listed.{place_class};
ghost use Rattle.move_lists.specs.Ranking.{AddsExtended, chosen_moves, is_chosen, leads_early, lone_tier, ranked_alone};
ghost use Rattle.move_lists.specs.Reaches.{AreOnce};

use crate::firsts::First;
use crate::reaches::Reach;
use host_core::Memory;
use move_core::{Move, Ranked};
use std::alloc::Global;

/// The tier of a chain of a generated move alone that isn't restoring, and of one that is.
const ALONE: u8 = 1;

const RESTORING: u8 = 3;

/// The classes of extended moves.
const TABLE_CLASS: u8 = 0;

const KEY_CLASS: u8 = 1;

const ITEM_CLASS: u8 = 2;

const FIELD_CLASS: u8 = 3;

/// Some of the generated moves.
#[derive(Clone, Copy, Drop)]
pub(crate) enum Choice {
    /// Those whose extended chains have the lesser tier.
    Early,
    /// The others.
    Late,
    /// Those that are restoring.
    Restoring,
    /// Those that aren't.
    Other,
}

/// Whether the extended chains from a generated move have the lesser tier: it is a remove or a replace, and
/// isn't restoring.
fn leads_early(first: &First) -> bool
    ensures { result ≡ leads_early first.now }
{
    match &first.generated.mv {
        Move::Add(..) => false,
        Move::AddItem(..) => false,
        _ => !first.is_restoring,
    }
}

/// Whether a generated move is among those that are chosen.
fn is_chosen(choice: Choice, first: &First) -> bool
    ensures { result ≡ is_chosen choice first.now }
{
    match choice {
        Choice::Early => leads_early(first),
        Choice::Late => !leads_early(first),
        Choice::Restoring => first.is_restoring,
        Choice::Other => !first.is_restoring,
    }
}

/// Those of the generated moves that are chosen.
pub(crate) fn chosen_moves(
    alloc: Global,
    firsts: &[First],
    choice: Choice,
) -> Result<Vec<Move>, Memory>
    ensures { IfOk result (λ ms. ms.items ≡ chosen_moves choice firsts.now) }
{
    let mut moves = Vec::new(alloc);
    for first in firsts {
        if is_chosen(choice, first) {
            let mv = first.generated.mv.copy(alloc)?;
            moves.push(mv)?;
        }
    }
    Ok(moves)
}

/// The tier of a generated move alone.
fn lone_tier(restoring: bool) -> u8
    ensures { result ≡ lone_tier restoring }
{
    if restoring { RESTORING } else { ALONE }
}

/// The chains of a generated move alone, of those that are restoring or of the others.
pub(crate) fn rank_alone(
    alloc: Global,
    firsts: &[First],
    restoring: bool,
) -> Result<Vec<Ranked>, Memory>
    ensures { IfOk result (λ rs. rs.items ≡ ranked_alone restoring firsts.now) }
{
    let tier = lone_tier(restoring);
    let mut ranked = Vec::with_capacity(alloc, firsts.len())?;
    for first in firsts {
        if first.is_restoring == restoring {
            let mv = first.generated.mv.copy(alloc)?;
            ranked.push(Ranked {
                tier,
                depth: 0,
                class: first.generated.class,
                mv,
            })?;
        }
    }
    Ok(ranked)
}

/// The class of an extended move.
fn place_class(mv: &Move) -> u8
    ensures { result ≡ place_class mv.now }
{
    if mv.index().is_some() {
        return ITEM_CLASS;
    }
    match mv.place().len() {
        1 => TABLE_CLASS,
        2 => KEY_CLASS,
        _ => FIELD_CLASS,
    }
}

/// The chains of a tier with so many extensions or more.
pub(crate) fn rank_reached(
    alloc: Global,
    reached: &Reach,
    tier: u8,
    least: usize,
) -> Result<Vec<Ranked>, Memory>
    ensures added { IfOk result (λ rs. AddsExtended reached.now tier least [] rs.items) }
    ensures once { AreOnce reached.now }
{
    let mut ranked = Vec::new(alloc);
    for i in 0..reached.len() {
        let (mv, depth) = reached.at(i);
        if depth >= least {
            let class = place_class(mv);
            let mv = mv.copy(alloc)?;
            ranked.push(Ranked {
                tier,
                depth,
                class,
                mv,
            })?;
        }
    }
    Ok(ranked)
}

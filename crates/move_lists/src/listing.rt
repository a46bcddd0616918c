//! The list of moves at a configuration.
ghost use Rattle.std.specs.Prelude.{◌≡◌, ◌+◌, ◌≤◌, [], IfOk, OnOk};
ghost use Rattle.move_core.specs.Contexts.{IsNamed, IsValidIn, rulebook};
ghost use Rattle.move_core.specs.Listed.{AreListed};
ghost use Rattle.move_lists.specs.Firsts.{AreFirstsOf};
ghost use Rattle.move_lists.specs.Parts.{AreListedIn, part_count};
ghost use Rattle.move_lists.specs.Questions.{AreFirstsIn, CanAsk};
ghost use Rattle.move_lists.specs.Ranking.{AddsPart, AreExtended, AreInOrder, AreSorted, AreToPart, HasFirsts, IsInPart, IsReachFor, IsReachOf, chosen_moves};
ghost use Rattle.move_lists.specs.Reaches.{AreNoted};
ghost use Rattle.move_lists.specs.declared.asking.Question.{Question as Asked};
ghost use Rattle.move_lists.specs.declared.ranking.Choice.TheVariants.{Early, Late, Other};

use crate::asking::Question;
use crate::firsts::{First, Firsts, first_moves};
use crate::offers::offered_moves;
use crate::ranking::{Choice, chosen_moves, rank_alone, rank_reached};
use crate::reaches::{Reach, reach_from, reach_within};
use conf_doc::Config;
use host_core::{Memory, Sequence};
use move_core::{Boxes, Ctx, Kit, Move, Moves, Ranked};
use std::alloc::Global;

/// The tier of an extended chain from a remove or a replace that isn't restoring, and of any other.
const EXTENDED: u8 = 2;

const OTHER: u8 = 4;

/// The least number of extensions in the last part of tier 2.
const MANY: usize = 4;

/// How many parts there are.
const PARTS: u8 = 7;

/// All listed moves at a configuration towards goal, each once, in the order of the list.
pub fn listed(
    alloc: Global,
    ctx: &Ctx,
    kit: &mut Kit,
    start: &Config,
    cur: &Config,
    goal: &Config,
) -> Result<Moves, Memory>
    requires kinds { ⟦<Kit as Boxes>⟧.HasKinds kit.old }
    requires named { IsNamed ctx.now }
    requires cur { IsValidIn ctx.now cur.now }
    requires goal { IsValidIn ctx.now goal.now }
    ensures kinds { ⟦<Kit as Boxes>⟧.HasKinds kit.new }
    ensures rules { kit.new.rules ≡ kit.old.rules }
    ensures listed { IfOk result (AreListed (rulebook ctx.now) start.now cur.now goal.now) }
{
    let offers = offered_moves(alloc, ctx, kit, start, cur, goal)?;
    let firsts = first_moves(alloc, ctx, start, cur, goal, offers)?;
    let question = Question {
        ctx,
        start,
        cur,
        goal,
    };
    let mut moves = Vec::new(alloc);
    let added = add_parts(alloc, &question, kit, firsts.items(), &mut moves);
    drop(firsts);
    match added {
        Ok(()) => Ok(Sequence::from_vec(moves)),
        Err(failed) => {
            drop(moves);
            Err(failed)
        }
    }
}

/// Adds the moves of each part.
fn add_parts(
    alloc: Global,
    question: &Question<'_>,
    kit: &mut Kit,
    firsts: &[First],
    moves: &mut Vec<Move>,
) -> Result<(), Memory>
    requires kinds { ⟦<Kit as Boxes>⟧.HasKinds kit.old }
    requires asked { CanAsk question.now }
    requires firsts { AreFirstsIn question.now firsts.now }
    requires none { moves.old.items ≡ [] }
    ensures kinds { ⟦<Kit as Boxes>⟧.HasKinds kit.new }
    ensures rules { kit.new.rules ≡ kit.old.rules }
    ensures added { OnOk result (AreToPart question.now part_count moves.new.items) }
{
    for done in 0..PARTS {
        add_part(alloc, question, kit, firsts, done + 1, moves)?;
    }
    Ok(())
}

/// Adds the moves of a part.
fn add_part(
    alloc: Global,
    question: &Question<'_>,
    kit: &mut Kit,
    firsts: &[First],
    part: u8,
    moves: &mut Vec<Move>,
) -> Result<(), Memory>
    requires kinds { ⟦<Kit as Boxes>⟧.HasKinds kit.old }
    requires asked { CanAsk question.now }
    requires firsts { AreFirstsIn question.now firsts.now }
    requires low { 1 ≤ part }
    requires high { part ≤ 7 }
    ensures kinds { ⟦<Kit as Boxes>⟧.HasKinds kit.new }
    ensures rules { kit.new.rules ≡ kit.old.rules }
    ensures added { OnOk result (AddsPart question.now part moves.old.items moves.new.items) }
{
    let mut more = list_part(alloc, question, kit, firsts, part)?;
    let added = moves.append(&mut more);
    drop(more);
    added?;
    Ok(())
}

/// The listed moves whose least rank lies in a part, each once, in the order of the list, where firsts are the
/// generated moves there. For part 1 no extender is asked, and for parts 2 to 4 none about a move with as many
/// extensions as the part has. No generator is asked.
pub fn listed_in_part(
    alloc: Global,
    ctx: &Ctx,
    kit: &mut Kit,
    start: &Config,
    cur: &Config,
    goal: &Config,
    firsts: &Firsts,
    part: u8,
) -> Result<Vec<Move>, Memory>
    requires kinds { ⟦<Kit as Boxes>⟧.HasKinds kit.old }
    requires named { IsNamed ctx.now }
    requires cur { IsValidIn ctx.now cur.now }
    requires goal { IsValidIn ctx.now goal.now }
    requires firsts { AreFirstsOf (rulebook ctx.now) start.now cur.now goal.now firsts.now }
    requires low { 1 ≤ part }
    requires high { part ≤ 7 }
    ensures kinds { ⟦<Kit as Boxes>⟧.HasKinds kit.new }
    ensures rules { kit.new.rules ≡ kit.old.rules }
    ensures listed { IfOk result
        (λ ms. AreListedIn (rulebook ctx.now) start.now cur.now goal.now part ms.items) }
{
    let question = Question {
        ctx,
        start,
        cur,
        goal,
    };
    list_part(alloc, &question, kit, firsts.items(), part)
}

/// The moves of a part.
fn list_part(
    alloc: Global,
    question: &Question<'_>,
    kit: &mut Kit,
    firsts: &[First],
    part: u8,
) -> Result<Vec<Move>, Memory>
    requires kinds { ⟦<Kit as Boxes>⟧.HasKinds kit.old }
    requires asked { CanAsk question.now }
    requires firsts { AreFirstsIn question.now firsts.now }
    requires low { 1 ≤ part }
    requires high { part ≤ 7 }
    ensures kinds { ⟦<Kit as Boxes>⟧.HasKinds kit.new }
    ensures rules { kit.new.rules ≡ kit.old.rules }
    ensures listed { IfOk result (λ ms. IsInPart question.now part ms.items) }
{
    match part {
        1 => list_alone(alloc, firsts),
        2..=4 => list_extended(alloc, question, kit, firsts, part as usize - 1),
        5 => list_far_extended(alloc, question, kit, firsts),
        6 => list_restoring(alloc, question, kit, firsts),
        _ => list_others(alloc, question, kit, firsts),
    }
}

/// Part 1: the generated moves that aren't restoring.
fn list_alone(alloc: Global, firsts: &[First]) -> Result<Vec<Move>, Memory>
    ensures { (q : Asked) → AreFirstsIn q firsts.now
        → IfOk result (λ ms. IsInPart q 1 ms.items) }
{
    let ranked = rank_alone(alloc, firsts, false)?;
    let none = Reach::new(alloc);
    let listed = in_order(alloc, &none, ranked);
    drop(none);
    listed
}

/// Parts 2 to 4: what one, two or three extensions reach from those that are a remove or a replace, without
/// what fewer reach.
fn list_extended(
    alloc: Global,
    question: &Question<'_>,
    kit: &mut Kit,
    firsts: &[First],
    extensions: usize,
) -> Result<Vec<Move>, Memory>
    requires kinds { ⟦<Kit as Boxes>⟧.HasKinds kit.old }
    requires asked { CanAsk question.now }
    requires firsts { AreFirstsIn question.now firsts.now }
    requires some { 1 ≤ extensions }
    requires few { extensions ≤ 3 }
    ensures kinds { ⟦<Kit as Boxes>⟧.HasKinds kit.new }
    ensures rules { kit.new.rules ≡ kit.old.rules }
    ensures listed { IfOk result (λ ms. IsInPart question.now (1 + extensions) ms.items) }
{
    let early = chosen_moves(alloc, firsts, Choice::Early)?;
    let early = reach_within(alloc, question, kit, early, extensions)?;
    let listed = list_early(alloc, firsts, &early, extensions);
    drop(early);
    listed
}

/// Part 5: what more extensions reach from them, without what fewer reach.
fn list_far_extended(
    alloc: Global,
    question: &Question<'_>,
    kit: &mut Kit,
    firsts: &[First],
) -> Result<Vec<Move>, Memory>
    requires kinds { ⟦<Kit as Boxes>⟧.HasKinds kit.old }
    requires asked { CanAsk question.now }
    requires firsts { AreFirstsIn question.now firsts.now }
    ensures kinds { ⟦<Kit as Boxes>⟧.HasKinds kit.new }
    ensures rules { kit.new.rules ≡ kit.old.rules }
    ensures listed { IfOk result (λ ms. IsInPart question.now 5 ms.items) }
{
    let early = early_reach(alloc, question, kit, firsts)?;
    let listed = list_early(alloc, firsts, &early, MANY);
    drop(early);
    listed
}

/// What was reached from them by so many extensions or more, without what fewer reach and without the generated
/// moves that aren't restoring.
fn list_early(
    alloc: Global,
    firsts: &[First],
    early: &Reach,
    extensions: usize,
) -> Result<Vec<Move>, Memory>
    requires some { 1 ≤ extensions }
    requires few { extensions ≤ 4 }
    ensures { (q : Asked) → AreFirstsIn q firsts.now
        → IsReachFor q extensions (chosen_moves Early firsts.now) early.now
        → IfOk result (λ ms. IsInPart q (1 + extensions) ms.items) }
{
    let mut known = Reach::new(alloc);
    match note_chosen(alloc, firsts, Choice::Other, &mut known) {
        Ok(()) => {
            let listed = order_reached(alloc, &known, early, EXTENDED, extensions);
            drop(known);
            listed
        }
        Err(failed) => {
            drop(known);
            Err(failed)
        }
    }
}

/// Part 6: the generated moves that are restoring, without those of the lesser parts.
fn list_restoring(
    alloc: Global,
    question: &Question<'_>,
    kit: &mut Kit,
    firsts: &[First],
) -> Result<Vec<Move>, Memory>
    requires kinds { ⟦<Kit as Boxes>⟧.HasKinds kit.old }
    requires asked { CanAsk question.now }
    requires firsts { AreFirstsIn question.now firsts.now }
    ensures kinds { ⟦<Kit as Boxes>⟧.HasKinds kit.new }
    ensures rules { kit.new.rules ≡ kit.old.rules }
    ensures listed { IfOk result (λ ms. IsInPart question.now 6 ms.items) }
{
    let mut known = early_reach(alloc, question, kit, firsts)?;
    let listed = list_new_restoring(alloc, firsts, &mut known);
    drop(known);
    listed
}

/// The generated moves that are restoring, without what is known and without the others.
fn list_new_restoring(
    alloc: Global,
    firsts: &[First],
    known: &mut Reach,
) -> Result<Vec<Move>, Memory>
    ensures { (q : Asked) → AreFirstsIn q firsts.now
        → IsReachOf q [] (chosen_moves Early firsts.now) known.old
        → IfOk result (λ ms. IsInPart q 6 ms.items) }
{
    note_chosen(alloc, firsts, Choice::Other, known)?;
    let ranked = rank_alone(alloc, firsts, true)?;
    in_order(alloc, known, ranked)
}

/// Part 7: what extensions reach from the other generated moves, without those of the lesser parts.
fn list_others(
    alloc: Global,
    question: &Question<'_>,
    kit: &mut Kit,
    firsts: &[First],
) -> Result<Vec<Move>, Memory>
    requires kinds { ⟦<Kit as Boxes>⟧.HasKinds kit.old }
    requires asked { CanAsk question.now }
    requires firsts { AreFirstsIn question.now firsts.now }
    ensures kinds { ⟦<Kit as Boxes>⟧.HasKinds kit.new }
    ensures rules { kit.new.rules ≡ kit.old.rules }
    ensures listed { IfOk result (λ ms. IsInPart question.now 7 ms.items) }
{
    let mut known = early_reach(alloc, question, kit, firsts)?;
    let listed = list_late(alloc, question, kit, firsts, &mut known);
    drop(known);
    listed
}

/// What extensions reach from the other generated moves, without what is known and without the generated moves.
fn list_late(
    alloc: Global,
    question: &Question<'_>,
    kit: &mut Kit,
    firsts: &[First],
    known: &mut Reach,
) -> Result<Vec<Move>, Memory>
    requires kinds { ⟦<Kit as Boxes>⟧.HasKinds kit.old }
    requires asked { CanAsk question.now }
    requires firsts { AreFirstsIn question.now firsts.now }
    requires known { IsReachOf question.now [] (chosen_moves Early firsts.now) known.old }
    ensures kinds { ⟦<Kit as Boxes>⟧.HasKinds kit.new }
    ensures rules { kit.new.rules ≡ kit.old.rules }
    ensures listed { IfOk result (λ ms. IsInPart question.now 7 ms.items) }
{
    let late = chosen_moves(alloc, firsts, Choice::Late)?;
    let late = reach_from(alloc, question, kit, known, late)?;
    let listed = list_new_late(alloc, firsts, &late, known);
    drop(late);
    listed
}

/// The moves that were reached, without what is known and without the generated moves.
fn list_new_late(
    alloc: Global,
    firsts: &[First],
    late: &Reach,
    known: &mut Reach,
) -> Result<Vec<Move>, Memory>
    ensures { (q : Asked) → AreFirstsIn q firsts.now
        → IsReachOf q [] (chosen_moves Early firsts.now) known.old
        → IsReachOf q known.old (chosen_moves Late firsts.now) late.now
        → IfOk result (λ ms. IsInPart q 7 ms.items) }
{
    note_chosen(alloc, firsts, Choice::Other, known)?;
    note_chosen(alloc, firsts, Choice::Restoring, known)?;
    order_reached(alloc, known, late, OTHER, 1)
}

/// What extensions reach from the generated moves whose extended chains have the lesser tier.
fn early_reach(
    alloc: Global,
    question: &Question<'_>,
    kit: &mut Kit,
    firsts: &[First],
) -> Result<Reach, Memory>
    requires kinds { ⟦<Kit as Boxes>⟧.HasKinds kit.old }
    requires asked { CanAsk question.now }
    requires firsts { AreFirstsIn question.now firsts.now }
    ensures kinds { ⟦<Kit as Boxes>⟧.HasKinds kit.new }
    ensures rules { kit.new.rules ≡ kit.old.rules }
    ensures reached { IfOk result (IsReachOf question.now [] (chosen_moves Early firsts.now)) }
{
    let early = chosen_moves(alloc, firsts, Choice::Early)?;
    let none = Reach::new(alloc);
    let reached = reach_from(alloc, question, kit, &none, early);
    drop(none);
    reached
}

/// Notes those of the generated moves that are chosen.
fn note_chosen(
    alloc: Global,
    firsts: &[First],
    choice: Choice,
    known: &mut Reach,
) -> Result<(), Memory>
    ensures { OnOk result (AreNoted [] known.old known.new (chosen_moves choice firsts.now) 0) }
{
    let moves = chosen_moves(alloc, firsts, choice)?;
    let none = Reach::new(alloc);
    let noted = known.note_all(&none, moves, 0);
    drop(none);
    noted
}

/// The moves that were reached by so many extensions or more, in the order of the list, those that are known left
/// out.
fn order_reached(
    alloc: Global,
    known: &Reach,
    reached: &Reach,
    tier: u8,
    least: usize,
) -> Result<Vec<Move>, Memory>
    ensures { IfOk result (λ ms. AreExtended known.now reached.now tier least ms.items) }
{
    let ranked = rank_reached(alloc, reached, tier, least)?;
    in_order(alloc, known, ranked)
}

/// The moves of chains in the order of the list, each once, those that are known left out.
fn in_order(alloc: Global, known: &Reach, ranked: Vec<Ranked>) -> Result<Vec<Move>, Memory>
    ensures { IfOk result (λ ms. AreInOrder known.now ranked.items ms.items) }
{
    let mut ranked = ranked;
    match ranked.sort() {
        Ok(()) => first_of_each(alloc, known, ranked),
        Err(failed) => {
            drop(ranked);
            Err(Memory::from(failed))
        }
    }
}

/// The first of each move among sorted chains, those that are known left out.
fn first_of_each(alloc: Global, known: &Reach, ranked: Vec<Ranked>) -> Result<Vec<Move>, Memory>
    requires { AreSorted ranked.items }
    ensures { IfOk result (λ ms. HasFirsts known.now ranked.items ms.items) }
{
    let mut seen = Reach::with_capacity(alloc, ranked.len())?;
    for chain in ranked {
        seen.note(known, chain.mv, chain.depth)?;
    }
    seen.into_moves(alloc)
}

//! The search: depth first over the lists of moves, with no configuration expanded twice.
ghost use Rattle.std.specs.Prelude.{◌≡◌, ◌+◌, ◌<◌, ◌≤◌, [], ◌∷◌, ◌++◌, length, reverse, Err, IfErr, IfOk, OnOk, MatchOption, MatchResult, IfNone};
ghost use Rattle.std.specs.List.{Contains};
ghost use Rattle.plan_search.specs.Answers.{IsAnswer};
ghost use Rattle.plan_search.specs.Problems.{part_count};
ghost use Rattle.plan_search.specs.Searching.{AreAsked, AreMet, IsFound, IsPassed, IsStillUnderWay, IsTrying, IsUnderWay, LeadsToNew, weight};
ghost use Rattle.plan_search.specs.Stacks.{AtTop, IsKept, IsSpent, OfTop, configs_of, new_spot, spots, taken};

use crate::expanding::{Expanding, PART_COUNT};
use crate::hashed::Hashed;
use crate::met_set::Met;
use crate::stacks::Stack;
use crate::{SearchError, Steps};
use host_core::{Memory, Sequence};
use move_core::{Move, Plan};
use move_lists::{Firsts, Offers};
use std::alloc::Global;
use std::mem;
use std::sync::ledger::Ledger;

/// What the moves that are left lead to.
#[derive(Drop)]
enum Found {
    /// A move leads to goal.
    Goal(Move),
    /// A move leads to a configuration that wasn't met.
    New(Move, Hashed),
    /// No move is left.
    Nothing,
}

/// What was made for the parts of the list at the stack's last configuration.
#[derive(Drop)]
enum Kept {
    /// Nothing.
    Nothing,
    /// What the first part is made from.
    Offers(Offers),
    /// What the later parts are made from.
    Firsts(Firsts),
}

/// What a move at the stack's last configuration leads to, or None where it leads nowhere new. A new
/// configuration is met.
fn try_one<S: Expanding>(
    alloc: Global,
    source: &S,
    kit: &mut S::Kit,
    met: &mut Met,
    stack: &Stack,
    mv: Move,
) -> Result<Option<Found>, Memory>
    requires ready { S.is_ready source.now kit.old }
    requires trying { IsTrying (S.problem source.now) met.old
        (spots stack.now) (taken stack.now) mv }
    ensures ready { S.is_ready source.now kit.new }
    ensures found { IfOk result (λ found. MatchOption found
        (IsStillUnderWay (S.problem source.now) met.old met.new (spots stack.now) (taken stack.now))
        (IsFound (S.problem source.now) met.old met.new (spots stack.now) (taken stack.now))) }
{
    let top = stack.hashed_top();
    let next = match source.try_move(alloc, kit, top.config(), &mv)? {
        None => return Ok(None),
        Some(next) => next,
    };
    let hashed = top.after(next, &mv);
    if hashed.same(source.goal()) {
        return Ok(Some(Found::Goal(mv)));
    }
    if met.insert(hashed.copy(alloc)?)? {
        Ok(Some(Found::New(mv, hashed)))
    } else {
        Ok(None)
    }
}

/// Takes the moves of a part until one leads to goal or to a configuration that wasn't met.
fn try_rest<S: Expanding>(
    alloc: Global,
    source: &S,
    kit: &mut S::Kit,
    met: &mut Met,
    stack: &mut Stack,
) -> Result<Option<Found>, Memory>
    requires ready { S.is_ready source.now kit.old }
    requires way { IsUnderWay (S.problem source.now) met.old (spots stack.old) (taken stack.old) }
    requires some { 0 < length (spots stack.old) }
    ensures ready { S.is_ready source.now kit.new }
    ensures found { IfOk result (λ found. MatchOption found
        (IsStillUnderWay (S.problem source.now) met.old met.new (spots stack.new) (taken stack.new))
        (IsFound (S.problem source.now) met.old met.new (spots stack.new) (taken stack.new))) }
    ensures spent { IfOk result (λ found. IfNone found (IsSpent (spots stack.new))) }
    ensures parts { weight (spots stack.new) ≡ weight (spots stack.old) }
    ensures configs { configs_of (spots stack.new) ≡ configs_of (spots stack.old) }
{
    while let Some(mv) = stack.take_at_top() {
        if let Some(found) = try_one(alloc, source, kit, met, stack, mv)? {
            return Ok(Some(found));
        }
    }
    Ok(None)
}

/// What the first part at the last configuration is made from.
fn offers_at_top<S: Expanding>(
    alloc: Global,
    source: &S,
    kit: &mut S::Kit,
    stack: &Stack,
) -> Result<Offers, Memory>
    requires ready { S.is_ready source.now kit.old }
    requires asked { AreAsked (S.problem source.now) (spots stack.now) }
    requires some { 0 < length (spots stack.now) }
    ensures ready { S.is_ready source.now kit.new }
    ensures offers { IfOk result (AtTop (S.are_offers source.now) (spots stack.now)) }
{
    source.offers(alloc, kit, stack.top())
}

/// What the later parts there are made from, told from what the first one is made from.
fn firsts_from<S: Expanding>(
    alloc: Global,
    source: &S,
    stack: &Stack,
    offers: Offers,
) -> Result<Firsts, Memory>
    requires some { 0 < length (spots stack.now) }
    requires offers { AtTop (S.are_offers source.now) (spots stack.now) offers }
    ensures firsts { IfOk result (AtTop (S.are_firsts source.now) (spots stack.now)) }
{
    source.firsts(alloc, stack.top(), offers)
}

/// What the later parts there are made from: kept, or made from what is kept, or made anew.
fn firsts_at_top<S: Expanding>(
    alloc: Global,
    source: &S,
    kit: &mut S::Kit,
    stack: &Stack,
    kept: Kept,
) -> Result<Firsts, Memory>
    requires ready { S.is_ready source.now kit.old }
    requires asked { AreAsked (S.problem source.now) (spots stack.now) }
    requires some { 0 < length (spots stack.now) }
    requires kept { IsKept (S.are_offers source.now) (S.are_firsts source.now)
        (spots stack.now) kept }
    ensures ready { S.is_ready source.now kit.new }
    ensures firsts { IfOk result (AtTop (S.are_firsts source.now) (spots stack.now)) }
{
    match kept {
        Kept::Nothing => {
            let offers = offers_at_top(alloc, source, kit, stack)?;
            firsts_from(alloc, source, stack, offers)
        }
        Kept::Offers(offers) => firsts_from(alloc, source, stack, offers),
        Kept::Firsts(firsts) => Ok(firsts),
    }
}

/// Makes the first part of the last configuration's list: the move that the list begins with. What it is made from is
/// the result.
fn lead<S: Expanding>(
    alloc: Global,
    source: &S,
    kit: &mut S::Kit,
    stack: &mut Stack,
) -> Result<Offers, Memory>
    requires ready { S.is_ready source.now kit.old }
    requires asked { AreAsked (S.problem source.now) (spots stack.old) }
    requires some { 0 < length (spots stack.old) }
    requires none { OfTop (λ s. s.parts ≡ 0) (spots stack.old) }
    ensures ready { S.is_ready source.now kit.new }
    ensures passed { OnOk result (IsPassed (S.problem source.now)
        (spots stack.old) (taken stack.old) (spots stack.new) (taken stack.new)) }
    ensures nearer { OnOk result (weight (spots stack.new) < weight (spots stack.old)) }
    ensures offers { IfOk result (AtTop (S.are_offers source.now) (spots stack.new)) }
{
    let offers = offers_at_top(alloc, source, kit, stack)?;
    let moves = source.leading(alloc, stack.top(), &offers)?;
    stack.refill(moves);
    Ok(offers)
}

/// Makes the part of it that follows that many, at least one. What the later parts are made from is the result.
fn make_part<S: Expanding>(
    alloc: Global,
    source: &S,
    kit: &mut S::Kit,
    stack: &mut Stack,
    part: u8,
    kept: Kept,
) -> Result<Firsts, Memory>
    requires ready { S.is_ready source.now kit.old }
    requires asked { AreAsked (S.problem source.now) (spots stack.old) }
    requires some { 0 < length (spots stack.old) }
    requires parts { OfTop (λ s. s.parts ≡ part) (spots stack.old) }
    requires later { 0 < part }
    requires more { part < part_count }
    requires kept { IsKept (S.are_offers source.now) (S.are_firsts source.now)
        (spots stack.old) kept }
    ensures ready { S.is_ready source.now kit.new }
    ensures passed { OnOk result (IsPassed (S.problem source.now)
        (spots stack.old) (taken stack.old) (spots stack.new) (taken stack.new)) }
    ensures nearer { OnOk result (weight (spots stack.new) < weight (spots stack.old)) }
    ensures firsts { IfOk result (AtTop (S.are_firsts source.now) (spots stack.new)) }
{
    let firsts = firsts_at_top(alloc, source, kit, stack, kept)?;
    let moves = source.list(alloc, kit, stack.top(), &firsts, part)?;
    stack.refill(moves);
    Ok(firsts)
}

/// Makes one more part of the last configuration's list, or drops the configuration where all are made. What
/// its parts are made from is kept while it is the last.
fn pass_on<S: Expanding>(
    alloc: Global,
    source: &S,
    kit: &mut S::Kit,
    stack: &mut Stack,
    kept: &mut Kept,
) -> Result<(), Memory>
    requires ready { S.is_ready source.now kit.old }
    requires asked { AreAsked (S.problem source.now) (spots stack.old) }
    requires some { 0 < length (spots stack.old) }
    requires kept { IsKept (S.are_offers source.now) (S.are_firsts source.now)
        (spots stack.old) kept.old }
    ensures ready { S.is_ready source.now kit.new }
    ensures passed { OnOk result (IsPassed (S.problem source.now)
        (spots stack.old) (taken stack.old) (spots stack.new) (taken stack.new)) }
    ensures nearer { OnOk result (weight (spots stack.new) < weight (spots stack.old)) }
    ensures kept { IsKept (S.are_offers source.now) (S.are_firsts source.now)
        (spots stack.new) kept.new }
{
    let parts = stack.parts();
    let old = mem::replace(kept, Kept::Nothing);
    if parts == 0 {
        *kept = Kept::Offers(lead(alloc, source, kit, stack)?);
    } else if parts < PART_COUNT {
        *kept = Kept::Firsts(make_part(alloc, source, kit, stack, parts, old)?);
    } else {
        stack.drop_top();
    }
    Ok(())
}

/// Takes moves until one leads to goal or to a configuration that wasn't met.
fn find_new<S: Expanding>(
    alloc: Global,
    source: &S,
    kit: &mut S::Kit,
    met: &mut Met,
    stack: &mut Stack,
) -> Result<Found, Memory>
    requires ready { S.is_ready source.now kit.old }
    requires way { IsUnderWay (S.problem source.now) met.old (spots stack.old) (taken stack.old) }
    ensures ready { S.is_ready source.now kit.new }
    ensures found { IfOk result
        (IsFound (S.problem source.now) met.old met.new (spots stack.new) (taken stack.new)) }
{
    let mut kept = Kept::Nothing;
    while !stack.is_empty() {
        match try_rest(alloc, source, kit, met, stack)? {
            Some(found) => return Ok(found),
            None => pass_on(alloc, source, kit, stack, &mut kept)?,
        }
    }
    Ok(Found::Nothing)
}

/// Expands a configuration: it is put on the stack.
fn expand<L: Ledger>(
    alloc: Global,
    stack: &mut Stack,
    mv: Move,
    next: Hashed,
    steps: &mut Steps<L>,
) -> Result<(), Memory>
    ensures spots { OnOk result (spots stack.new ≡ new_spot next ∷ spots stack.old) }
    ensures taken { OnOk result (taken stack.new ≡ mv ∷ taken stack.old) }
    ensures steps { steps.new ≡ steps.old + 1 }
{
    steps.tick();
    stack.follow(mv)?;
    stack.push(alloc, next)
}

/// The main loop: goes on from what was met until there is an answer.
#[tactic(none)]
fn go_on<S: Expanding, L: Ledger>(
    alloc: Global,
    source: &S,
    kit: &mut S::Kit,
    budget: u32,
    met: Met,
    stack: Stack,
    steps: &mut Steps<L>,
) -> Result<Plan, SearchError>
    requires ready { S.is_ready source.now kit.old }
    requires met { AreMet (S.problem source.now) met }
    requires way { IsUnderWay (S.problem source.now) met (spots stack) (taken stack) }
    requires below { length met < budget }
    ensures ready { S.is_ready source.now kit.new }
    ensures answer { IsAnswer (S.problem source.now) budget result }
    ensures steps { steps.new + length met < steps.old + budget }
{
    let mut met = met;
    let mut stack = stack;
    loop {
        match find_new(alloc, source, kit, &mut met, &mut stack) {
            Err(_) => return Err(SearchError::Memory),
            Ok(Found::Nothing) => return Err(SearchError::Unorderable),
            Ok(Found::Goal(mv)) => return whole(stack, mv),
            Ok(Found::New(mv, next)) => {
                if met.len() == budget as usize {
                    return Err(SearchError::Budget(budget));
                }
                match expand(alloc, &mut stack, mv, next, steps) {
                    Ok(()) => {}
                    Err(_) => return Err(SearchError::Memory),
                }
            }
        }
    }
}

/// The moves that were taken, and one more.
fn whole(stack: Stack, last: Move) -> Result<Plan, SearchError>
    ensures { MatchResult result
        (λ plan. plan ≡ reverse (last ∷ taken stack)) (λ e. e ≡ SearchError.Memory) }
{
    match stack.into_plan(last) {
        Ok(plan) => Ok(plan),
        Err(_) => Err(SearchError::Memory),
    }
}

/// Meets start, and puts it on a new stack.
fn begin<S: Expanding, L: Ledger>(
    alloc: Global,
    source: &S,
    met: &mut Met,
    stack: &mut Stack,
    steps: &mut Steps<L>,
) -> Result<(), Memory>
    requires met { met.old ≡ [] }
    requires stack { spots stack.old ≡ [] }
    ensures met { OnOk result (met.new ≡ (S.problem source.now).start ∷ []) }
    ensures spots { OnOk result (spots stack.new ≡ new_spot (S.problem source.now).start ∷ []) }
    ensures taken { taken stack.new ≡ taken stack.old }
    ensures steps { steps.new ≡ steps.old + 1 }
{
    steps.tick();
    let start = Hashed::new(source.start().copy(alloc)?);
    met.insert(start.copy(alloc)?)?;
    stack.push(alloc, start)
}

/// The first list of allowed moves from start to goal.
#[tactic(none)]
pub(crate) fn find_plan<S: Expanding, L: Ledger>(
    alloc: Global,
    source: &S,
    kit: &mut S::Kit,
    budget: u32,
    steps: &mut Steps<L>,
) -> Result<Plan, SearchError>
    requires ready { S.is_ready source.now kit.old }
    requires fit { (S.problem source.now).IsFit (S.problem source.now).start }
    requires budget { 0 < budget }
    ensures ready { S.is_ready source.now kit.new }
    ensures answer { IsAnswer (S.problem source.now) budget result }
    ensures steps { steps.new < steps.old + budget }
{
    if source.start().same(source.goal().config()) {
        return Ok(Sequence::new(alloc));
    }
    if budget == 1 {
        return Err(SearchError::Budget(budget));
    }
    let mut met = Met::new(alloc);
    let mut stack = Stack::new(alloc);
    match begin(alloc, source, &mut met, &mut stack, steps) {
        Ok(()) => go_on(alloc, source, kit, budget, met, stack, steps),
        Err(_) => Err(SearchError::Memory),
    }
}

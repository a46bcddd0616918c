//! Moves with the number of extensions by which each was reached first.
ghost use Rattle.std.specs.Prelude.{◌≡◌, ◌↔◌, ◌<◌, ◌≤◌, ◌^◌, [], length, map, slice_get, Some, OnOk, IfOk, IsTrue, All};
ghost use Rattle.move_lists.specs.Questions.{CanAsk};
ghost use Rattle.move_lists.specs.Reaches.{AreNoted, AreOnce, CanSpread, HasBelow, HoldsAll, HoldsWithin, IsClosed, IsOfferedMove, IsLedTo, IsNoted, IsSpread, IsSpreadBefore, SharesAbove};

use crate::asking::{Question, extended_moves};
use crate::move_keys::MoveKey;
use crate::places_above::is_same_above;
use host_core::Memory;
use indexmap::IndexMap;
use move_core::{Boxes, Kit, Move, listed_moves_are_defined};
use std::alloc::Global;
use std::marker::Model;

/// How many moves before one are looked at for the same place above: the extensions of a field's move come side
/// by side, the place above, the delete and a required value.
const LOOK_BACK: usize = 3;

/// Moves in the order in which they were reached. Contracts see the list of pairs of a move and its number
/// of extensions.
#[derive(Drop)]
pub(crate) struct Reach {
    depths: IndexMap<MoveKey, usize>,
}

impl Model for Reach {
    ghost use Rattle.std.specs.Prelude.{List, ℕ};
    ghost use Rattle.move_core.specs.declared.moves.Move.{Move as Change};

    ghost Value = { List (Change × ℕ) };

    ghost view = { λ r. r.depths.entries };
}

impl Reach {
    /// None, which take no memory.
    pub(crate) fn new(alloc: Global) -> Reach
        ensures { result ≡ [] }
    {
        Reach {
            depths: IndexMap::new(alloc),
        }
    }

    /// None, with room for so many.
    pub(crate) fn with_capacity(alloc: Global, capacity: usize) -> Result<Reach, Memory>
        ensures { IfOk result (λ r. r ≡ []) }
    {
        let depths = IndexMap::with_capacity(alloc, capacity)?;
        Ok(Reach { depths })
    }

    /// How many there are.
    pub(crate) fn len(&self) -> usize
        ensures len { result ≡ length self.now }
        ensures small { result < 2 ^ 63 }
        ensures once { AreOnce self.now }
    {
        self.depths.len()
    }

    /// The move at an index, and its number of extensions.
    pub(crate) fn at(&self, i: usize) -> (&Move, usize)
        requires { i < length self.now }
        ensures { slice_get self.now i ≡ Some (result.0.now, result.1) }
    {
        match self.depths.get_index(i) {
            Some((key, depth)) => (&key.mv, *depth),
            None => unreachable!(),
        }
    }

    /// Whether a move with fewer extensions stands at an index.
    fn is_below(&self, i: usize, limit: usize) -> bool
        ensures below { IsTrue result ↔ HasBelow self.now i limit }
        ensures small { IsTrue result → i < 2 ^ 63 }
    {
        if i >= self.len() {
            return false;
        }
        let (_, depth) = self.at(i);
        depth < limit
    }

    /// The moves in order.
    pub(crate) fn into_moves(self, alloc: Global) -> Result<Vec<Move>, Memory>
        ensures { IfOk result (λ ms. ms.items ≡ map (λ e. e.0) self) }
    {
        let mut moves = Vec::with_capacity(alloc, self.depths.len())?;
        for (key, _) in self.depths {
            moves.push(key.mv)?;
        }
        Ok(moves)
    }

    /// Adds a move, unless it is there or in `beside`.
    pub(crate) fn note(&mut self, beside: &Reach, mv: Move, depth: usize) -> Result<(), Memory>
        ensures { OnOk result (IsNoted beside.now self.old self.new mv depth) }
    {
        let key = MoveKey { mv };
        if beside.depths.contains_key(&key) || self.depths.contains_key(&key) {
            return Ok(());
        }
        self.depths.insert(key, depth)?;
        Ok(())
    }

    /// Adds those moves that are neither there nor in `beside`.
    pub(crate) fn note_all(
        &mut self,
        beside: &Reach,
        moves: Vec<Move>,
        depth: usize,
    ) -> Result<(), Memory>
        ensures { OnOk result (AreNoted beside.now self.old self.new moves.items depth) }
    {
        for mv in moves {
            self.note(beside, mv, depth)?;
        }
        Ok(())
    }

    /// Whether the move at an index and one before it have the same place above.
    fn shares_above_of(&self, k: usize, i: usize) -> bool
        requires before { k < i }
        requires within { i < length self.now }
        ensures { IsTrue result → SharesAbove self.now i }
    {
        let (before, _) = self.at(k);
        let (mv, _) = self.at(i);
        is_same_above(before, mv)
    }

    /// Whether the move at an index has the same place above as one of the few before it.
    fn shares_above(&self, i: usize) -> bool
        requires { i < length self.now }
        ensures { IsTrue result → SharesAbove self.now i }
    {
        for k in i.saturating_sub(LOOK_BACK)..i {
            if self.shares_above_of(k, i) {
                return true;
            }
        }
        false
    }

    /// Adds the extensions of the move at an index. Those of the moves before it are known, so what the place
    /// above becomes isn't made again where one of the few before it shares it.
    fn spread(
        &mut self,
        alloc: Global,
        question: &Question<'_>,
        kit: &mut Kit,
        beside: &Reach,
        i: usize,
    ) -> Result<(), Memory>
        requires kinds { ⟦<Kit as Boxes>⟧.HasKinds kit.old }
        requires asked { CanAsk question.now }
        requires ready { CanSpread question.now self.old i }
        requires before { IsSpreadBefore question.now beside.now self.old i }
        ensures kinds { ⟦<Kit as Boxes>⟧.HasKinds kit.new }
        ensures rules { kit.new.rules ≡ kit.old.rules }
        ensures spread { OnOk result (IsSpread question.now beside.now self.old self.new i) }
    {
        let is_above_known = self.shares_above(i);
        let (mv, depth) = self.at(i);
        let moves = extended_moves(alloc, question, kit, mv, is_above_known)?;
        self.note_all(beside, moves, depth + 1)
    }
}

/// All that some moves lead to, without those in `beside` and what these lead to.
pub(crate) fn reach_from(
    alloc: Global,
    question: &Question<'_>,
    kit: &mut Kit,
    beside: &Reach,
    first: Vec<Move>,
) -> Result<Reach, Memory>
    requires kinds { ⟦<Kit as Boxes>⟧.HasKinds kit.old }
    requires asked { CanAsk question.now }
    requires first { All (IsOfferedMove question.now) first.items }
    requires closed { IsClosed question.now beside.now }
    ensures kinds { ⟦<Kit as Boxes>⟧.HasKinds kit.new }
    ensures rules { kit.new.rules ≡ kit.old.rules }
    ensures each { IfOk result (λ r. All (IsLedTo question.now first.items) r) }
    ensures all { IfOk result (λ r. HoldsAll question.now beside.now first.items r) }
{
    listed_moves_are_defined();
    let _tables = question.cur.len();
    let mut reached = Reach::new(alloc);
    reached.note_all(beside, first, 0)?;
    let mut i = 0;
    while i < reached.len() {
        reached.spread(alloc, question, kit, beside, i)?;
        i += 1;
    }
    Ok(reached)
}

/// What no more extensions than a limit lead to from some moves.
pub(crate) fn reach_within(
    alloc: Global,
    question: &Question<'_>,
    kit: &mut Kit,
    first: Vec<Move>,
    limit: usize,
) -> Result<Reach, Memory>
    requires kinds { ⟦<Kit as Boxes>⟧.HasKinds kit.old }
    requires asked { CanAsk question.now }
    requires first { All (IsOfferedMove question.now) first.items }
    ensures kinds { ⟦<Kit as Boxes>⟧.HasKinds kit.new }
    ensures rules { kit.new.rules ≡ kit.old.rules }
    ensures each { IfOk result (λ r. All (IsLedTo question.now first.items) r) }
    ensures few { IfOk result (λ r. All (λ e. e.1 ≤ limit) r) }
    ensures all { IfOk result (λ r. HoldsWithin question.now limit first.items r) }
{
    listed_moves_are_defined();
    let _tables = question.cur.len();
    let none = Reach::new(alloc);
    let mut reached = Reach::new(alloc);
    reached.note_all(&none, first, 0)?;
    let mut i = 0;
    while reached.is_below(i, limit) {
        reached.spread(alloc, question, kit, &none, i)?;
        i += 1;
    }
    Ok(reached)
}

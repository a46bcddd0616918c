//! The stack of a search: the configurations on the way to the last one, each with the moves that are
//! left to try there, and the moves that were taken between them.
ghost use Rattle.std.specs.Prelude.{◌≡◌, ◌↔◌, ◌<◌, [], ◌∷◌, reverse, length, IfOk, IsTrue, OnOk};
ghost use Rattle.plan_search.specs.Problems.{part_count};
ghost use Rattle.plan_search.specs.Stacks.{HasMore, IsAfterTop, IsTop, OfTop, but_first, new_spot, spots, taken};

use crate::hashed::Hashed;
use conf_doc::Config;
use host_core::{Memory, Sequence};
use move_core::{Move, Plan};
use std::alloc::Global;

/// A configuration, how many parts of its list were made, and the moves of the last one that are left to
/// try, the next one last.
#[derive(Drop)]
struct Frame {
    config: Hashed,
    parts: u8,
    rest: Vec<Move>,
}

/// Configurations with a move between each and the next.
#[derive(Drop)]
pub(crate) struct Stack {
    frames: Vec<Frame>,
    moves: Vec<Move>,
}

impl Stack {
    /// Nothing, which takes no memory.
    pub(crate) fn new(alloc: Global) -> Stack
        ensures spots { spots result ≡ [] }
        ensures taken { taken result ≡ [] }
    {
        Stack {
            frames: Vec::new(alloc),
            moves: Vec::new(alloc),
        }
    }

    /// Whether there is no configuration.
    pub(crate) fn is_empty(&self) -> bool
        ensures { IsTrue result ↔ (spots self.now ≡ []) }
    {
        self.frames.is_empty()
    }

    /// The last configuration.
    pub(crate) fn top(&self) -> &Config
        requires { 0 < length (spots self.now) }
        ensures { IsTop (spots self.now) result.now }
    {
        self.frames[self.frames.len() - 1].config.config()
    }

    /// The same with its hash.
    pub(crate) fn hashed_top(&self) -> &Hashed
        requires { 0 < length (spots self.now) }
        ensures { IsTop (spots self.now) result.now }
    {
        &self.frames[self.frames.len() - 1].config
    }

    /// How many parts of its list were made.
    pub(crate) fn parts(&self) -> u8
        requires { 0 < length (spots self.now) }
        ensures { OfTop (λ s. s.parts ≡ result) (spots self.now) }
    {
        self.frames[self.frames.len() - 1].parts
    }

    /// Adds a configuration at which nothing was asked.
    pub(crate) fn push(&mut self, alloc: Global, config: Hashed) -> Result<(), Memory>
        ensures spots { OnOk result (spots self.new ≡ new_spot config ∷ spots self.old) }
        ensures taken { taken self.new ≡ taken self.old }
    {
        self.frames.push(Frame {
            config,
            parts: 0,
            rest: Vec::new(alloc),
        })?;
        Ok(())
    }

    /// Adds a move that was taken.
    pub(crate) fn follow(&mut self, mv: Move) -> Result<(), Memory>
        ensures spots { spots self.new ≡ spots self.old }
        ensures taken { OnOk result (taken self.new ≡ mv ∷ taken self.old) }
    {
        self.moves.push(mv)?;
        Ok(())
    }

    /// Takes the next move of the last configuration.
    pub(crate) fn take_at_top(&mut self) -> Option<Move>
        requires { 0 < length (spots self.old) }
        ensures spots { IsAfterTop (spots self.old) (spots self.new) result }
        ensures taken { taken self.new ≡ taken self.old }
    {
        let last = self.frames.len() - 1;
        self.frames[last].rest.pop()
    }

    /// Gives the last configuration, which has no move left, the moves of one more part, in order.
    pub(crate) fn refill(&mut self, moves: Vec<Move>)
        requires { OfTop (λ s. s.parts < part_count) (spots self.old) }
        ensures spots { HasMore (spots self.old) (spots self.new) moves.items }
        ensures taken { taken self.new ≡ taken self.old }
    {
        let mut rest = moves;
        rest.reverse();
        let last = self.frames.len() - 1;
        let frame = &mut self.frames[last];
        frame.parts += 1;
        frame.rest = rest;
    }

    /// Drops the last configuration and the move that led to it.
    pub(crate) fn drop_top(&mut self)
        ensures spots { spots self.new ≡ but_first (spots self.old) }
        ensures taken { taken self.new ≡ but_first (taken self.old) }
    {
        self.frames.pop();
        self.moves.pop();
    }

    /// The moves that were taken, and one more.
    pub(crate) fn into_plan(self, last: Move) -> Result<Plan, Memory>
        ensures { IfOk result (λ plan. plan ≡ reverse (last ∷ taken self)) }
    {
        let Stack { frames, moves } = self;
        drop(frames);
        let mut moves = moves;
        moves.push(last)?;
        Ok(Sequence::from_vec(moves))
    }
}

//! A session: its goal, and the plan that leads there.
ghost use Rattle.std.specs.Prelude.{◌≡◌, ◌<◌, ◌∷◌, List, length, IfNone, IfOk, IfSome};
ghost use Rattle.move_core.specs.declared.moves.Move.{Move as Step};
ghost use Rattle.sessions.specs.Named.{after_move};

use conf_doc::Config;
use host_core::Memory;
use move_core::{Move, Plan};
use std::alloc::Global;
use std::marker::Model;

/// A session with the whole plan that it got, and how many of its moves are committed. Contracts see the moves
/// that are left.
#[derive(Drop)]
pub(crate) struct LiveSession {
    goal: Config,
    seen: usize,
    plan: Plan,
    committed: usize,
}

impl Model for LiveSession {
    ghost use Rattle.std.specs.Prelude.{◌≤◌, drop, length};
    ghost use Rattle.sessions.specs.Worlds.{Session};

    ghost Value = { Session };

    ghost view = { λ s.
        record { goal = s.goal; seen = s.seen; rest = drop s.committed s.plan } };

    ghost invariant = { λ s. s.committed ≤ length s.plan };
}

impl LiveSession {
    /// A session that has seen so many commits. Its goal shares what it can.
    pub(crate) fn new(
        alloc: Global,
        goal: &Config,
        seen: usize,
        plan: Plan,
    ) -> Result<LiveSession, Memory>
        ensures { IfOk result (λ s. s ≡ record { goal = goal.now; seen = seen; rest = plan }) }
    {
        Ok(LiveSession {
            goal: goal.copy(alloc)?,
            seen,
            plan,
            committed: 0,
        })
    }

    /// What it aims at.
    pub(crate) fn goal(&self) -> &Config
        ensures { result.now ≡ self.now.goal }
    {
        &self.goal
    }

    /// How many commits it has seen.
    pub(crate) fn seen(&self) -> usize
        ensures { result ≡ self.now.seen }
    {
        self.seen
    }

    /// The first move that is left.
    pub(crate) fn next_move(&self) -> Option<&Move>
        ensures some { IfSome result (λ m. (rest : List Step) × (self.now.rest ≡ m.now ∷ rest)) }
        ensures none { IfNone result (length self.now.rest ≡ 0) }
    {
        if self.committed < self.plan.len() {
            Some(self.plan.at(self.committed))
        } else {
            None
        }
    }

    /// Goes on to the next move, and has seen so many commits then.
    pub(crate) fn advance(&mut self, seen: usize)
        requires { 0 < length self.old.rest }
        ensures { self.new ≡ after_move seen self.old }
    {
        let _count = self.plan.len();
        self.seen = seen;
        self.committed += 1;
    }
}

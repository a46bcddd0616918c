//! The world of several operators: one configuration, the commits that led to it, and the sessions.
ghost use Rattle.std.specs.Prelude.{◌≡◌, ◌↔◌, drop, length, IfOk, IfSome, IsNone, IsSome, IsSomeAnd, IsTrue, OnErr, OnOk};
ghost use Rattle.move_core.specs.Contexts.{IsValidIn, rulebook};
ghost use Rattle.move_core.specs.Plans.{IsPlan};
ghost use Rattle.sessions.specs.Named.{IsNextOf};
ghost use Rattle.sessions.specs.Turns.{Begin, End, IsTurn, Retarget, Step, Towards, with_aim, with_commit, without_session};
ghost use Rattle.sessions.specs.Worlds.{IsKept, opened, session_of};

use crate::named_sessions::NamedSessions;
use crate::session::LiveSession;
use crate::{Commit, Commits, Reply};
use conf_doc::Config;
use host_core::{Memory, Txt};
use move_core::{Ctx, Move, Plan, listed_moves_are_defined, step};
use std::alloc::Global;
use std::marker::Model;

/// A configuration that sessions change by turns, each on its own plan. Contracts see the models and settings, the
/// configuration at the opening and the one now, the commits between them, and the sessions by their names.
#[derive(Drop)]
pub struct World {
    ctx: Ctx,
    opening: Config,
    config: Config,
    commits: Commits,
    sessions: NamedSessions,
}

impl Model for World {
    ghost use Rattle.std.specs.Coded.{codes};
    ghost use Rattle.std.specs.FinMap.{code};
    ghost use Rattle.yang_model.specs.ShapeCodes.{coded_models};
    ghost use Rattle.sessions.specs.Worlds.{IsKept, WorldState};

    ghost Value = { WorldState };

    ghost coded = { Prim.hlevel (codes, code, coded_models) };

    ghost use Rattle.sessions.specs.States.{state_of};

    ghost view = { state_of };

    ghost invariant = { λ w. IsKept (state_of w) };
}

impl World {
    /// A world at its opening, with no commits and no sessions.
    pub fn new(alloc: Global, ctx: Ctx, config: &Config) -> Result<World, Memory>
        requires { IsValidIn ctx config.now }
        ensures opened { IfOk result (λ w. w ≡ opened ctx config.now) }
        ensures kept { IfOk result IsKept }
    {
        let opening = config.copy(alloc)?;
        let config = config.copy(alloc)?;
        Ok(World {
            ctx,
            opening,
            config,
            commits: Commits::new(alloc),
            sessions: NamedSessions::new(alloc),
        })
    }

    /// The models and settings that plans and moves are judged by.
    pub fn ctx(&self) -> &Ctx
        ensures ctx { result.now ≡ self.now.ctx }
        ensures kept { IsKept self.now }
    {
        &self.ctx
    }

    /// The configuration at the opening.
    pub fn opening(&self) -> &Config
        ensures opening { result.now ≡ self.now.opening }
        ensures kept { IsKept self.now }
    {
        &self.opening
    }

    /// The configuration now.
    pub fn config(&self) -> &Config
        ensures config { result.now ≡ self.now.config }
        ensures valid { IsValidIn self.now.ctx self.now.config }
        ensures kept { IsKept self.now }
    {
        &self.config
    }

    /// All commits, the first one first.
    pub fn commits(&self) -> &Commits
        ensures commits { result.now ≡ self.now.commits }
        ensures kept { IsKept self.now }
    {
        &self.commits
    }

    /// Whether a session of that name is there.
    pub fn knows(&self, name: &str) -> bool
        ensures knows { IsTrue result ↔ IsSome (session_of name.now self.now) }
        ensures kept { IsKept self.now }
    {
        self.sessions.knows(name)
    }

    /// Begins a session, which has seen all commits so far. It answers `Began`.
    pub fn begin(
        &mut self,
        alloc: Global,
        name: &str,
        goal: &Config,
        plan: Plan,
    ) -> Result<Reply, Memory>
        requires plan { IsPlan (rulebook self.old.ctx) self.old.config goal.now plan }
        requires absent { IsNone (session_of name.now self.old) }
        ensures turn { IfOk result (λ reply.
            IsTurn self.old (Begin name.now (Towards goal.now plan)) reply self.new) }
        ensures err { OnErr result (self.new ≡ self.old) }
        ensures ctx { self.new.ctx ≡ self.old.ctx }
        ensures kept { IsKept self.new }
    {
        let count = plan.len();
        self.aim(alloc, name, goal, plan)?;
        Ok(Reply::Began { count })
    }

    /// Commits the next move of a session's plan. It answers `Moved` where others have committed since, else
    /// `Idle` where no move is left, else `Applied`. Goals, moves and configurations share their parts, so it costs
    /// what the change costs.
    pub fn step(&mut self, alloc: Global, name: &str) -> Result<Reply, Memory>
        requires { IsSome (session_of name.now self.old) }
        ensures turn { IfOk result (λ reply. IsTurn self.old (Step name.now) reply self.new) }
        ensures err { OnErr result (self.new ≡ self.old) }
        ensures ctx { self.new.ctx ≡ self.old.ctx }
        ensures kept { IsKept self.new }
    {
        let now = self.commits.len();
        let session = self.sessions.at(name);
        let seen = session.seen();
        if seen < now {
            return Ok(Reply::Moved { seen, now });
        }
        let Some(mv) = session.next_move() else {
            return Ok(Reply::Idle);
        };
        let commit = Commit {
            name: Txt::new(alloc, name)?,
            goal: session.goal().copy(alloc)?,
            mv: mv.copy(alloc)?,
        };
        let mv = mv.copy(alloc)?;
        self.commit(alloc, name, commit)?;
        Ok(Reply::Applied { mv })
    }

    /// Gives a session another goal and plan; it has then seen all commits. It answers `Retargeted`.
    pub fn retarget(
        &mut self,
        alloc: Global,
        name: &str,
        goal: &Config,
        plan: Plan,
    ) -> Result<Reply, Memory>
        requires plan { IsPlan (rulebook self.old.ctx) self.old.config goal.now plan }
        requires there { IsSome (session_of name.now self.old) }
        ensures turn { IfOk result (λ reply.
            IsTurn self.old (Retarget name.now (Towards goal.now plan)) reply self.new) }
        ensures err { OnErr result (self.new ≡ self.old) }
        ensures ctx { self.new.ctx ≡ self.old.ctx }
        ensures kept { IsKept self.new }
    {
        let count = plan.len();
        self.aim(alloc, name, goal, plan)?;
        Ok(Reply::Retargeted { count })
    }

    /// Ends a session. It answers `Ended`, done where the configuration is the session's goal, and takes no memory.
    pub fn end(&mut self, name: &str) -> Reply
        requires { IsSome (session_of name.now self.old) }
        ensures turn { IsTurn self.old (End name.now) result self.new }
        ensures ctx { self.new.ctx ≡ self.old.ctx }
        ensures kept { IsKept self.new }
    {
        let session = self.sessions.at(name);
        let done = session.goal().same(&self.config);
        self.leave(name);
        Reply::Ended { done }
    }

    /// Takes the session of a name out.
    fn leave(&mut self, name: &str)
        requires { IsSome (session_of name.now self.old) }
        ensures after { self.new ≡ without_session self.old name.now }
        ensures kept { IsKept self.new }
    {
        drop(self.sessions.take(name));
    }

    /// Has the session of a name aim at a goal by a plan, with all commits seen.
    fn aim(&mut self, alloc: Global, name: &str, goal: &Config, plan: Plan) -> Result<(), Memory>
        requires { IsPlan (rulebook self.old.ctx) self.old.config goal.now plan }
        ensures ok { OnOk result (self.new ≡ with_aim self.old name.now goal.now plan) }
        ensures err { OnErr result (self.new ≡ self.old) }
        ensures ctx { self.new.ctx ≡ self.old.ctx }
        ensures kept { IsKept self.new }
    {
        let seen = self.commits.len();
        let session = LiveSession::new(alloc, goal, seen, plan)?;
        let name = Txt::new(alloc, name)?;
        self.sessions.put(name, session)?;
        Ok(())
    }

    /// Makes a commit: the next move of a session that has seen all others.
    fn commit(&mut self, alloc: Global, name: &str, commit: Commit) -> Result<(), Memory>
        requires named { commit.name ≡ name.now }
        requires next { IsSomeAnd (session_of name.now self.old)
            (IsNextOf commit (length self.old.commits)) }
        ensures ok { OnOk result (IfSome (session_of name.now self.old) (λ s.
            self.new ≡ with_commit self.old name.now s.goal commit.mv (drop 1 s.rest))) }
        ensures err { OnErr result (self.new ≡ self.old) }
        ensures ctx { self.new.ctx ≡ self.old.ctx }
        ensures kept { IsKept self.new }
    {
        listed_moves_are_defined();
        let _tables = self.config.len();
        let config = step(alloc, &self.config, &commit.mv)?;
        self.commits.push(commit)?;
        self.config = config;
        self.sessions.advance(name, self.commits.len());
        Ok(())
    }
}

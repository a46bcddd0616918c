//! Sessions by their names.
ghost use Rattle.std.specs.Prelude.{◌≡◌, ◌↔◌, ◌<◌, length, IfSome, IsSome, IsSomeAnd, IsTrue, OnErr, OnOk, Some};
ghost use Rattle.std.specs.FinMap as finmap;
ghost use Rattle.sessions.specs.Named.{after_move};
ghost use Rattle.sessions.specs.Worlds.{Session};

use crate::session::LiveSession;
use host_core::{Memory, Txt};
use std::alloc::Global;
use std::collections::BTreeMap;
use std::marker::Model;

/// Sessions, each with its name.
#[derive(Drop)]
pub(crate) struct NamedSessions {
    entries: BTreeMap<String, LiveSession>,
}

impl Model for NamedSessions {
    ghost use Rattle.std.specs.Coded.{codes};
    ghost use Rattle.std.specs.FinMap.{code};
    ghost use Rattle.sessions.specs.Worlds.{Sessions};

    ghost Value = { Sessions };

    ghost coded = { Prim.hlevel (codes, code) };

    ghost use Rattle.sessions.specs.Named.{sessions_in};

    ghost view = { λ n. sessions_in n.entries.entries };
}

impl NamedSessions {
    /// None, which takes no memory.
    pub(crate) fn new(alloc: Global) -> NamedSessions
        ensures { result ≡ finmap.empty }
    {
        NamedSessions {
            entries: BTreeMap::new(alloc),
        }
    }

    /// Whether there is a session of that name.
    pub(crate) fn knows(&self, name: &str) -> bool
        ensures { IsTrue result ↔ IsSome (finmap.get self.now name.now) }
    {
        self.entries.get(name).is_some()
    }

    /// The session of a name.
    pub(crate) fn at(&self, name: &str) -> &LiveSession
        requires { IsSome (finmap.get self.now name.now) }
        ensures { finmap.get self.now name.now ≡ Some result.now }
    {
        match self.entries.get(name) {
            Some(session) => session,
            None => unreachable!(),
        }
    }

    /// Puts a session at a name, in the place of one that is there.
    pub(crate) fn put(&mut self, name: Txt, session: LiveSession) -> Result<(), Memory>
        ensures ok { OnOk result (self.new ≡ finmap.insert self.old name session) }
        ensures err { OnErr result (self.new ≡ self.old) }
    {
        let _ = self.entries.insert(name.into_string(), session)?;
        Ok(())
    }

    /// Has a session go on to its next move, with so many commits seen then.
    pub(crate) fn advance(&mut self, name: &str, seen: usize)
        requires { IsSomeAnd (finmap.get self.old name.now) (λ s. 0 < length s.rest) }
        ensures { IfSome (finmap.get self.old name.now)
            (λ s. self.new ≡ finmap.insert self.old name.now (after_move seen s)) }
    {
        match self.entries.get_mut(name) {
            Some(session) => session.advance(seen),
            None => unreachable!(),
        }
    }

    /// Takes the session of a name out.
    pub(crate) fn take(&mut self, name: &str) -> LiveSession
        requires { IsSome (finmap.get self.old name.now) }
        ensures session { finmap.get self.old name.now ≡ Some result }
        ensures after { self.new ≡ finmap.remove self.old name.now }
    {
        match self.entries.remove(name) {
            Some(session) => session,
            None => unreachable!(),
        }
    }
}

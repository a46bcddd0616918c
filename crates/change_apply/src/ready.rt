//! A change whose every byte is there before anything is written.
ghost use Rattle.std.specs.Prelude.{◌≡◌, ◌≤◌};
ghost use Rattle.conf_store.specs.Files.{last_step};
ghost use Rattle.change_apply.specs.Change.{steps as steps_of};

use conf_store::Stored;
use host_core::{Sequence, Txt};
use move_core::Move;
use std::marker::Model;

/// The restart of a service after a step.
#[derive(Drop)]
pub struct Restart {
    /// The position of the service in the rules file, counted from 0.
    pub service: usize,
    pub name: Txt,
}

/// A step, with the bytes that it writes and prints.
#[derive(Drop)]
pub(crate) struct ReadyStep {
    pub(crate) mv: Move,
    /// The name of its file.
    pub(crate) file: Txt,
    pub(crate) bytes: Vec<u8>,
    pub(crate) restarts: Sequence<Restart>,
    /// Its acknowledgement.
    pub(crate) line: Txt,
}

/// All steps, and the configurations that are folded before the first and behind the last.
#[derive(Drop)]
pub(crate) struct Work {
    pub(crate) stored: Stored,
    pub(crate) stored_text: Vec<u8>,
    pub(crate) steps: Sequence<ReadyStep>,
    pub(crate) goal: Stored,
    pub(crate) goal_text: Vec<u8>,
}

/// A change made ready by `prepare`. Contracts see what was loaded, the moves and the restarts after each.
#[derive(Drop)]
pub struct Ready {
    pub(crate) work: Work,
}

impl Model for Ready {
    ghost use Rattle.change_apply.specs.Change.{Change};
    ghost use Rattle.change_apply.specs.Work.{IsReady, change_in};

    ghost Value = { Change };

    ghost view = { λ r. change_in r.work };

    ghost invariant = { λ r. IsReady r.work };
}

impl Ready {
    /// How many steps it has.
    pub fn steps(&self) -> usize
        ensures steps { result ≡ steps_of self.now }
        ensures few { result ≤ last_step }
    {
        self.work.steps.len()
    }
}

//! Commits: what sessions have changed.
use conf_doc::Config;
use host_core::{Sequence, Txt};
use move_core::Move;

/// A move that a session has committed: the session's name, its goal at that time, and the move.
#[derive(Drop)]
pub struct Commit {
    pub name: Txt,
    pub goal: Config,
    pub mv: Move,
}

/// Commits in order.
pub type Commits = Sequence<Commit>;

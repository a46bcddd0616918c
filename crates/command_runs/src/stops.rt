//! A command that is run to its end or stopped, and what is noted of it.
use host_core::{Faults, Names, Pick, Sequence, Txt};

/// A command, which of its calls fail, and the crash that follows it, if any. A stop at a call is the
/// number of that call in `from`, with a pick.
#[derive(Drop)]
pub struct Stop {
    /// The words of the command.
    pub words: Names,
    /// Which of its calls fail, numbered from 0.
    pub faults: Faults,
    /// The image that a crash behind it leaves. Without a pick the next command begins on the host as it
    /// is.
    pub pick: Option<Pick>,
}

/// Files as they read, each with its name.
pub type Entries = Sequence<(Txt, Sequence<u8>)>;

/// What is noted of a command.
#[derive(Drop)]
pub struct Ran {
    /// Its exit status.
    pub status: u8,
    /// The files as they read when it began, each once, in the order of their names.
    pub before: Entries,
    /// What it appended to the output.
    pub output: Sequence<u8>,
    /// How many calls of the host it made, up to the greatest `u64`.
    pub calls: u64,
    /// How often a call that has no answer for want of memory found none, or 1 where that count of the
    /// host is at the greatest `u64`.
    pub starved: u64,
}

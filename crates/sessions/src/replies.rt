//! What an operator is told.
use move_core::Move;

/// What is told on an event.
#[derive(Drop)]
pub enum Reply {
    /// The session has begun. How many moves its plan has.
    Began { count: usize },
    /// A session that is to begin is there already.
    Exists,
    /// There is no such session.
    Unknown,
    /// The patch is refused, with the number of the refusal.
    Refused { number: u8 },
    /// There are commits that the session hasn't seen. How many it has seen, and how many there are.
    Moved { seen: usize, now: usize },
    /// The session has no move left.
    Idle,
    /// The move that is committed.
    Applied { mv: Move },
    /// The session has another goal. How many moves its new plan has.
    Retargeted { count: usize },
    /// The session has ended, and whether the configuration is its goal.
    Ended { done: bool },
}

//! Several operators on one configuration: each commits the moves of a plan of its own, and is told where another
//! one has changed something meanwhile.
#![tactic(auto)]

mod commits;
mod laws;
mod named_sessions;
mod replies;
mod session;
mod worlds;

pub use commits::{Commit, Commits};
pub use laws::{
    commits_are_of_steps, configurations_are_valid, done_is_at_the_goal, refusals_are_turns,
    runs_go_on, runs_keep_worlds,
};
pub use replies::Reply;
pub use worlds::World;

//! The rules that moves are judged by, each a box of its kind.
#![tactic(auto)]

mod create_only;
mod full;
mod no_dependency;
mod no_empty;
mod required;

pub use create_only::CreateOnlyRule;
pub use full::FullRule;
pub use no_dependency::NoDependencyRule;
pub use no_empty::NoEmptyRule;
pub use required::RequiredRule;

//! The rule that each step leads to a valid configuration, as a box that looks again only at what changed.
#![tactic(auto)]

mod agreements;
mod alone;
mod changes;
mod kept;
mod losses;
mod musts;
mod rechecks;
mod rule;
mod verdicts;
mod walks;

pub use rule::RecheckRule;

//! What a move may be followed by: the four extenders, each a box of its kind.
#![tactic(auto)]

mod changes;
mod delete;
mod found;
mod kept_keys;
mod key_lengths;
mod mentions;
mod referrers;
mod referring;
mod required;
mod required_values;
mod upper;

pub use delete::DeleteExt;
pub use referrers::ReferrersExt;
pub use required::RequiredExt;
pub use upper::UpperExt;

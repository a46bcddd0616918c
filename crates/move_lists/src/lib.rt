//! The list of moves at a configuration, part by part.
#![tactic(auto)]

mod agreeing;
mod asking;
mod firsts;
mod laws;
mod listing;
mod move_keys;
mod offers;
mod places_above;
mod ranking;
mod reaches;

pub use firsts::{Firsts, first_moves};
pub use laws::{lists_are_one, lists_exist, moves_are_finite, parts_make_the_list};
pub use listing::{listed, listed_in_part};
pub use offers::{Offers, leading_move, offered_moves};

//! Examples of moves and their order, of lists, and of what boxes give, answer and are asked, row by row.
#![tactic(auto)]

mod asking;
mod boxes;
mod counted;
mod counts;
mod inputs;
mod kits;
mod move_texts;
mod ranks;
mod rechecks;
mod situations;

use asking::Asked;
use example_rows::{Fail, tell_all};

/// The tables, each with what its rows ask.
const TABLES: [(&str, Asked); 5] = [
    ("orders.json", Asked::Order),
    ("boxes.json", Asked::Boxes),
    ("item_boxes.json", Asked::Boxes),
    ("rechecks.json", Asked::Recheck),
    ("counts.json", Asked::Count),
];

fn main(rt: HostRuntime) -> Result<(), Fail> {
    tell_all(&rt, "inputs.json", &TABLES)
}

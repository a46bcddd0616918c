//! Examples of calls that no command shows, asked row by row: YANG texts and expressions, the host in memory with what a
//! crash leaves of it, and the working folder and the command line, where the system may fail.
#![tactic(auto)]

mod acts;
mod answers;
mod asking;
mod calls;
mod expressions;
mod faults;
mod files;
mod hosts;
mod pairs;
mod preparing;
mod reads;
mod real_calls;
mod small_trees;
mod system;
mod texts;
mod views;
mod word_lists;

use asking::Asked;
use example_rows::{Fail, tell_all};

/// The tables, each with what its rows ask.
const TABLES: [(&str, Asked); 8] = [
    ("texts.json", Asked::Text),
    ("expressions.json", Asked::Expression),
    ("truths.json", Asked::Truth),
    ("calls.json", Asked::Act),
    ("views.json", Asked::Act),
    ("reads.json", Asked::Read),
    ("words.json", Asked::Words),
    ("real_calls.json", Asked::RealCalls),
];

fn main(rt: HostRuntime) -> Result<(), Fail> {
    tell_all(&rt, "tree.json", &TABLES)
}

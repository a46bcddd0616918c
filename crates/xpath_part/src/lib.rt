//! XPath 1.0 in a profile: expressions as values, how a text spells one, and what one says over nodes.
#![tactic(auto)]

mod comparisons;
mod detours;
mod errors;
mod expressions;
mod following;
mod laws;
mod lexing;
mod nesting;
mod nodes;
mod origins;
mod phases;
mod reading;
mod sought;
mod stacks;
mod symbols;
mod truths;
mod words;

pub use comparisons::Cmp;
pub use errors::ExprError;
pub use expressions::{Branch, Expr, Operand, Step, Steps, Tests, Walk};
pub use laws::{read_is_spelled, spelled_is_read};
pub use nodes::{Node, Nodes};
pub use origins::Origin;
pub use truths::holds;

//! The musts of YANG models (RFC 7950, section 7.5.3, in a profile): what is wrong with their
//! expressions and paths, and what each is as a value.
#![tactic(auto)]

mod aims;
mod findings;
mod laws;
mod model_tree;
mod must_faults;
mod must_values;
mod name_sets;
mod name_tables;
mod nodes;
mod prefixes;
mod routes;
mod spots;

pub use laws::reader_reads;
pub use model_tree::ModelTree;
pub use must_faults::note_musts;
pub use must_values::{MustValue, must_of};
pub use nodes::{ContainerNode, ShapeNode, TableNode};
pub use spots::SpotRef;

//! JSON Patch (RFC 6902) and JSON Pointer (RFC 6901) over trees of texts, lists and maps.
#![tactic(auto)]

mod elements;
mod errors;
mod gaps;
mod indexes;
mod laws;
mod limits;
mod node_edits;
mod operations;
mod patches;
mod path_edits;
mod pointers;
mod reading;
mod walks;
mod weights;
mod writing;

pub use errors::{ApplyError, FailWhy, PatchError, PatchWhy, PointerError};
pub use laws::{patch_of_elements, patch_reads_back, same_is_equality, tokens_of_pointer};
pub use operations::Op;
pub use patches::{Patch, apply, apply_owned, apply_plain, apply_plain_owned};
pub use pointers::{Pointer, read_pointer};
pub use reading::read_patch;
pub use writing::{operation_bytes, operation_tree, step_bytes};

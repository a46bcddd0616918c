//! The types of YANG models as values (RFC 7950, sections 7.3 and 9, in a profile), and the faults of
//! types beyond their names.
#![tactic(auto)]

mod bound_faults;
mod circles;
mod defaults;
mod endings;
mod endless;
mod laws;
mod named_types;
mod numbers;
mod parts;
mod place_lists;
mod restrictions;
mod sameness;
mod statements;
mod targets;
mod type_values;
mod values;
mod walks;

pub use bound_faults::note_bad_bounds;
pub use endings::{Endings, note_if_circle};
pub use endless::note_default;
pub use laws::{circles_are_decided, types_are_stored_flat};
pub use type_values::type_value;

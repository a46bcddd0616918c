//! What can be wrong with a step of a plan.

/// What is wrong with a step: the first that applies.
#[derive(Clone, Copy, Debug, PartialEq, Eq)]
pub enum NoWhy {
    /// The move isn't defined at the configuration before it.
    NotDefined,
    /// It isn't listed there.
    NotListed,
    /// It leaves the configuration as it is.
    Same,
    /// The next configuration isn't valid.
    Rule1,
    /// A want at the move's place or below it is without what it wants, before or after.
    Rule2,
    /// A table is left without keys.
    Rule3,
    /// A create-only field changes.
    Rule4,
    /// A requiring place changes without the required value.
    Rule5,
    /// The last configuration isn't goal.
    WrongEnd,
}

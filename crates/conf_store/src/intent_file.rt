//! The file of a change under way.

/// While a change is under way this file holds the file text of the change's goal. What the folder stands for
/// doesn't depend on it.
pub const INTENT_FILE: &str = "intent";

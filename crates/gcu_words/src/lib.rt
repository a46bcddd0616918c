//! The words that a command is given: which command they are, where the goal of a plan comes from, the options,
//! the scope, and the lines of a script of operators.
#![tactic(auto)]

mod budgets;
mod demos;
mod digits;
mod errors;
mod form;
mod options;
mod reading;
mod scope_form;
mod scopes_form;
mod script_lines;
mod scripts;
mod sizes;
mod targets;
mod tasks;

pub use demos::Demo;
pub use errors::ScriptError;
pub use form::{Form, read_form};
pub use options::Options;
pub use reading::DEFAULT_BUDGET;
pub use scope_form::{ScopeForm, read_scope_form};
pub use scopes_form::{ScopesForm, read_scopes_form};
pub use script_lines::{Script, ScriptLine};
pub use scripts::read_script;
pub use targets::{Source, Target};
pub use tasks::Task;

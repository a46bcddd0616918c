//! What the words of a command and the files of the folder ask for: a request with all that it needs, or the
//! first refusal.
#![tactic(auto)]

mod aiming;
mod checking;
mod checkpoint_goal;
mod demo_planning;
mod empty_tables;
mod file_goal;
mod interruption;
mod judging;
mod laws;
mod patch_goal;
mod plan_checking;
mod plan_goal;
mod planning;
mod previewing;
mod scopes_planning;
mod session_patches;
mod session_preparing;
mod stored_tree;
mod tables_elsewhere;
mod task_names;
mod violation_fields;
mod violation_places;

pub use aiming::aim;
pub use checking::judge_stored;
pub use demo_planning::prepare_demo;
pub use interruption::{Status, read_status};
pub use laws::asked_has_one_answer;
pub use plan_checking::judge_plan;
pub use plan_goal::test_target;
pub use planning::{Planning, prepare};
pub use previewing::preview;
pub use scopes_planning::{Ends, ScopeEnds, ScopesPlanning, prepare_scopes, refuse_scope};
pub use session_patches::{Patches, patch_at};
pub use session_preparing::{Operating, prepare_script};
pub use task_names::test_task;

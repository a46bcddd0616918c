//! Rows of whole commands, each asked of the top call on a host in memory: one after the other in one folder, run to
//! their end, failing or stopped at a call.
#![tactic(auto)]

mod boxes;
mod ends;
mod folders;
mod stories;

use example_rows::{Fail, tell_all};
use stories::Stories;

/// The tables. All rows have one form, so that a table more is a line more.
const TABLES: [(&str, Stories); 34] = [
    ("named.json", Stories),
    ("documents.json", Stories),
    ("pointers.json", Stories),
    ("patches.json", Stories),
    ("places.json", Stories),
    ("stored.json", Stories),
    ("plans.json", Stories),
    ("plan_checks.json", Stories),
    ("plan_texts.json", Stories),
    ("resume.json", Stories),
    ("checkpoint_texts.json", Stories),
    ("checkpoints.json", Stories),
    ("scopes.json", Stories),
    ("splits.json", Stories),
    ("sessions.json", Stories),
    ("operators.json", Stories),
    ("validity.json", Stories),
    ("models.json", Stories),
    ("shapes.json", Stories),
    ("truths.json", Stories),
    ("patterns.json", Stories),
    ("types.json", Stories),
    ("rules.json", Stories),
    ("commands.json", Stories),
    ("changes.json", Stories),
    ("item_dry_runs.json", Stories),
    ("goal_plans.json", Stories),
    ("item_goal_plans.json", Stories),
    ("bad_inputs.json", Stories),
    ("cuts.json", Stories),
    ("histories.json", Stories),
    ("folds.json", Stories),
    ("sweeps.json", Stories),
    ("stops.json", Stories),
];

fn main(rt: HostRuntime) -> Result<(), Fail> {
    tell_all(&rt, "folders.json", &TABLES)
}

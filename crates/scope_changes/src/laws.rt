//! What holds of changes of several scopes.
ghost use Rattle.std.specs.Prelude.{◌<◌, ℕ, List};
ghost use Rattle.host_core.specs.State.{Files};
ghost use Rattle.change_apply.specs.Crashes.{KeepsOthers};
ghost use Rattle.scopes.specs.Scopes.{most_asics};
ghost use Rattle.scopes.specs.Views.{seen_files};
ghost use Rattle.scopes.specs.declared.scope.Scope.TheVariants.{Asic};
ghost use Rattle.scope_changes.specs.Works.{AreInOrder, KeepsOutside, KeepsPointsOfScopes, ScopeWork};

use checkpoints::points_are_in_their_files;
use scopes::{asics_have_files_of_their_own, localhost_has_files_of_its_own};

/// Where no files are changed but those that the changes of some scopes have to do with, each ASIC, named or
/// not, keeps the files that a change has nothing to do with, such as its checkpoints.
pub fn asics_keep_other_files()
    ensures { (works : List ScopeWork) (n : ℕ) (before after : Files)
        → AreInOrder works → n < most_asics → KeepsOutside works before after
        → KeepsOthers (seen_files (Asic n) before) (seen_files (Asic n) after) }
{
    asics_have_files_of_their_own();
    localhost_has_files_of_its_own();
}

/// Where no files are changed but those that the changes of some scopes have to do with, each scope, named or
/// not, keeps its checkpoints.
pub fn scopes_keep_points()
    ensures { (works : List ScopeWork) (before after : Files)
        → KeepsOutside works before after → KeepsPointsOfScopes before after }
{
    points_are_in_their_files();
}

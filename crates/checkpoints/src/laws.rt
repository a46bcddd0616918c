//! What holds of checkpoints.
ghost use Rattle.std.specs.Prelude.{◌≡◌, ◌≢◌, ℕ, List, true};
ghost use Rattle.std.specs.FinMap.{get};
ghost use Rattle.host_core.specs.State.{Files};
ghost use Rattle.conf_store.specs.Files.{intent_file};
ghost use Rattle.conf_store.specs.Folds.{IsOther};
ghost use Rattle.checkpoints.specs.Names.{is_good_name, point_file};
ghost use Rattle.checkpoints.specs.Points.{points};

/// What changes none of the files that a fold has nothing to do with, but `intent`, changes no checkpoint.
pub fn points_are_in_other_files()
    ensures { (before after : Files)
        → ((name : List ℕ) → IsOther name → name ≢ intent_file → get after name ≡ get before name)
        → points after ≡ points before }
{}

/// What changes no file of a checkpoint changes no checkpoint.
pub fn points_are_in_their_files()
    ensures { (before after : Files)
        → ((name : List ℕ) → is_good_name name ≡ true
        → get after (point_file name) ≡ get before (point_file name))
        → points after ≡ points before }
{}

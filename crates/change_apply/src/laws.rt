//! What holds of changes.
ghost use Rattle.std.specs.Prelude.{◌≡◌, ℕ, List, map, take};
ghost use Rattle.std.specs.FinMap.{get};
ghost use Rattle.host_core.specs.State.{Files};
ghost use Rattle.conf_store.specs.Files.{intent_file};
ghost use Rattle.conf_store.specs.Puts.{IsSame};
ghost use Rattle.conf_store.specs.declared.loaded.Stored.{Stored as Loaded};
ghost use Rattle.move_core.specs.Services.{services, services_of};
ghost use Rattle.move_core.specs.declared.moves.Move.{Move};
ghost use Rattle.move_core.specs.declared.settings.Settings.{Settings};
ghost use Rattle.change_apply.specs.Change.{change_of, restarted};

/// Where the services of each move are those that the rules file ties to its table, the services of the
/// first steps are those of the first moves.
pub fn restarts_are_services()
    ensures { (stored : Loaded) → (moves : List Move) → (settings : Settings) → (k : ℕ)
        → restarted (change_of stored moves (map (services_of settings) moves) settings) k
        ≡ services settings (take k moves) }
{}

/// Where nothing but the scratch file was written, `intent` is as it was.
pub fn intent_is_kept()
    ensures { (before after : Files) → IsSame before after
        → get after intent_file ≡ get before intent_file }
{}

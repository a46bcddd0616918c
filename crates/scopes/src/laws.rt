//! What holds of scopes.
ghost use Rattle.std.specs.Prelude.{◌≡◌, ◌≢◌, ◌↔◌, ◌<◌, ℕ, List, true, None};
ghost use Rattle.host_core.specs.Crashes.{Left, MayLeave};
ghost use Rattle.host_core.specs.State.{State};
ghost use Rattle.scopes.specs.Files.{file_name, is_of_host, plain_name};
ghost use Rattle.scopes.specs.Scopes.{most_asics};
ghost use Rattle.scopes.specs.Views.{IsSeen, seen};
ghost use Rattle.scopes.specs.declared.scope.Scope.{Scope as AnyScope};
ghost use Rattle.scopes.specs.declared.scope.Scope.TheVariants.{Localhost, Asic};

/// No file is that of two ASICs.
pub fn asics_have_files_of_their_own()
    ensures { (m n : ℕ) → m < most_asics → n < most_asics → m ≢ n → (plain : List ℕ)
        → plain_name (Asic m) (file_name (Asic n) plain) ≡ None }
{}

/// The files of the host are no ASIC's.
pub fn localhost_has_files_of_its_own()
    ensures { (n : ℕ) → n < most_asics → (name : List ℕ) → is_of_host name ≡ true
        → plain_name (Asic n) name ≡ None }
{}

/// The scope `localhost` shows the folder as it is.
pub fn localhost_shows_the_folder()
    ensures { (s : State) → seen Localhost s ≡ s }
{}

/// What a scope shows of what a crash may leave is what a crash may leave of what it shows.
pub fn images_are_seen()
    ensures { (scope : AnyScope) (s : State) (left : Left)
        → MayLeave (seen scope s) left ↔ IsSeen scope (MayLeave s) left }
{}

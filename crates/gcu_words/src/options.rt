//! The options of a command that plans.
ghost use Rattle.std.specs.Prelude.{◌<◌, ◌≤◌};
ghost use Rattle.gcu_words.specs.Options.{most_budget};

/// How a command plans.
#[derive(Clone, Copy)]
pub struct Options {
    /// The plan is only printed.
    pub dry_run: bool,
    /// How many configurations its search may meet.
    pub budget: u32,
    ghost some: { 0 < budget },
    ghost most: { budget ≤ most_budget },
}

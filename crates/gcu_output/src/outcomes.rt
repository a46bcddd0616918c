//! How a command ends.
ghost use Rattle.std.specs.Prelude.{◌≡◌};
ghost use Rattle.gcu_output.specs.Lines.{number};

use conf_check::RuleName;
use conf_store::StoredWhy;
use host_core::{Memory, Txt};
use move_core::RulesWhy;
use patch_core::{FailWhy, PatchWhy};
use plan_texts::NoWhy;
use yang_text::ModelWhy;

/// Why there is no such checkpoint.
#[derive(Clone, Copy, Debug, PartialEq, Eq)]
pub enum PointWhy {
    /// There is none of that name.
    Absent,
    /// Its file holds no configuration.
    NotConfig,
}

/// How a command ended. Its number is the program's exit status, and its last line ends the output.
#[derive(Debug, Drop)]
pub enum Outcome {
    /// The command did all it says.
    Done,
    /// There was no memory; nothing was done.
    Memory,
    /// The words are no command.
    Usage,
    /// The host counted an input fault.
    InputFault,
    /// The host counted a disk fault, after so many acknowledgements.
    DiskFault { step: usize },
    /// The host counted a print fault, after so many acknowledgements.
    PrintFault { step: usize },
    /// The host counted a service fault at the restart of that service, by its position in the rules file,
    /// counted from 0, after so many acknowledgements.
    ServiceFault { step: usize, service: usize },
    /// There is no such input.
    NoInput { path: Txt },
    /// The input has more bytes than the limit.
    TooBig { path: Txt, limit: u64 },
    /// The input is no JSON text.
    BadJson { path: Txt },
    /// The file of a configuration holds none: the first fault is at this place, an RFC 6901 pointer.
    BadConfig { path: Txt, place: Txt },
    /// The list of the files of models, or one of these files, isn't of its profile, on that line.
    BadModels { file: Txt, line: u32, why: ModelWhy },
    /// The rules file isn't of its form.
    BadRules { why: RulesWhy },
    /// An operation of the patch, counted from 0, is malformed.
    BadPatch { index: usize, why: PatchWhy },
    /// An operation of the patch, counted from 0, can't be applied.
    PatchFailed { index: usize, why: FailWhy },
    /// The patched configuration would have a wrong shape at this place, an RFC 6901 pointer.
    TargetShape { place: Txt },
    /// There is no such checkpoint, or it holds no configuration.
    NoCheckpoint { name: Txt, why: PointWhy },
    /// There is a checkpoint of that name.
    CheckpointExists { name: Txt },
    /// A name of a checkpoint has 1 to 64 ASCII letters, digits, `_` and `-`.
    BadName { name: Txt },
    /// The stored configuration breaks this rule at this place, an RFC 6901 pointer.
    CurrentInvalid { place: Txt, rule: RuleName },
    /// The target breaks this rule at this place, an RFC 6901 pointer.
    TargetInvalid { place: Txt, rule: RuleName },
    /// This table has no model and would change; it is the first by name.
    NoModel { table: Txt },
    /// The target has this table, which has a model, without keys; it is the first by name.
    EmptyTable { table: Txt },
    /// No list of allowed moves leads to the target.
    Unorderable,
    /// So many configurations other than the target were met.
    Budget { n: u32 },
    /// The folder stands for no configuration.
    BadStored { why: StoredWhy },
    /// A change was stopped before its end: its goal is still on the disk.
    Interrupted,
    /// No change was stopped before its end.
    NoIntent,
    /// The file of a change that was stopped holds no configuration.
    BadIntent,
    /// The greatest sequence number of checkpoints is taken.
    SequenceFull,
    /// The file of a plan isn't the text of one: this line, counted from 1, is the first at fault.
    BadPlan { path: Txt, line: u32 },
    /// The moves of the file are no plan: this step, counted from 1, is the first at fault, and why.
    PlanRejected { step: u32, why: NoWhy },
    /// This operation of the patch, counted from 0, is in no scope, or its two pointers are in different ones.
    BadScope { index: usize },
    /// The change of this scope is refused, by that number.
    ScopeRefused { scope: Txt, number: u8 },
    /// The script of several operators isn't of its form: this line, counted from 1, is the first at fault.
    BadScript { line: u32 },
}

impl Outcome {
    /// The exit status.
    pub fn status(&self) -> u8
        ensures { result ≡ number self.now }
    {
        match self {
            Outcome::Done => 0,
            Outcome::Memory => 1,
            Outcome::Usage => 2,
            Outcome::InputFault => 3,
            Outcome::DiskFault { .. } => 4,
            Outcome::PrintFault { .. } => 5,
            Outcome::ServiceFault { .. } => 6,
            Outcome::NoInput { .. } => 7,
            Outcome::TooBig { .. } => 8,
            Outcome::BadJson { .. } => 9,
            Outcome::BadConfig { .. } => 10,
            Outcome::BadModels { .. } => 11,
            Outcome::BadRules { .. } => 12,
            Outcome::BadPatch { .. } => 13,
            Outcome::PatchFailed { .. } => 14,
            Outcome::TargetShape { .. } => 15,
            Outcome::NoCheckpoint { .. } => 22,
            Outcome::CheckpointExists { .. } => 23,
            Outcome::BadName { .. } => 24,
            Outcome::CurrentInvalid { .. } => 16,
            Outcome::TargetInvalid { .. } => 17,
            Outcome::NoModel { .. } => 18,
            Outcome::EmptyTable { .. } => 19,
            Outcome::Unorderable => 20,
            Outcome::Budget { .. } => 21,
            Outcome::BadStored { .. } => 25,
            Outcome::Interrupted => 26,
            Outcome::NoIntent => 27,
            Outcome::BadIntent => 28,
            Outcome::SequenceFull => 29,
            Outcome::BadPlan { .. } => 30,
            Outcome::PlanRejected { .. } => 31,
            Outcome::BadScope { .. } => 32,
            Outcome::ScopeRefused { .. } => 33,
            Outcome::BadScript { .. } => 34,
        }
    }
}

impl From<Memory> for Outcome {
    ghost use Rattle.gcu_output.specs.declared.outcomes.Outcome.TheVariants.{Memory as no_memory};

    ghost from_gives = { λ _ e. e ≡ no_memory };

    fn from(_: Memory) -> Outcome {
        Outcome::Memory
    }
}

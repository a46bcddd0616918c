//! What the script of several operators needs.
ghost use Rattle.std.specs.Prelude.{◌≤◌, ◌<◌, IfErr, IfOk, IfSome, length};
ghost use Rattle.host_core.specs.Answers.{Gives};
ghost use Rattle.host_core.specs.Names.{longest_plain_name};
ghost use Rattle.conf_store.specs.Folds.{StandsFor};
ghost use Rattle.gcu_words.specs.Scripts.{most_lines, script as script_of};
ghost use Rattle.gcu_inputs.specs.Preparing.{Finds, Refuses, RefusesAlways, refusal};
ghost use Rattle.gcu_inputs.specs.Reads.{OnlyReads, ReadsInputs};
ghost use Rattle.gcu_requests.specs.ReadScripts.{IsReadyToOperate, operating_of};
ghost use Rattle.gcu_requests.specs.SessionsAsked.{operating_asked, script_answer, script_asked, script_needs_asked};

use crate::planning::read_start;
use crate::session_patches::{Patches, input_patches};
use conf_store::Stored;
use gcu_inputs::{input_bytes, input_ctx, test_uninterrupted};
use gcu_output::Outcome;
use gcu_words::{Script, ScriptError, read_script};
use host_core::{Host, Txt};
use move_core::Ctx;
use std::alloc::Global;

/// How many bytes a script may have.
const SCRIPT_LIMIT: u64 = 1_048_576;

/// What several operators ask: by what their moves are judged, from where, the lines of their script, the patches
/// that it names, and how many configurations may be met for each plan.
#[derive(Drop)]
pub struct Operating {
    pub ctx: Ctx,
    pub stored: Stored,
    pub script: Script,
    pub patches: Patches,
    pub budget: u32,
}

/// Reads what the script at a path needs.
pub fn prepare_script<H: Host>(
    alloc: Global,
    path: &Txt,
    budget: u32,
    host: &mut H,
) -> Result<Operating, Outcome>
    requires longest { longest_plain_name ≤ H.longest_name }
    requires budget { 0 < budget }
    ensures answer { Finds (H.told host.old) operating_of result (operating_asked path.now budget) }
    ensures ready { IfOk result IsReadyToOperate }
    ensures stands { IfOk result
        (λ p. IfSome (H.told host.old) (λ s. StandsFor p.stored s.files)) }
    ensures reads { OnlyReads H.told H.counts H.moment H.left_since H.goes_on host.old host.new }
    ensures cause { IfErr result (Refuses (H.counts host.old) (H.counts host.new)) }
{
    test_uninterrupted(alloc, host)?;
    read_script_needs(alloc, path, budget, host)
}

/// The same, where no change was stopped before its end.
fn read_script_needs<H: Host>(
    alloc: Global,
    path: &Txt,
    budget: u32,
    host: &mut H,
) -> Result<Operating, Outcome>
    requires longest { longest_plain_name ≤ H.longest_name }
    requires budget { 0 < budget }
    ensures answer { Finds (H.told host.old) operating_of result
        (script_needs_asked path.now budget) }
    ensures ready { IfOk result IsReadyToOperate }
    ensures stands { IfOk result
        (λ p. IfSome (H.told host.old) (λ s. StandsFor p.stored s.files)) }
    ensures reads { OnlyReads H.told H.counts H.moment H.left_since H.goes_on host.old host.new }
    ensures cause { IfErr result (Refuses (H.counts host.old) (H.counts host.new)) }
{
    let ctx = input_ctx(alloc, host)?;
    let stored = read_start(alloc, &ctx, host)?;
    let script = input_script(alloc, path, host)?;
    let patches = input_patches(alloc, Patches::new(alloc), script.items(), host)?;
    Ok(Operating {
        ctx,
        stored,
        script,
        patches,
        budget,
    })
}

/// The lines that an input holds.
fn input_script<H: Host>(alloc: Global, path: &Txt, host: &mut H) -> Result<Script, Outcome>
    ensures answer { Finds (H.told host.old) (λ lines. lines) result (script_asked path.now) }
    ensures few { IfOk result (λ lines. length lines ≤ most_lines) }
    ensures reads { ReadsInputs H.told H.counts H.moment H.left_since H.goes_on host.old host.new }
    ensures cause { IfErr result (Refuses (H.counts host.old) (H.counts host.new)) }
{
    let bytes = input_bytes(alloc, path, SCRIPT_LIMIT, host)?;
    script_in(alloc, bytes.items())
}

/// The lines that bytes hold.
fn script_in(alloc: Global, bytes: &[u8]) -> Result<Script, Outcome>
    ensures answer { Gives (λ lines. lines) refusal result (script_answer (script_of bytes.now)) }
    ensures few { IfOk result (λ lines. length lines ≤ most_lines) }
    ensures cause { IfErr result RefusesAlways }
{
    match read_script(alloc, bytes) {
        Ok(script) => Ok(script),
        Err(ScriptError::BadScript { line }) => Err(Outcome::BadScript { line }),
        Err(ScriptError::Memory) => Err(Outcome::Memory),
    }
}

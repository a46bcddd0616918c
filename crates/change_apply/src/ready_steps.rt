//! The steps of a plan made ready.
ghost use Rattle.std.specs.Prelude.{◌≡◌, ◌≤◌, ◌<◌, [], ◌∷◌, All, IfOk, Ok, length};
ghost use Rattle.conf_store.specs.Files.{last_step};
ghost use Rattle.patch_core.specs.Reading.{patch};
ghost use Rattle.move_core.specs.Operations.{op};
ghost use Rattle.change_apply.specs.Change.{ArePositions, AreDefined, restarts_of as restarts_at_positions, step_text};
ghost use Rattle.change_apply.specs.Work.{AreReadySteps, IsReadyStep};
ghost use Rattle.move_core.specs.Plans.{conf};

use crate::Restart;
use crate::acknowledging::acknowledgement;
use crate::ready::ReadyStep;
use conf_doc::Config;
use conf_store::step_name;
use host_core::{Memory, Sequence};
use move_core::{Move, Plan, Settings, operation_of, step};
use patch_core::step_bytes;
use std::alloc::Global;
use svc_rules::Services;

/// The steps of a plan from a configuration on, and the configuration after the last.
pub(crate) fn ready_steps(
    alloc: Global,
    start: &Config,
    plan: &Plan,
    services: &[Services],
    settings: &Settings,
) -> Result<(Sequence<ReadyStep>, Config), Memory>
    requires defined { AreDefined start.now plan.now }
    requires few { length plan.now ≤ last_step }
    requires lists { length services.now ≡ length plan.now }
    requires positions { All (ArePositions settings.now) services.now }
    ensures steps { IfOk result (λ found.
        AreReadySteps start.now plan.now services.now settings.now found.0) }
    ensures goal { IfOk result (λ found. found.1 ≡ conf start.now plan.now (length plan.now)) }
{
    let mut steps = Sequence::new(alloc);
    let mut config = start.copy(alloc)?;
    for k in 0..plan.len() {
        let mv = plan.at(k);
        config = step(alloc, &config, mv)?;
        steps.push(ready_step(alloc, k, mv, services[k].items(), settings)?)?;
    }
    Ok((steps, config))
}

/// The step behind the first `k`.
fn ready_step(
    alloc: Global,
    k: usize,
    mv: &Move,
    services: &[usize],
    settings: &Settings,
) -> Result<ReadyStep, Memory>
    requires few { k < last_step }
    requires positions { ArePositions settings.now services.now }
    ensures ready { IfOk result (IsReadyStep k) }
    ensures mv { IfOk result (λ s. s.mv ≡ mv.now) }
    ensures restarts { IfOk result
        (λ s. s.restarts ≡ restarts_at_positions settings.now services.now) }
{
    let bytes = step_file(alloc, mv)?;
    let file = step_name(alloc, k as u32 + 1)?;
    let line = acknowledgement(alloc, k + 1)?;
    let restarts = restarts_of(alloc, services, settings)?;
    let mv = mv.copy(alloc)?;
    Ok(ReadyStep {
        mv,
        file,
        bytes,
        restarts,
        line,
    })
}

/// The file of a step: the patch of its one operation.
fn step_file(alloc: Global, mv: &Move) -> Result<Vec<u8>, Memory>
    ensures text { IfOk result (λ b. b.items ≡ step_text mv.now) }
    ensures reads { IfOk result (λ b. patch (step_text mv.now) ≡ Ok (op mv.now ∷ [])) }
{
    let operation = operation_of(alloc, mv)?;
    step_bytes(alloc, &operation)
}

/// The restarts of the services at some positions.
fn restarts_of(
    alloc: Global,
    services: &[usize],
    settings: &Settings,
) -> Result<Sequence<Restart>, Memory>
    requires { ArePositions settings.now services.now }
    ensures { IfOk result (λ rs. rs ≡ restarts_at_positions settings.now services.now) }
{
    let mut restarts = Sequence::new(alloc);
    for i in 0..services.len() {
        let service = services[i];
        let name = settings.services.at(service).name.copy(alloc)?;
        restarts.push(Restart { service, name })?;
    }
    Ok(restarts)
}

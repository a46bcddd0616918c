//! A change made ready: every byte that it writes and prints.
ghost use Rattle.std.specs.Prelude.{◌≡◌, ◌≤◌, All, IfOk, false, length};
ghost use Rattle.std.specs.List.{AllPass};
ghost use Rattle.conf_store.specs.Files.{is_step_name, last_step};
ghost use Rattle.change_apply.specs.Change.{ArePositions, AreDefined, change_of};
ghost use Rattle.change_apply.specs.Stages.{first_steps};

use crate::Ready;
use crate::ready::Work;
use crate::ready_steps::ready_steps;
use conf_doc::{Config, file_bytes};
use conf_store::{Stored, step_name};
use host_core::{Memory, Names};
use move_core::{Plan, Settings};
use std::alloc::Global;
use svc_rules::Services;

/// Makes a change ready: the work of a plan on what was loaded, with the services of each of its moves by
/// their positions in the rules file.
pub fn prepare(
    alloc: Global,
    stored: &Stored,
    plan: &Plan,
    services: &[Services],
    settings: &Settings,
) -> Result<Ready, Memory>
    // Each move is defined where it stands, and its step has a number of six digits.
    requires defined { AreDefined stored.now.config plan.now }
    requires few { length plan.now ≤ last_step }
    // Each move has its list of services.
    requires lists { length services.now ≡ length plan.now }
    requires positions { All (ArePositions settings.now) services.now }
    // As `load` gives them.
    requires names { AllPass is_step_name stored.now.steps }
    ensures { IfOk result
        (λ ready. ready ≡ change_of stored.now plan.now services.now settings.now) }
{
    let (steps, config) = ready_steps(alloc, &stored.config, plan, services, settings)?;
    let stored_text = file_bytes(alloc, &stored.config)?;
    let stored = copy_stored(alloc, stored)?;
    let goal_text = file_bytes(alloc, &config)?;
    let goal = goal_of(alloc, config, plan.len())?;
    Ok(Ready {
        work: Work {
            stored,
            stored_text,
            steps,
            goal,
            goal_text,
        },
    })
}

/// A copy of what was loaded.
fn copy_stored(alloc: Global, stored: &Stored) -> Result<Stored, Memory>
    ensures { IfOk result (λ s. s ≡ stored.now) }
{
    let steps = copy_names(alloc, &stored.steps)?;
    let config = stored.config.copy(alloc)?;
    Ok(Stored {
        config,
        steps,
        folded: stored.folded,
    })
}

/// A copy of names.
#[tactic(auto, using(std::proofs::lemmas::List::take_all))]
fn copy_names(alloc: Global, names: &Names) -> Result<Names, Memory>
    ensures { IfOk result (λ copy. copy ≡ names.now) }
{
    let mut copy = Names::new(alloc);
    for i in 0..names.len() {
        let name = names.at(i).copy(alloc)?;
        copy.push(name)?;
    }
    Ok(copy)
}

/// What the folder holds behind the last step.
fn goal_of(alloc: Global, config: Config, count: usize) -> Result<Stored, Memory>
    requires { count ≤ last_step }
    ensures config { IfOk result (λ s. s.config ≡ config) }
    ensures steps { IfOk result (λ s. s.steps ≡ first_steps count) }
    ensures unfolded { IfOk result (λ s. s.folded ≡ false) }
{
    let steps = first_names(alloc, count)?;
    Ok(Stored {
        config,
        steps,
        folded: false,
    })
}

/// The names of the first step files.
fn first_names(alloc: Global, count: usize) -> Result<Names, Memory>
    requires { count ≤ last_step }
    ensures { IfOk result (λ names. names ≡ first_steps count) }
{
    let mut names = Names::new(alloc);
    for i in 0..count {
        let name = step_name(alloc, i as u32 + 1)?;
        names.push(name)?;
    }
    Ok(names)
}

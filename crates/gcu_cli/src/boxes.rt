//! The boxes of a planner, each made of the type of its kind. Who makes a box may not hand it out, so each
//! function here passes what it made on to the next one, and the last does the command.
ghost use Rattle.std.specs.Prelude.{◌≡◌, ◌≤◌, IfOk, OnErr};
ghost use Rattle.host_core.specs.Names.{longest_scoped_name};
ghost use Rattle.move_core.specs.Kinds.{AreOfKinds, extender_kinds, generator_kinds};
ghost use Rattle.gcu_cli.specs.Obeying.{IsObeyed, IsOutcomeOf};

use gcu_engine::{Outcome, run};
use host_core::{Host, Memory, Txt};
use move_core::{Boxes, Kit, MoveExt, MoveGen, kit_extenders, kit_generators, kit_rules};
use move_extend::{DeleteExt, ReferrersExt, RequiredExt, UpperExt};
use move_gen::{FieldGen, ItemGen, KeyGen, SeedGen, TableGen};
use move_rules::{CreateOnlyRule, NoDependencyRule, NoEmptyRule, RequiredRule};
use recheck::RecheckRule;
use std::alloc::Global;

/// Does the command that the words are with the boxes of a planner: what is promised of it is promised here, and
/// in each function on the way. Without memory for the boxes nothing is done.
pub(crate) fn do_command<H: Host>(
    alloc: Global,
    words: &[Txt],
    host: &mut H,
) -> Result<Outcome, Memory>
    requires { longest_scoped_name ≤ H.longest_name }
    ensures told { IfOk result (IsOutcomeOf words.now) }
    ensures obeyed { IfOk result (IsObeyed H.told H.counts H.moment H.left_since H.goes_on
        words.now host.old host.new) }
    ensures undone { OnErr result (host.new ≡ host.old) }
{
    let gens = kit_generators(
        alloc,
        Box::new(alloc, TableGen::new())?,
        Box::new(alloc, KeyGen::new())?,
        Box::new(alloc, FieldGen::new())?,
        Box::new(alloc, SeedGen::new())?,
        Box::new(alloc, ItemGen::new())?,
    )?;
    with_generators(alloc, gens, words, host)
}

/// The same with these generators.
fn with_generators<H: Host>(
    alloc: Global,
    gens: Vec<Box<dyn MoveGen>>,
    words: &[Txt],
    host: &mut H,
) -> Result<Outcome, Memory>
    requires longest { longest_scoped_name ≤ H.longest_name }
    requires gens { AreOfKinds (λ b. (MoveGen-box b).gen_kind b.value) generator_kinds gens.items }
    ensures told { IfOk result (IsOutcomeOf words.now) }
    ensures obeyed { IfOk result (IsObeyed H.told H.counts H.moment H.left_since H.goes_on
        words.now host.old host.new) }
    ensures undone { OnErr result (host.new ≡ host.old) }
{
    let exts = kit_extenders(
        alloc,
        Box::new(alloc, UpperExt::new())?,
        Box::new(alloc, DeleteExt::new())?,
        Box::new(alloc, ReferrersExt::new())?,
        Box::new(alloc, RequiredExt::new())?,
    )?;
    with_extenders(alloc, gens, exts, words, host)
}

/// The same with these generators and extenders.
fn with_extenders<H: Host>(
    alloc: Global,
    gens: Vec<Box<dyn MoveGen>>,
    exts: Vec<Box<dyn MoveExt>>,
    words: &[Txt],
    host: &mut H,
) -> Result<Outcome, Memory>
    requires longest { longest_scoped_name ≤ H.longest_name }
    requires gens { AreOfKinds (λ b. (MoveGen-box b).gen_kind b.value) generator_kinds gens.items }
    requires exts { AreOfKinds (λ b. (MoveExt-box b).ext_kind b.value) extender_kinds exts.items }
    ensures told { IfOk result (IsOutcomeOf words.now) }
    ensures obeyed { IfOk result (IsObeyed H.told H.counts H.moment H.left_since H.goes_on
        words.now host.old host.new) }
    ensures undone { OnErr result (host.new ≡ host.old) }
{
    let rules = kit_rules(
        alloc,
        Box::new(alloc, RecheckRule::new(alloc))?,
        Box::new(alloc, NoDependencyRule::new())?,
        Box::new(alloc, NoEmptyRule::new())?,
        Box::new(alloc, CreateOnlyRule::new())?,
        Box::new(alloc, RequiredRule::new())?,
    )?;
    let mut kit = Kit { gens, exts, rules };
    Ok(with_kit(alloc, words, &mut kit, host))
}

/// The same with a kit.
fn with_kit<H: Host>(alloc: Global, words: &[Txt], kit: &mut Kit, host: &mut H) -> Outcome
    requires longest { longest_scoped_name ≤ H.longest_name }
    requires kinds { ⟦<Kit as Boxes>⟧.HasKinds kit.old }
    ensures told { IsOutcomeOf words.now result }
    ensures obeyed { IsObeyed H.told H.counts H.moment H.left_since H.goes_on
        words.now host.old host.new result }
{
    run(alloc, words, kit, host)
}

//! The boxes of a planner, each made of the type of its kind, as the program makes them. Who makes a box may not hand
//! it out, so each function here passes what it made on to the next one.
ghost use Rattle.std.specs.Prelude.{◌≡◌};
ghost use Rattle.move_core.specs.Kinds.{AreOfKinds, extender_kinds, generator_kinds};

use crate::stories::Turn;
use example_rows::Fail;
use move_core::{Kit, MoveExt, MoveGen, kit_extenders, kit_generators, kit_rules};
use move_extend::{DeleteExt, ReferrersExt, RequiredExt, UpperExt};
use move_gen::{FieldGen, ItemGen, KeyGen, SeedGen, TableGen};
use move_rules::{CreateOnlyRule, FullRule, NoDependencyRule, NoEmptyRule, RequiredRule};
use recheck::RecheckRule;
use std::alloc::Global;

/// Whether the commands are as said with all boxes, where `is_whole` with the rule that judges each configuration
/// whole, and otherwise with the program's.
pub fn with_boxes(alloc: Global, is_whole: bool, turn: &Turn) -> Result<bool, Fail> {
    let gens = kit_generators(
        alloc,
        Box::new(alloc, TableGen::new())?,
        Box::new(alloc, KeyGen::new())?,
        Box::new(alloc, FieldGen::new())?,
        Box::new(alloc, SeedGen::new())?,
        Box::new(alloc, ItemGen::new())?,
    )?;
    with_generators(alloc, gens, is_whole, turn)
}

/// The same with these generators.
fn with_generators(
    alloc: Global,
    gens: Vec<Box<dyn MoveGen>>,
    is_whole: bool,
    turn: &Turn,
) -> Result<bool, Fail>
    requires { AreOfKinds (λ b. (MoveGen-box b).gen_kind b.value) generator_kinds gens.items }
{
    let exts = kit_extenders(
        alloc,
        Box::new(alloc, UpperExt::new())?,
        Box::new(alloc, DeleteExt::new())?,
        Box::new(alloc, ReferrersExt::new())?,
        Box::new(alloc, RequiredExt::new())?,
    )?;
    if is_whole {
        with_full_rule(alloc, gens, exts, turn)
    } else {
        with_recheck_rule(alloc, gens, exts, turn)
    }
}

/// The same with the program's rules.
fn with_recheck_rule(
    alloc: Global,
    gens: Vec<Box<dyn MoveGen>>,
    exts: Vec<Box<dyn MoveExt>>,
    turn: &Turn,
) -> Result<bool, Fail>
    requires gens { AreOfKinds (λ b. (MoveGen-box b).gen_kind b.value) generator_kinds gens.items }
    requires exts { AreOfKinds (λ b. (MoveExt-box b).ext_kind b.value) extender_kinds exts.items }
{
    let rules = kit_rules(
        alloc,
        Box::new(alloc, RecheckRule::new(alloc))?,
        Box::new(alloc, NoDependencyRule::new())?,
        Box::new(alloc, NoEmptyRule::new())?,
        Box::new(alloc, CreateOnlyRule::new())?,
        Box::new(alloc, RequiredRule::new())?,
    )?;
    let mut kit = Kit { gens, exts, rules };
    let said = turn.is_as_said(alloc, &mut kit);
    drop(kit);
    said
}

/// The same with the rule that judges each configuration whole as the first one.
fn with_full_rule(
    alloc: Global,
    gens: Vec<Box<dyn MoveGen>>,
    exts: Vec<Box<dyn MoveExt>>,
    turn: &Turn,
) -> Result<bool, Fail>
    requires gens { AreOfKinds (λ b. (MoveGen-box b).gen_kind b.value) generator_kinds gens.items }
    requires exts { AreOfKinds (λ b. (MoveExt-box b).ext_kind b.value) extender_kinds exts.items }
{
    let rules = kit_rules(
        alloc,
        Box::new(alloc, FullRule::new())?,
        Box::new(alloc, NoDependencyRule::new())?,
        Box::new(alloc, NoEmptyRule::new())?,
        Box::new(alloc, CreateOnlyRule::new())?,
        Box::new(alloc, RequiredRule::new())?,
    )?;
    let mut kit = Kit { gens, exts, rules };
    let said = turn.is_as_said(alloc, &mut kit);
    drop(kit);
    said
}

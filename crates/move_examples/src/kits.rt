//! Kits of all boxes, which count how often they are asked. Who makes a box may not hand it out, so each function
//! here passes what it made on to the next one.
ghost use Rattle.move_core.specs.Kinds.{AreOfKinds, generator_kinds, rule_kinds};
ghost use Rattle.move_examples.specs.Situations.{IsReady};

use crate::asking::Asked;
use crate::boxes::are_boxes_as_said;
use crate::counted::{Counters, Tally, counting_box};
use crate::counts::is_search_as_said;
use crate::situations::{Situation, situation_at};
use example_rows::Fail;
use move_core::{Boxes, Kit, MoveGen, MoveRule, kit_extenders, kit_generators, kit_rules};
use move_extend::{DeleteExt, ReferrersExt, RequiredExt, UpperExt};
use move_gen::{FieldGen, ItemGen, KeyGen, SeedGen, TableGen};
use move_rules::{CreateOnlyRule, FullRule, NoDependencyRule, NoEmptyRule, RequiredRule};
use serde_json::Value;
use std::alloc::Global;

/// Whether what a kit gives in the situation of a row is what the row says.
pub fn is_situation_as_said(
    alloc: Global,
    inputs: &Value,
    row: &Value,
    asked: Asked,
) -> Result<bool, Fail> {
    let situation = situation_at(alloc, inputs, row)?;
    let as_said = is_asked_as_said(alloc, &situation, row, asked);
    drop(situation);
    as_said
}

/// Whether what a kit gives in a situation is what the row says, and how often its boxes are asked where that is
/// asked for.
fn is_asked_as_said(
    alloc: Global,
    situation: &Situation,
    row: &Value,
    asked: Asked,
) -> Result<bool, Fail>
    requires { IsReady situation.now }
{
    let mut tally = Tally::new(alloc);
    let said = ask_counted(alloc, &mut tally, asked, situation, row);
    let counted = match asked {
        Asked::Count => tally.is_said(row),
        _ => Ok(true),
    };
    drop(tally);
    Ok(said? && counted?)
}

/// Asks a kit with the counters of a tally.
fn ask_counted(
    alloc: Global,
    tally: &mut Tally,
    asked: Asked,
    situation: &Situation,
    row: &Value,
) -> Result<bool, Fail>
    requires { IsReady situation.now }
{
    let all = &mut tally.rules;
    let rules = kit_rules(
        alloc,
        counting_box(alloc, FullRule::new(), all)?,
        counting_box(alloc, NoDependencyRule::new(), all)?,
        counting_box(alloc, NoEmptyRule::new(), all)?,
        counting_box(alloc, CreateOnlyRule::new(), all)?,
        counting_box(alloc, RequiredRule::new(), all)?,
    )?;
    ask_rules(alloc, tally, rules, asked, situation, row)
}

/// Asks a kit with these rules.
fn ask_rules(
    alloc: Global,
    tally: &mut Tally,
    rules: Vec<Box<dyn MoveRule>>,
    asked: Asked,
    situation: &Situation,
    row: &Value,
) -> Result<bool, Fail>
    requires rules { AreOfKinds (λ b. (MoveRule-box b).rule_kind b.value) rule_kinds rules.items }
    requires ready { IsReady situation.now }
{
    let all = &mut tally.generators;
    let gens = kit_generators(
        alloc,
        counting_box(alloc, TableGen::new(), all)?,
        counting_box(alloc, KeyGen::new(), all)?,
        counting_box(alloc, FieldGen::new(), all)?,
        counting_box(alloc, SeedGen::new(), all)?,
        counting_box(alloc, ItemGen::new(), all)?,
    )?;
    ask_both(
        alloc,
        &mut tally.extenders,
        gens,
        rules,
        asked,
        situation,
        row,
    )
}

/// Asks a kit with these generators and rules.
fn ask_both(
    alloc: Global,
    all: &mut Counters,
    gens: Vec<Box<dyn MoveGen>>,
    rules: Vec<Box<dyn MoveRule>>,
    asked: Asked,
    situation: &Situation,
    row: &Value,
) -> Result<bool, Fail>
    requires gens { AreOfKinds (λ b. (MoveGen-box b).gen_kind b.value) generator_kinds gens.items }
    requires rules { AreOfKinds (λ b. (MoveRule-box b).rule_kind b.value) rule_kinds rules.items }
    requires ready { IsReady situation.now }
{
    let exts = kit_extenders(
        alloc,
        counting_box(alloc, UpperExt::new(), all)?,
        counting_box(alloc, DeleteExt::new(), all)?,
        counting_box(alloc, ReferrersExt::new(), all)?,
        counting_box(alloc, RequiredExt::new(), all)?,
    )?;
    let mut kit = Kit { gens, exts, rules };
    let said = is_said_by(alloc, &mut kit, asked, situation, row);
    drop(kit);
    said
}

/// Whether what a kit gives in a situation is what the row says.
fn is_said_by(
    alloc: Global,
    kit: &mut Kit,
    asked: Asked,
    situation: &Situation,
    row: &Value,
) -> Result<bool, Fail>
    requires kinds { ⟦<Kit as Boxes>⟧.HasKinds kit.old }
    requires ready { IsReady situation.now }
{
    match asked {
        Asked::Boxes => are_boxes_as_said(alloc, kit, situation, row),
        Asked::Count => is_search_as_said(alloc, kit, situation, row),
        _ => Err(Fail::Row),
    }
}

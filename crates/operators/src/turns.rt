//! One line of a script: what its operator is told, and what becomes of the world.
ghost use Rattle.std.specs.Prelude.{◌≡◌, ◌<◌, [], IfOk, IsSome};
ghost use Rattle.move_core.specs.Contexts.{IsNamed};
ghost use Rattle.gcu_requests.specs.ReadScripts.{IsFound, patched_all};
ghost use Rattle.gcu_requests.specs.SessionsAsked.{patch_at as patch_found};
ghost use Rattle.gcu_words.specs.declared.script_lines.ScriptLine.TheVariants.{Begin as begins, End as ends, Retarget as retargets, Step as steps};
ghost use Rattle.operators.specs.Runs.{IsTurnOf};

use crate::aims::{Aim, aim_of_file};
use gcu_requests::Patches;
use gcu_words::ScriptLine;
use host_core::{Memory, Txt};
use move_core::{Boxes, Kit};
use sessions::{Reply, World, refusals_are_turns};
use std::alloc::Global;

/// Does what a line asks.
pub(crate) fn turn(
    alloc: Global,
    kit: &mut Kit,
    patches: &Patches,
    budget: u32,
    line: &ScriptLine,
    world: &mut World,
) -> Result<Reply, Memory>
    requires kinds { ⟦<Kit as Boxes>⟧.HasKinds kit.old }
    requires named { IsNamed world.old.ctx }
    requires budget { 0 < budget }
    requires found { IsFound (patched_all patches.now) line.now }
    ensures kinds { ⟦<Kit as Boxes>⟧.HasKinds kit.new }
    ensures turn { IfOk result (λ reply.
        IsTurnOf (patched_all patches.now) budget world.old line.now reply world.new) }
    ensures ctx { world.new.ctx ≡ world.old.ctx }
{
    match line {
        ScriptLine::Begin { name, file } => begin(alloc, kit, patches, budget, name, file, world),
        ScriptLine::Step { name } => step(alloc, name, world),
        ScriptLine::Retarget { name, file } => {
            retarget(alloc, kit, patches, budget, name, file, world)
        }
        ScriptLine::End { name } => Ok(end(name, world)),
    }
}

/// Begins a session, unless one of that name is there or the patch is refused.
fn begin(
    alloc: Global,
    kit: &mut Kit,
    patches: &Patches,
    budget: u32,
    name: &Txt,
    file: &Txt,
    world: &mut World,
) -> Result<Reply, Memory>
    requires kinds { ⟦<Kit as Boxes>⟧.HasKinds kit.old }
    requires named { IsNamed world.old.ctx }
    requires budget { 0 < budget }
    requires found { IsSome (patch_found file.now (patched_all patches.now)) }
    ensures kinds { ⟦<Kit as Boxes>⟧.HasKinds kit.new }
    ensures turn { IfOk result (λ reply. IsTurnOf (patched_all patches.now) budget world.old
        (begins name.now file.now) reply world.new) }
    ensures ctx { world.new.ctx ≡ world.old.ctx }
{
    refusals_are_turns();
    if world.knows(name.as_str()) {
        return Ok(Reply::Exists);
    }
    match aim_of_file(
        alloc,
        world.ctx(),
        kit,
        patches,
        budget,
        file,
        world.config(),
    )? {
        Aim::Towards { goal, plan } => world.begin(alloc, name.as_str(), &goal, plan),
        Aim::Refusal { number } => Ok(Reply::Refused { number }),
    }
}

/// Commits the next move of a session, where one of that name is there.
fn step(alloc: Global, name: &Txt, world: &mut World) -> Result<Reply, Memory>
    ensures turn { IfOk result (λ reply.
        IsTurnOf [] 0 world.old (steps name.now) reply world.new) }
    ensures ctx { world.new.ctx ≡ world.old.ctx }
{
    refusals_are_turns();
    if world.knows(name.as_str()) {
        return world.step(alloc, name.as_str());
    }
    Ok(Reply::Unknown)
}

/// Gives a session another goal, where one of that name is there and the patch isn't refused.
fn retarget(
    alloc: Global,
    kit: &mut Kit,
    patches: &Patches,
    budget: u32,
    name: &Txt,
    file: &Txt,
    world: &mut World,
) -> Result<Reply, Memory>
    requires kinds { ⟦<Kit as Boxes>⟧.HasKinds kit.old }
    requires named { IsNamed world.old.ctx }
    requires budget { 0 < budget }
    requires found { IsSome (patch_found file.now (patched_all patches.now)) }
    ensures kinds { ⟦<Kit as Boxes>⟧.HasKinds kit.new }
    ensures turn { IfOk result (λ reply. IsTurnOf (patched_all patches.now) budget world.old
        (retargets name.now file.now) reply world.new) }
    ensures ctx { world.new.ctx ≡ world.old.ctx }
{
    refusals_are_turns();
    if !world.knows(name.as_str()) {
        return Ok(Reply::Unknown);
    }
    match aim_of_file(
        alloc,
        world.ctx(),
        kit,
        patches,
        budget,
        file,
        world.config(),
    )? {
        Aim::Towards { goal, plan } => world.retarget(alloc, name.as_str(), &goal, plan),
        Aim::Refusal { number } => Ok(Reply::Refused { number }),
    }
}

/// Ends a session, where one of that name is there.
fn end(name: &Txt, world: &mut World) -> Reply
    ensures turn { IsTurnOf [] 0 world.old (ends name.now) result world.new }
    ensures ctx { world.new.ctx ≡ world.old.ctx }
{
    refusals_are_turns();
    if world.knows(name.as_str()) {
        return world.end(name.as_str());
    }
    Reply::Unknown
}

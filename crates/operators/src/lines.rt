//! The lines of a script in turn.
ghost use Rattle.std.specs.Prelude.{◌≡◌, ◌<◌, OnOk};
ghost use Rattle.move_core.specs.Contexts.{IsNamed};
ghost use Rattle.gcu_requests.specs.ReadScripts.{AreFound, patched_all};
ghost use Rattle.gcu_words.specs.Scripts.{name_of};
ghost use Rattle.operators.specs.Runs.{AreTold};

use crate::replies::write_reply;
use crate::turns::turn;
use gcu_requests::Patches;
use gcu_words::ScriptLine;
use host_core::{Memory, Txt};
use move_core::{Boxes, Kit};
use sessions::World;
use std::alloc::Global;

/// Does what some lines ask, and adds the line of each reply.
pub(crate) fn run_lines(
    alloc: Global,
    kit: &mut Kit,
    patches: &Patches,
    budget: u32,
    lines: &[ScriptLine],
    world: &mut World,
    text: &mut Vec<u8>,
) -> Result<(), Memory>
    requires kinds { ⟦<Kit as Boxes>⟧.HasKinds kit.old }
    requires named { IsNamed world.old.ctx }
    requires budget { 0 < budget }
    requires found { AreFound (patched_all patches.now) lines.now }
    ensures kinds { ⟦<Kit as Boxes>⟧.HasKinds kit.new }
    ensures told { OnOk result (AreTold (patched_all patches.now) budget lines.now
        world.old text.old.items world.new text.new.items) }
    ensures ctx { world.new.ctx ≡ world.old.ctx }
{
    match lines {
        [] => Ok(()),
        [line, rest @ ..] => {
            let reply = turn(alloc, kit, patches, budget, line, world)?;
            write_reply(alloc, name_of(line), &reply, text)?;
            run_lines(alloc, kit, patches, budget, rest, world, text)
        }
    }
}

/// The name of the session that a line is for.
fn name_of(line: &ScriptLine) -> &Txt
    ensures { result.now ≡ name_of line.now }
{
    match line {
        ScriptLine::Begin { name, .. } => name,
        ScriptLine::Step { name } => name,
        ScriptLine::Retarget { name, .. } => name,
        ScriptLine::End { name } => name,
    }
}

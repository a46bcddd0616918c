//! The whole script.
ghost use Rattle.std.specs.Prelude.{◌≡◌, IfOk};
ghost use Rattle.gcu_requests.specs.ReadScripts.{IsReadyToOperate, operating_of};
ghost use Rattle.operators.specs.Runs.{IsOperated};

use crate::lines::run_lines;
use crate::replies::write_commits;
use conf_store::Stored;
use gcu_requests::Operating;
use host_core::Memory;
use move_core::{Boxes, Kit};
use sessions::World;
use std::alloc::Global;

/// A script that has run: what was loaded, the world behind its last line, and what is told before anything is
/// done.
#[derive(Drop)]
pub struct Operated {
    pub stored: Stored,
    pub world: World,
    /// A line for each reply, and one that counts the commits.
    pub text: Vec<u8>,
}

/// Runs a script on the stored configuration. Nothing is printed, and no file is written.
pub fn operate(alloc: Global, kit: &mut Kit, operating: Operating) -> Result<Operated, Memory>
    requires kinds { ⟦<Kit as Boxes>⟧.HasKinds kit.old }
    requires ready { IsReadyToOperate operating }
    ensures kinds { ⟦<Kit as Boxes>⟧.HasKinds kit.new }
    ensures operated { IfOk result (λ o.
        IsOperated (operating_of operating) o.text.items o.world) }
    ensures stored { IfOk result (λ o. o.stored ≡ operating.stored) }
{
    let Operating {
        ctx,
        stored,
        script,
        patches,
        budget,
    } = operating;
    let mut world = World::new(alloc, ctx, &stored.config)?;
    let mut text = Vec::new(alloc);
    run_lines(
        alloc,
        kit,
        &patches,
        budget,
        script.items(),
        &mut world,
        &mut text,
    )?;
    write_commits(alloc, world.commits().len(), &mut text)?;
    Ok(Operated {
        stored,
        world,
        text,
    })
}

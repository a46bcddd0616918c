//! The goal of `gcu rollback NAME`: the configuration that a checkpoint holds.
ghost use Rattle.std.specs.Prelude.{◌≡◌, ◌≤◌, true, IfErr};
ghost use Rattle.host_core.specs.Names.{longest_plain_name};
ghost use Rattle.checkpoints.specs.Names.{is_good_name as is_name};
ghost use Rattle.gcu_inputs.specs.Preparing.{Finds, Refuses};
ghost use Rattle.gcu_inputs.specs.Reads.{ReadsFiles};
ghost use Rattle.gcu_requests.specs.PointAsked.{held_asked};

use checkpoints::{PointError, load};
use conf_doc::Config;
use gcu_output::{Outcome, PointWhy};
use host_core::{Host, Txt};
use std::alloc::Global;

/// The configuration that the checkpoint of a name holds.
pub(crate) fn checkpoint_goal<H: Host>(
    alloc: Global,
    name: &Txt,
    host: &mut H,
) -> Result<Config, Outcome>
    requires longest { longest_plain_name ≤ H.longest_name }
    requires named { is_name name.now ≡ true }
    ensures answer { Finds (H.told host.old) (λ c. c) result (held_asked name.now) }
    ensures reads { ReadsFiles H.told H.counts H.moment H.left_since H.goes_on host.old host.new }
    ensures cause { IfErr result (Refuses (H.counts host.old) (H.counts host.new)) }
{
    match load(alloc, host, name.as_str()) {
        Ok(config) => Ok(config),
        Err(PointError::Absent) => Err(Outcome::NoCheckpoint {
            name: name.copy(alloc)?,
            why: PointWhy::Absent,
        }),
        Err(PointError::NotConfig) => Err(Outcome::NoCheckpoint {
            name: name.copy(alloc)?,
            why: PointWhy::NotConfig,
        }),
        Err(PointError::Disk) => Err(Outcome::DiskFault { step: 0 }),
        Err(PointError::Memory) => Err(Outcome::Memory),
        Err(_) => unreachable!(),
    }
}

//! A checkpoint loaded.
ghost use Rattle.std.specs.Prelude.{◌≡◌, ◌≤◌, IfErr, IfOk, IfSome, IsErrOf};
ghost use Rattle.host_core.specs.Counts.{Rose};
ghost use Rattle.host_core.specs.Names.{longest_plain_name};
ghost use Rattle.conf_doc.specs.WellFormed.{IsConfig};
ghost use Rattle.conf_store.specs.Reads.{OnlyReads};
ghost use Rattle.checkpoints.specs.Answers.{IsOfLoading, Loads, Named};
ghost use Rattle.checkpoints.specs.Points.{held};
ghost use Rattle.checkpoints.specs.Reads.{Finds};
ghost use Rattle.checkpoints.specs.declared.errors.PointError.TheVariants.{Disk as disk_failed};

use crate::PointError;
use crate::content::{Content, read_content};
use crate::reading::read_point;
use conf_doc::Config;
use host_core::Host;
use std::alloc::Global;

/// The configuration that the checkpoint of a name holds, in either format. `NotConfig` comes where its file
/// is of neither. `Disk` comes only where the disk count rose.
pub fn load<H: Host>(alloc: Global, host: &mut H, name: &str) -> Result<Config, PointError>
    requires { longest_plain_name ≤ H.longest_name }
    ensures named { Named name.now result }
    // It is what the checkpoint holds, or there is none of that name, or it holds none.
    ensures answer { IfSome (H.told host.old) (λ s. Loads name.now s.files result) }
    ensures errors { IfErr result IsOfLoading }
    ensures formed { IfOk result IsConfig }
    ensures reads { OnlyReads H.told H.counts H.moment H.left_since H.goes_on host.old host.new }
    ensures cause { IsErrOf result disk_failed
        → Rose (H.counts host.old).disk (H.counts host.new).disk }
{
    let (_file, found) = read_point(alloc, host, name)?;
    match found {
        None => Err(PointError::Absent),
        Some(bytes) => read_config(alloc, &bytes),
    }
}

/// The configuration that the bytes of a file hold.
fn read_config(alloc: Global, bytes: &[u8]) -> Result<Config, PointError>
    ensures config { Finds (held bytes.now) result }
    ensures formed { IfOk result IsConfig }
{
    match read_content(alloc, bytes) {
        Ok(Content { config, number: _ }) => Ok(config),
        Err(error) => Err(error),
    }
}

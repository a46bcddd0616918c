//! The file of a checkpoint, read.
ghost use Rattle.std.specs.Prelude.{◌≡◌, ◌≤◌, IfErr, IfOk, IfSome, IsErrOf, length, option_map};
ghost use Rattle.std.specs.FinMap.{get};
ghost use Rattle.host_core.specs.Counts.{Rose};
ghost use Rattle.host_core.specs.Names.{longest_plain_name};
ghost use Rattle.host_core.specs.State.{file};
ghost use Rattle.conf_store.specs.Reads.{OnlyReads};
ghost use Rattle.checkpoints.specs.Answers.{IsOfListing, Named};
ghost use Rattle.checkpoints.specs.Names.{point_file as file_of};
ghost use Rattle.checkpoints.specs.Points.{held, points};
ghost use Rattle.checkpoints.specs.Reads.{IsOfReading};
ghost use Rattle.checkpoints.specs.declared.errors.PointError.TheVariants.{Disk as disk_failed};

use crate::PointError;
use crate::naming::{is_good_name, point_file};
use host_core::{Host, HostError, Txt};
use std::alloc::Global;

/// The name of the file of a checkpoint, and its bytes, or None where there is no such checkpoint.
pub(crate) fn read_point<H: Host>(
    alloc: Global,
    host: &mut H,
    name: &str,
) -> Result<(Txt, Option<Vec<u8>>), PointError>
    requires { longest_plain_name ≤ H.longest_name }
    ensures named { Named name.now result }
    ensures errors { IfErr result IsOfReading }
    ensures file { IfOk result (λ r. r.0 ≡ file_of name.now) }
    ensures short { IfOk result (λ r. length r.0 ≤ longest_plain_name) }
    ensures found { IfOk result (λ r. IfSome (H.told host.old)
        (λ s. option_map (λ b. b.items) r.1 ≡ file s (file_of name.now))) }
    ensures point { IfOk result (λ r. IfSome (H.told host.old)
        (λ s. option_map (λ b. held b.items) r.1 ≡ get (points s.files) name.now)) }
    ensures reads { OnlyReads H.told H.counts H.moment H.left_since H.goes_on host.old host.new }
    ensures cause { IsErrOf result disk_failed
        → Rose (H.counts host.old).disk (H.counts host.new).disk }
{
    if !is_good_name(name) {
        return Err(PointError::BadName);
    }
    let file = point_file(alloc, name)?;
    let found = read_file(alloc, host, file.as_str())?;
    Ok((file, found))
}

/// The bytes of a file, or None where there is no such file.
fn read_file<H: Host>(
    alloc: Global,
    host: &mut H,
    name: &str,
) -> Result<Option<Vec<u8>>, PointError>
    requires { length name.now ≤ H.longest_name }
    ensures errors { IfErr result IsOfListing }
    ensures found { IfOk result (λ r. IfSome (H.told host.old)
        (λ s. option_map (λ b. b.items) r ≡ file s name.now)) }
    ensures reads { OnlyReads H.told H.counts H.moment H.left_since H.goes_on host.old host.new }
    ensures cause { IsErrOf result disk_failed
        → Rose (H.counts host.old).disk (H.counts host.new).disk }
{
    match host.read(alloc, name) {
        Ok(found) => Ok(found),
        Err(HostError::Failed) => Err(PointError::Disk),
        Err(HostError::Memory) => Err(PointError::Memory),
    }
}

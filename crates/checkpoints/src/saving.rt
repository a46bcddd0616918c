//! A checkpoint saved.
ghost use Rattle.std.specs.Prelude.{◌≡◌, ◌≤◌, IfErr, IfOk, IfSome, IsErrOf, OnOk, length};
ghost use Rattle.host_core.specs.Counts.{DiskMayRise, Rose};
ghost use Rattle.host_core.specs.Crashes.{LeavesOnly};
ghost use Rattle.host_core.specs.Names.{longest_plain_name};
ghost use Rattle.conf_store.specs.Changes.{AreLeft, IsSettled, Settles};
ghost use Rattle.conf_store.specs.Reads.{OnlyReads};
ghost use Rattle.checkpoints.specs.Answers.{IsInTheWay, IsOfSaving, Named, Saves};
ghost use Rattle.checkpoints.specs.Changes.{IsSaved, IsSavedOrNot, LeavesOf, UnlessDisk};
ghost use Rattle.checkpoints.specs.Names.{point_file as file_of};
ghost use Rattle.checkpoints.specs.Reads.{IsNextText, IsOfNumbering, TellsFull};
ghost use Rattle.checkpoints.specs.declared.errors.PointError.TheVariants.{Disk as disk_failed};

use crate::PointError;
use crate::numbering::next_number;
use crate::reading::read_point;
use crate::writing::point_bytes;
use conf_doc::Config;
use conf_store::put_file;
use host_core::{Host, Txt};
use std::alloc::Global;

/// Saves a configuration as the checkpoint of a name, where there is none of that name. Its file is of
/// format 2, with the number one above the greatest of all checkpoints. `Exists` comes before `Full`. A crash
/// at any moment leaves the checkpoints from before or that one besides, and all other files but `tmp.new` as
/// they were. `Disk` comes only where the disk count rose. Nothing may be pending.
pub fn save<H: Host>(
    alloc: Global,
    host: &mut H,
    name: &str,
    config: &Config,
) -> Result<(), PointError>
    requires longest { longest_plain_name ≤ H.longest_name }
    requires ready { IfSome (H.told host.old) IsSettled }
    // It is saved where the name is good, there is no checkpoint of it, and a number is left.
    ensures named { Named name.now result }
    ensures answer { IfSome (H.told host.old) (λ s. Saves name.now s.files result) }
    ensures errors { IfErr result IsOfSaving }
    ensures ok { OnOk result
        (Settles (IsSaved name.now config.now) (H.told host.old) (H.told host.new)) }
    // After a fault of the disk the checkpoint is there or not, and after another error nothing is changed.
    ensures err { IfErr result
        (LeavesOf (IsSavedOrNot name.now config.now) (H.told host.old) (H.told host.new)) }
    // Where there is such a checkpoint, or no number is left, the folder is only read, whatever the answer.
    ensures only_reads { IfSome (H.told host.old) (λ s. IsInTheWay name.now s.files
        → OnlyReads H.told H.counts H.moment H.left_since H.goes_on host.old host.new) }
    // After another error than a fault of the disk, want of memory too, the folder was only read.
    ensures early { IfErr result (UnlessDisk (OnlyReads
        H.told H.counts H.moment H.left_since H.goes_on host.old host.new)) }
    ensures any_moment { IfSome (H.told host.old)
        (λ s. LeavesOnly H.moment H.left_since host.old host.new
        (AreLeft (IsSavedOrNot name.now config.now) s)) }
    ensures later { H.moment host.old ≤ H.moment host.new }
    ensures counts { DiskMayRise (H.counts host.old) (H.counts host.new) }
    ensures cause { IsErrOf result disk_failed
        → Rose (H.counts host.old).disk (H.counts host.new).disk }
    ensures goes { H.goes_on host.old host.new }
{
    let (file, text) = prepare_point(alloc, host, name, config)?;
    put_file(host, file.as_str(), &text)?;
    Ok(())
}

/// The name of the file of a checkpoint that isn't there yet, and its text, with the next number.
fn prepare_point<H: Host>(
    alloc: Global,
    host: &mut H,
    name: &str,
    config: &Config,
) -> Result<(Txt, Vec<u8>), PointError>
    requires { longest_plain_name ≤ H.longest_name }
    ensures named { Named name.now result }
    ensures answer { IfSome (H.told host.old) (λ s. Saves name.now s.files result) }
    ensures errors { IfErr result IsOfSaving }
    ensures file { IfOk result (λ r. r.0 ≡ file_of name.now) }
    ensures short { IfOk result (λ r. length r.0 ≤ longest_plain_name) }
    ensures text { IfOk result (λ r. IfSome (H.told host.old)
        (λ s. IsNextText config.now s.files r.1.items)) }
    ensures reads { OnlyReads H.told H.counts H.moment H.left_since H.goes_on host.old host.new }
    ensures cause { IsErrOf result disk_failed
        → Rose (H.counts host.old).disk (H.counts host.new).disk }
{
    let (file, found) = read_point(alloc, host, name)?;
    match found {
        Some(_) => Err(PointError::Exists),
        None => {
            let text = next_bytes(alloc, host, config)?;
            Ok((file, text))
        }
    }
}

/// The text of the next checkpoint's file.
fn next_bytes<H: Host>(alloc: Global, host: &mut H, config: &Config) -> Result<Vec<u8>, PointError>
    requires { longest_plain_name ≤ H.longest_name }
    ensures full { IfSome (H.told host.old) (λ s. TellsFull s.files result) }
    ensures text { IfOk result (λ b. IfSome (H.told host.old)
        (λ s. IsNextText config.now s.files b.items)) }
    ensures errors { IfErr result IsOfNumbering }
    ensures reads { OnlyReads H.told H.counts H.moment H.left_since H.goes_on host.old host.new }
    ensures cause { IsErrOf result disk_failed
        → Rose (H.counts host.old).disk (H.counts host.new).disk }
{
    let number = next_number(alloc, host)?;
    let text = point_bytes(alloc, config, number)?;
    Ok(text)
}

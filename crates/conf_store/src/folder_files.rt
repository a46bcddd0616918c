//! The files of the folder as the host hands them out.
ghost use Rattle.std.specs.Prelude.{◌≡◌, ◌≤◌, ◌∷◌, ◌++◌, [], filter, length, option_map, IfOk, IsErrOf, OnOk};
ghost use Rattle.std.specs.FinMap.{get};
ghost use Rattle.std.specs.List.{AllPass};
ghost use Rattle.host_core.specs.Counts.{Rose};
ghost use Rattle.host_core.specs.Names.{longest_plain_name};
ghost use Rattle.conf_store.specs.Files.{is_step_name, last_step, step_name, step_names};
ghost use Rattle.conf_store.specs.Reads.{FoundIn, OnlyReads};
ghost use Rattle.conf_store.specs.declared.errors.LoadError.TheVariants.{Disk as disk_failed};

use crate::LoadError;
use crate::step_files::{is_step_name, step_name};
use host_core::{Host, HostError, Memory, Names, Txt};
use std::alloc::Global;

/// The bytes of a file, or None where there is no such file.
pub(crate) fn read_file<H: Host>(
    alloc: Global,
    host: &mut H,
    name: &str,
) -> Result<Option<Vec<u8>>, LoadError>
    requires { length name.now ≤ H.longest_name }
    ensures found { FoundIn (H.told host.old) (option_map (λ b. b.items))
        (λ files. Ok (get files name.now)) result }
    ensures reads { OnlyReads H.told H.counts H.moment H.left_since H.goes_on host.old host.new }
    ensures cause { IsErrOf result disk_failed
        → Rose (H.counts host.old).disk (H.counts host.new).disk }
{
    match host.read(alloc, name) {
        Ok(found) => Ok(found),
        Err(HostError::Failed) => Err(LoadError::Disk),
        Err(HostError::Memory) => Err(LoadError::Memory),
    }
}

/// The bytes of the step file of a number, or None where there is no such file.
pub(crate) fn read_step_file<H: Host>(
    alloc: Global,
    host: &mut H,
    n: u32,
) -> Result<Option<Vec<u8>>, LoadError>
    requires { longest_plain_name ≤ H.longest_name }
    ensures found { FoundIn (H.told host.old) (option_map (λ b. b.items))
        (λ files. Ok (get files (step_name n))) result }
    ensures reads { OnlyReads H.told H.counts H.moment H.left_since H.goes_on host.old host.new }
    ensures cause { IsErrOf result disk_failed
        → Rose (H.counts host.old).disk (H.counts host.new).disk }
{
    let name = step_name(alloc, n)?;
    read_file(alloc, host, name.as_str())
}

/// The names of the step files.
pub(crate) fn list_steps<H: Host>(alloc: Global, host: &mut H) -> Result<Names, LoadError>
    ensures found { FoundIn (H.told host.old) (λ ns. ns) (λ files. Ok (step_names files)) result }
    ensures names { IfOk result (AllPass is_step_name) }
    ensures reads { OnlyReads H.told H.counts H.moment H.left_since H.goes_on host.old host.new }
    ensures cause { IsErrOf result disk_failed
        → Rose (H.counts host.old).disk (H.counts host.new).disk }
{
    match host.list(alloc) {
        Ok(names) => Ok(keep_steps(alloc, names)?),
        Err(HostError::Failed) => Err(LoadError::Disk),
        Err(HostError::Memory) => Err(LoadError::Memory),
    }
}

/// Those among names that are of step files, taken over and not copied.
fn keep_steps(alloc: Global, names: Names) -> Result<Names, Memory>
    ensures { IfOk result (λ steps. steps ≡ filter is_step_name names) }
{
    let mut steps = Names::new(alloc);
    for name in names.into_vec() {
        keep_step(&mut steps, name)?;
    }
    Ok(steps)
}

/// Adds a name, if it is that of a step file.
fn keep_step(steps: &mut Names, name: Txt) -> Result<(), Memory>
    ensures { OnOk result (steps.new ≡ steps.old ++ filter is_step_name (name ∷ [])) }
{
    if is_step_name(name.as_str()) {
        steps.push(name)?;
    }
    Ok(())
}

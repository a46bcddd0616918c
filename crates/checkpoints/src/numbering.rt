//! The sequence numbers of checkpoints.
ghost use Rattle.std.specs.Prelude.{◌≡◌, ◌≤◌, true, All, IfErr, IfOk, IfSome, IsErrOf, map};
ghost use Rattle.host_core.specs.Counts.{Rose};
ghost use Rattle.host_core.specs.Names.{longest_plain_name};
ghost use Rattle.conf_store.specs.Reads.{OnlyReads};
ghost use Rattle.checkpoints.specs.Answers.{IsOfListing, ListsNumbers, numbered_view};
ghost use Rattle.checkpoints.specs.Formats.{number_held as held_number};
ghost use Rattle.checkpoints.specs.Names.{is_good_name as is_name};
ghost use Rattle.checkpoints.specs.Numbers.{greatest, next_number as number_next, with_its_number};
ghost use Rattle.checkpoints.specs.Reads.{IsOfNumbering, TellsFull, greater};
ghost use Rattle.checkpoints.specs.declared.errors.PointError.TheVariants.{Disk as disk_failed};

use crate::PointError;
use crate::content::read_content;
use crate::listing::names;
use crate::reading::read_point;
use host_core::{Host, Memory, Names, Sequence, Txt};
use std::alloc::Global;

/// The greatest number of a checkpoint.
const GREATEST_NUMBER: u32 = u32::MAX;

/// A checkpoint by its name, with its sequence number.
#[derive(Drop)]
pub struct Numbered {
    pub name: Txt,
    /// None where its file is of neither format.
    pub number: Option<u32>,
}

/// All checkpoints in the order of their names' bytes, each with its number. `Disk` comes only where the disk
/// count rose.
pub fn numbers<H: Host>(alloc: Global, host: &mut H) -> Result<Sequence<Numbered>, PointError>
    requires { longest_plain_name ≤ H.longest_name }
    ensures answer { IfSome (H.told host.old) (λ s. ListsNumbers s.files result) }
    ensures errors { IfErr result IsOfListing }
    ensures reads { OnlyReads H.told H.counts H.moment H.left_since H.goes_on host.old host.new }
    ensures cause { IsErrOf result disk_failed
        → Rose (H.counts host.old).disk (H.counts host.new).disk }
{
    let all = names(alloc, host)?;
    read_numbers(alloc, host, &all)
}

/// The number that the next checkpoint gets: one above the greatest. `Full` comes where the greatest is taken.
pub(crate) fn next_number<H: Host>(alloc: Global, host: &mut H) -> Result<u32, PointError>
    requires { longest_plain_name ≤ H.longest_name }
    ensures full { IfSome (H.told host.old) (λ s. TellsFull s.files result) }
    ensures number { IfOk result
        (λ n. IfSome (H.told host.old) (λ s. n ≡ number_next s.files)) }
    ensures errors { IfErr result IsOfNumbering }
    ensures reads { OnlyReads H.told H.counts H.moment H.left_since H.goes_on host.old host.new }
    ensures cause { IsErrOf result disk_failed
        → Rose (H.counts host.old).disk (H.counts host.new).disk }
{
    let all = numbers(alloc, host)?;
    let greatest = greatest_of(all.items());
    if greatest == GREATEST_NUMBER {
        return Err(PointError::Full);
    }
    Ok(greatest + 1)
}

/// The greatest number of checkpoints, or 0 where there is none.
fn greatest_of(all: &[Numbered]) -> u32
    ensures { result ≡ greatest (map numbered_view all.now) }
{
    let mut greatest = 0;
    for numbered in all {
        greatest = greatest_with(greatest, numbered);
    }
    greatest
}

/// The greater of a number and that of a checkpoint, which may have none.
fn greatest_with(so_far: u32, numbered: &Numbered) -> u32
    ensures { result ≡ greater so_far numbered.now.number }
{
    match numbered.number {
        Some(number) => so_far.max(number),
        None => so_far,
    }
}

/// The checkpoints of these names with their numbers.
fn read_numbers<H: Host>(
    alloc: Global,
    host: &mut H,
    names: &Names,
) -> Result<Sequence<Numbered>, PointError>
    requires longest { longest_plain_name ≤ H.longest_name }
    requires good { All (λ n. is_name n ≡ true) names.now }
    ensures numbers { IfOk result (λ ns. IfSome (H.told host.old)
        (λ s. map numbered_view ns ≡ map (with_its_number s.files) names.now)) }
    ensures errors { IfErr result IsOfListing }
    ensures reads { OnlyReads H.told H.counts H.moment H.left_since H.goes_on host.old host.new }
    ensures cause { IsErrOf result disk_failed
        → Rose (H.counts host.old).disk (H.counts host.new).disk }
{
    let mut all = Sequence::new(alloc);
    for i in 0..names.len() {
        let numbered = read_number(alloc, host, names.at(i))?;
        all.push(numbered)?;
    }
    Ok(all)
}

/// The checkpoint of a name with its number.
fn read_number<H: Host>(alloc: Global, host: &mut H, name: &Txt) -> Result<Numbered, PointError>
    requires longest { longest_plain_name ≤ H.longest_name }
    requires good { is_name name.now ≡ true }
    ensures number { IfOk result (λ n. IfSome (H.told host.old)
        (λ s. numbered_view n ≡ with_its_number s.files name.now)) }
    ensures errors { IfErr result IsOfListing }
    ensures reads { OnlyReads H.told H.counts H.moment H.left_since H.goes_on host.old host.new }
    ensures cause { IsErrOf result disk_failed
        → Rose (H.counts host.old).disk (H.counts host.new).disk }
{
    let (_file, found) = read_point(alloc, host, name.as_str())?;
    let number = match found {
        None => None,
        Some(bytes) => number_held(alloc, &bytes)?,
    };
    let name = name.copy(alloc)?;
    Ok(Numbered { name, number })
}

/// The number of the checkpoint whose file has these bytes.
fn number_held(alloc: Global, bytes: &[u8]) -> Result<Option<u32>, Memory>
    ensures { IfOk result (λ n. n ≡ held_number bytes.now) }
{
    match read_content(alloc, bytes) {
        Ok(content) => Ok(Some(content.number)),
        Err(PointError::NotConfig) => Ok(None),
        Err(_) => Err(Memory),
    }
}

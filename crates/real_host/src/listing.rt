//! The names that a listing of a folder hands out.
ghost use Rattle.std.specs.Prelude.{◌≡◌, All, IsSorted, IsPermutation, IsOk, IfOk, IsErrOf};
ghost use Rattle.std.specs.Iterator.{IsFinite, Drains};
ghost use Rattle.host_core.specs.Names.{name_cmp};
ghost use Rattle.host_core.specs.declared.errors.HostError.TheVariants.{Failed as call_failed};
ghost use Rattle.real_host.specs.Listings.{item_name as name_in, item_names, IsEntry, IsFault, GivesFault};

use crate::reading::{host_error, is_kind};
use host_core::{HostError, Names, Sequence, Txt};
use std::alloc::Global;
use std::fs::DirEntry;
use std::io;
use std::io::ErrorKind;
use std::rt::Files;

/// The names of a listing that are UTF-8, in the order of their bytes.
pub(crate) fn sorted_names<R: Files + Drop, I: Iterator<Item = io::Result<DirEntry<R>>> + Drop>(
    alloc: Global,
    items: I,
) -> Result<Names, HostError>
    requires can { I.can_next items }
    requires ends { IsFinite (I.remaining items) }
    ensures sorted { IfOk result (IsSorted name_cmp) }
    ensures listed { IfOk result (λ names. (all : _) × Drains I.next_gives items all
        × All IsEntry all × IsPermutation (item_names all) names) }
    ensures fault { IsErrOf result call_failed → GivesFault I.next_gives items }
{
    let mut names = listed_names(alloc, items)?;
    names.sort()?;
    Ok(Sequence::from_vec(names))
}

/// The names of a listing that are UTF-8.
pub(crate) fn listed_names<R: Files + Drop, I: Iterator<Item = io::Result<DirEntry<R>>> + Drop>(
    alloc: Global,
    items: I,
) -> Result<Vec<Txt>, HostError>
    requires can { I.can_next items }
    requires ends { IsFinite (I.remaining items) }
    ensures listed { IfOk result (λ names. (all : _) × Drains I.next_gives items all
        × All IsEntry all × (names.items ≡ item_names all)) }
    ensures fault { IsErrOf result call_failed → GivesFault I.next_gives items }
{
    let mut names = Vec::new(alloc);
    for item in items {
        if let Some(name) = item_name(alloc, item)? {
            names.push(name)?;
        }
    }
    Ok(names)
}

/// The name of an item, or None where it is no UTF-8.
fn item_name<R: Files + Drop>(
    alloc: Global,
    item: io::Result<DirEntry<R>>,
) -> Result<Option<Txt>, HostError>
    ensures name { IfOk result (λ name. name ≡ name_in item) }
    ensures entry { IsOk result → IsEntry item }
    ensures fault { IsErrOf result call_failed → IsFault item }
{
    match item {
        Ok(entry) => Ok(Some(Txt::new(alloc, entry.file_name())?)),
        Err(error) if is_kind(&error, ErrorKind::InvalidFilename) => Ok(None),
        Err(error) => Err(host_error(&error)),
    }
}

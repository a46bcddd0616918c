//! The names of a scope's files.
ghost use Rattle.std.specs.Prelude.{◌≡◌, IfOk, IsOkAnd, IsErrOf, OnOk};
ghost use Rattle.std.specs.BTreeSet.{insert_key};
ghost use Rattle.std.specs.Option.{option_map_or};
ghost use Rattle.host_core.specs.Names.{name_cmp};
ghost use Rattle.host_core.specs.declared.errors.HostError.TheVariants.{Failed as call_failed};
ghost use Rattle.scopes.specs.Files.{plain_name as plain_of};
ghost use Rattle.scopes.specs.Listings.{plain_names as names_among};

use crate::Scope;
use crate::names::plain_name;
use host_core::{HostError, Memory, Names, Txt};
use std::alloc::Global;
use std::collections::BTreeSet;

/// The plain names of those files listed that a scope has, in the order of their bytes.
pub(crate) fn plain_names(
    alloc: Global,
    scope: Scope,
    listed: Result<Names, HostError>,
) -> Result<Names, HostError>
    ensures names { IfOk result (λ all.
        IsOkAnd listed (λ files. all ≡ names_among scope files)) }
    ensures fault { IsErrOf result call_failed → IsErrOf listed call_failed }
{
    match listed {
        Ok(files) => Ok(list_names(alloc, gather_names(alloc, scope, files.items())?)?),
        Err(error) => Err(error),
    }
}

/// The plain names, each in its place. They are in another order than the files.
fn gather_names(alloc: Global, scope: Scope, files: &[Txt]) -> Result<BTreeSet<Txt>, Memory>
    ensures { IfOk result (λ names. names.keys ≡ names_among scope files.now) }
{
    let mut names = BTreeSet::new(alloc);
    let mut i = files.len();
    while i > 0 {
        i -= 1;
        gather_name(alloc, scope, &mut names, files[i].as_str())?;
    }
    Ok(names)
}

/// Adds the plain name of a file, where the scope has it.
fn gather_name(
    alloc: Global,
    scope: Scope,
    names: &mut BTreeSet<Txt>,
    file: &str,
) -> Result<(), Memory>
    ensures { OnOk result (names.new.keys
        ≡ option_map_or (insert_key name_cmp names.old.keys) (plain_of scope file.now)
        names.old.keys) }
{
    if let Some(name) = plain_name(scope, file) {
        let name = Txt::new(alloc, name)?;
        names.insert(name)?;
    }
    Ok(())
}

/// The names as a list.
fn list_names(alloc: Global, names: BTreeSet<Txt>) -> Result<Names, Memory>
    ensures { IfOk result (λ all. all ≡ names.keys) }
{
    let mut all = Names::new(alloc);
    for name in names {
        all.push(name)?;
    }
    Ok(all)
}

//! The files that a crash of a host in memory leaves.
ghost use Rattle.std.specs.Prelude.{◌≡◌, OnOk};
ghost use Rattle.host_core.specs.Picks.{picked};
ghost use Rattle.host_core.specs.State.{dirty, with_file};
ghost use Rattle.host_core.specs.Steps.{bytes_in, pending_of, undone};

use crate::named_bytes::NamedBytes;
use crate::pending::{Pending, Undo};
use crate::short_names::ShortName;
use crate::{Memory, Pick, Txt};
use std::alloc::Global;

/// Makes the files those of the picked image.
pub(crate) fn pick_files(
    alloc: Global,
    pick: &Pick,
    pending: Pending,
    files: &mut NamedBytes,
) -> Result<(), Memory>
    ensures { OnOk result (files.new ≡ picked pick.now (pending_of pending files.old) files.old) }
{
    match pending {
        Pending::Settled => Ok(()),
        Pending::Dirty(name) => pick_bytes(alloc, pick, &name, files),
        Pending::Listing(undo) => match pick {
            Pick::Before => undo_in(files, undo),
            Pick::Gone | Pick::Bytes(_) | Pick::After => Ok(()),
        },
    }
}

/// Makes the file whose bytes are pending the picked one.
fn pick_bytes(
    alloc: Global,
    pick: &Pick,
    name: &ShortName,
    files: &mut NamedBytes,
) -> Result<(), Memory>
    ensures { OnOk result (files.new ≡ picked pick.now (dirty name.now) files.old) }
{
    match pick {
        Pick::Gone => {
            files.discard(name.as_str());
            Ok(())
        }
        Pick::Bytes(bytes) => {
            let _ = files.put_copy(alloc, name.as_str(), bytes.items())?;
            Ok(())
        }
        Pick::Before | Pick::After => Ok(()),
    }
}

/// Undoes the last change of names.
fn undo_in(files: &mut NamedBytes, undo: Undo) -> Result<(), Memory>
    ensures { OnOk result (files.new ≡ undone undo files.old) }
{
    match undo {
        Undo::Same => Ok(()),
        Undo::Removed { name, bytes } => set_content(files, name, Some(bytes)),
        Undo::Renamed { from, to, replaced } => {
            let there = files.take(to.as_str());
            set_content(files, to, replaced)?;
            set_content(files, from, there)
        }
    }
}

/// Puts a file in, or takes it out.
fn set_content(files: &mut NamedBytes, name: Txt, content: Option<Vec<u8>>) -> Result<(), Memory>
    ensures { OnOk result (files.new ≡ with_file name (bytes_in content) files.old) }
{
    match content {
        None => files.discard(name.as_str()),
        Some(bytes) => {
            let _ = files.put(name, bytes)?;
        }
    }
    Ok(())
}

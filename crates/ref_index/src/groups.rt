//! The places that want a text, grouped by the leaf where it is to stand.
ghost use Rattle.std.specs.Prelude.{◌≡◌, OnOk, OnErr, position};
ghost use Rattle.conf_check.specs.Wants.{want_of};
ghost use Rattle.ref_index.specs.PlaceMaps.{KeepsIn, PutsIn, TakesIn, is_for, places_in};

use crate::leaf_group::{Group, new_group};
use crate::places::Place;
use conf_check::{Want, WantAt};
use host_core::Memory;
use std::alloc::Global;

/// Whether the group is that of the leaf that is wanted.
fn is_group_of(group: &Group, want: &Want) -> bool
    ensures { result ≡ is_for (want_of want.now).target group.now }
{
    want.table == group.target.table.as_str()
        && want.shape == group.target.shape
        && want.part == group.target.part
}

/// The index of the group of the leaf that is wanted.
fn index_of(groups: &[Group], want: &Want) -> Option<usize>
    ensures { result ≡ position (is_for (want_of want.now).target) groups.now }
{
    groups.iter().position(|group| is_group_of(group, want))
}

/// The places of the group of the leaf that is wanted.
pub(crate) fn places_of<'a>(groups: &'a [Group], want: &Want) -> &'a [Place]
    ensures { result.now ≡ places_in groups.now (want_of want.now).target }
{
    match index_of(groups, want) {
        Some(i) => groups[i].places.as_slice(),
        None => &[],
    }
}

/// Adds the place of a want to the group of its leaf.
pub(crate) fn put_in(alloc: Global, groups: &mut Vec<Group>, at: &WantAt) -> Result<(), Memory>
    ensures ok { OnOk result (PutsIn at.now groups.old.items groups.new.items) }
    ensures err { OnErr result (KeepsIn groups.old.items groups.new.items) }
{
    match index_of(groups.as_slice(), &at.want) {
        Some(i) => groups[i].put(alloc, at),
        None => {
            let group = new_group(alloc, at)?;
            groups.push(group)?;
            Ok(())
        }
    }
}

/// Takes the place of a want out of the group of its leaf.
pub(crate) fn take_from(groups: &mut Vec<Group>, at: &WantAt)
    ensures { TakesIn at.now groups.old.items groups.new.items }
{
    match index_of(groups.as_slice(), &at.want) {
        Some(i) => groups[i].take(at),
        None => {}
    }
}

//! The places of each want.
ghost use Rattle.std.specs.Prelude.{◌≡◌, [], None, OnOk, OnErr};
ghost use Rattle.indexmap.specs.IndexMap.{get_by_text};
ghost use Rattle.conf_check.specs.Wants.{Want as WantOf, want_of};
ghost use Rattle.ref_index.specs.PlaceMaps.{HasSame, Puts, Takes, places_at};

use crate::groups::{places_of, put_in, take_from};
use crate::leaf_group::Group;
use crate::places::Place;
use conf_check::{Want, WantAt};
use host_core::Memory;
use indexmap::IndexMap;
use std::alloc::Global;

/// The places of each want, found by the text that is wanted.
#[derive(Drop)]
pub(crate) struct PlaceMap {
    by_text: IndexMap<String, Vec<Group>>,
}

impl PlaceMap {
    /// No places, which take no memory.
    pub(crate) fn new(alloc: Global) -> PlaceMap
        ensures { (w : WantOf) → places_at result w ≡ [] }
    {
        PlaceMap {
            by_text: IndexMap::new(alloc),
        }
    }

    /// The places that have a want.
    pub(crate) fn places(&self, want: &Want) -> &[Place]
        ensures { result.now ≡ places_at self.now (want_of want.now) }
    {
        match self.by_text.get(want.text) {
            Some(groups) => places_of(groups.as_slice(), want),
            None => &[],
        }
    }

    /// Adds the groups of a text that has none, with the place of a want.
    fn put_text(&mut self, alloc: Global, at: &WantAt) -> Result<(), Memory>
        requires { get_by_text self.old.by_text at.now.want.text.now ≡ None }
        ensures ok { OnOk result (Puts at.now self.old self.new) }
        ensures err { OnErr result (HasSame self.old self.new) }
    {
        let mut groups = Vec::new(alloc);
        put_in(alloc, &mut groups, at)?;
        let text = String::from_str(alloc, at.want.text)?;
        self.by_text.insert(text, groups)?;
        Ok(())
    }

    /// Adds the place of a want.
    pub(crate) fn put(&mut self, alloc: Global, at: &WantAt) -> Result<(), Memory>
        ensures ok { OnOk result (Puts at.now self.old self.new) }
        ensures err { OnErr result (HasSame self.old self.new) }
    {
        match self.by_text.get_mut(at.want.text) {
            Some(groups) => put_in(alloc, groups, at),
            None => self.put_text(alloc, at),
        }
    }

    /// Takes the place of a want out.
    pub(crate) fn take(&mut self, at: &WantAt)
        ensures { Takes at.now self.old self.new }
    {
        if let Some(groups) = self.by_text.get_mut(at.want.text) {
            take_from(groups, at);
        }
    }
}

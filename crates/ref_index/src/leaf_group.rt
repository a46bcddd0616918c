//! The places that want a text at one leaf.
ghost use Rattle.std.specs.Prelude.{◌≡◌, ◌∷◌, [], IfOk, IsTrue, OnOk, OnErr, true};
ghost use Rattle.std.specs.List.{list_any};
ghost use Rattle.std.specs.Ordering.{is_gt};
ghost use Rattle.conf_check.specs.Wants.{want_of};
ghost use Rattle.ref_index.specs.Places.{are_up_to, is_place, place_cmp, with_place, without_place};
ghost use Rattle.ref_index.specs.Referrers.{place_of};

use crate::places::Place;
use conf_check::WantAt;
use host_core::{Memory, Txt};
use std::alloc::Global;
use yang_types::Target;

/// The places that want a text at one leaf, and a place that none of them comes after. What comes after that
/// isn't there yet, so places that come in their order are added without a look at the others.
#[derive(Drop)]
pub(crate) struct Group {
    pub(crate) target: Target,
    pub(crate) places: Vec<Place>,
    bound: Place,
    pub(crate) ghost bounded: { are_up_to bound places.items ≡ true },
}

/// Whether the place of a want is one of some places.
fn has_place(places: &[Place], at: &WantAt) -> bool
    ensures { result ≡ list_any (λ p. is_place p (place_of at.now)) places.now }
{
    places.iter().any(|place| place.is_of(at))
}

/// Adds the place of a want, unless it is there.
fn put_place(alloc: Global, places: &mut Vec<Place>, at: &WantAt) -> Result<(), Memory>
    ensures ok { OnOk result (places.new.items ≡ with_place (place_of at.now) places.old.items) }
    ensures err { OnErr result (places.new.items ≡ places.old.items) }
{
    if has_place(places.as_slice(), at) {
        return Ok(());
    }
    let place = Place::new(alloc, at)?;
    places.push(place)?;
    Ok(())
}

/// Takes the place of a want out.
fn take_place(places: &mut Vec<Place>, at: &WantAt)
    ensures { places.new.items ≡ without_place (place_of at.now) places.old.items }
{
    places.retain(|place| !place.is_of(at));
}

/// A group of the place of a want alone.
pub(crate) fn new_group(alloc: Global, at: &WantAt) -> Result<Group, Memory>
    ensures target { IfOk result (λ g. g.target ≡ (want_of at.now.want).target) }
    ensures places { IfOk result (λ g. g.places.items ≡ place_of at.now ∷ []) }
{
    let target = Target {
        table: Txt::new(alloc, at.want.table)?,
        shape: at.want.shape,
        part: at.want.part,
    };
    let mut places = Vec::new(alloc);
    places.push(Place::new(alloc, at)?)?;
    let bound = Place::new(alloc, at)?;
    Ok(Group {
        target,
        places,
        bound,
    })
}

impl Group {
    /// Adds the place of a want that comes after the bound, and is the bound then.
    fn put_last(&mut self, alloc: Global, at: &WantAt) -> Result<(), Memory>
        requires { IsTrue (is_gt (place_cmp (place_of at.now) self.old.bound)) }
        ensures target { self.new.target ≡ self.old.target }
        ensures ok { OnOk result
            (self.new.places.items ≡ with_place (place_of at.now) self.old.places.items) }
        ensures err { OnErr result (self.new.places.items ≡ self.old.places.items) }
    {
        let place = Place::new(alloc, at)?;
        let bound = Place::new(alloc, at)?;
        self.places.push(place)?;
        self.bound = bound;
        Ok(())
    }

    /// Adds the place of a want, unless it is there.
    pub(crate) fn put(&mut self, alloc: Global, at: &WantAt) -> Result<(), Memory>
        ensures target { self.new.target ≡ self.old.target }
        ensures ok { OnOk result
            (self.new.places.items ≡ with_place (place_of at.now) self.old.places.items) }
        ensures err { OnErr result (self.new.places.items ≡ self.old.places.items) }
    {
        if self.bound.is_before(at) {
            self.put_last(alloc, at)
        } else {
            put_place(alloc, &mut self.places, at)
        }
    }

    /// Takes the place of a want out.
    pub(crate) fn take(&mut self, at: &WantAt)
        ensures target { self.new.target ≡ self.old.target }
        ensures places { self.new.places.items
            ≡ without_place (place_of at.now) self.old.places.items }
    {
        take_place(&mut self.places, at);
    }
}

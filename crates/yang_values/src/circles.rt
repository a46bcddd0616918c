//! Type statements on circles of typedefs and leafrefs.
ghost use Rattle.std.specs.Prelude.{◌≡◌, ◌↔◌, IsTrue, [], ◌∷◌, Bool, map, Contains, IfOk};
ghost use Rattle.yang_text.specs.Statements.{declaration};
ghost use Rattle.yang_scope.specs.Faults.{lesser, least_of};
ghost use Rattle.yang_text.specs.declared.errors.ModelWhy.TheVariants.{Circle};
ghost use Rattle.yang_scope.specs.Paths.{Placed};
ghost use Rattle.yang_values.specs.Circles.{IsOnCircle, DecidesCircles, circle, is_plain};
ghost use Rattle.yang_values.specs.Walks.{placed, IsAdded, AreReached};

use crate::place_lists::Places;
use crate::sameness::same_declaration;
use crate::walks::{Place, next};
use host_core::Memory;
use std::alloc::Global;
use yang_scope::{Base, Fault, Names, note};
use yang_text::{ModelWhy, Statement};

/// Whether two type statements are one.
pub(crate) fn is_same(one: &Place, other: &Place) -> bool
    ensures { IsTrue result ↔ (placed one.now ≡ placed other.now) }
{
    one.number == other.number && same_declaration(one.statement, other.statement)
}

/// Whether a type statement is among some.
fn is_among(places: &[Place], place: &Place) -> bool
    ensures { IsTrue result ↔ Contains (map placed places.now) (placed place.now) }
{
    for other in places {
        if is_same(other, place) {
            return true;
        }
    }
    false
}

/// Adds a type statement, where it isn't found among those that are there.
fn push_if_new<'a>(places: &mut Places<'a>, place: &Place<'a>) -> Result<(), Memory>
    ensures { IfOk result (λ _. IsAdded (map placed places.old.items.items) (placed place.now ∷ [])
        (map placed places.new.items.items)) }
{
    if places.has(place) {
        return Ok(());
    }
    places.push(place)
}

/// Adds those type statements that aren't found there.
fn push_new<'a>(places: &mut Places<'a>, others: &[Place<'a>]) -> Result<(), Memory>
    ensures { IfOk result (λ _. IsAdded (map placed places.old.items.items) (map placed others.now)
        (map placed places.new.items.items)) }
{
    for other in others {
        push_if_new(places, other)?;
    }
    Ok(())
}

/// All that a type statement leads to.
pub(crate) fn reached<'a>(
    alloc: Global,
    names: &Names<'a>,
    place: Place<'a>,
) -> Result<Places<'a>, Memory>
    ensures { IfOk result
        (λ places. AreReached names.now (placed place.entry) (map placed places.items.items)) }
{
    let first = next(alloc, names, place)?;
    let mut places = Places::new(alloc);
    push_new(&mut places, first.as_slice())?;
    for i in 0..usize::MAX {
        if i >= places.items.len() {
            return Ok(places);
        }
        let others = next(alloc, names, places.items[i])?;
        push_new(&mut places, others.as_slice())?;
    }
    Err(Memory)
}

/// Whether typedefs end at a base that leads on to no type statement.
fn is_plain(base: Option<Base>) -> bool
    ensures { result ≡ is_plain base }
{
    match base {
        None => false,
        Some(Base::Leafref) => false,
        Some(Base::Union) => false,
        Some(_) => true,
    }
}

/// Whether a type statement leads to itself. Typedefs that end at a plain base are told without a walk.
fn is_on_circle<'a>(alloc: Global, names: &Names<'a>, place: Place<'a>) -> Result<bool, Memory>
    ensures { IfOk result (λ found. IsTrue found ↔ IsOnCircle names.now (placed place.entry)) }
{
    if is_plain(names.base_of(place.number, &place.statement.argument)) {
        return Ok(false);
    }
    let places = reached(alloc, names, place)?;
    Ok(is_among(places.items.as_slice(), &place))
}

/// Whether a fault so far is answered before a circle on a line, or is one there.
fn is_settled(least: &Option<Fault>, file: u32, line: u32) -> bool
    ensures { IsTrue result
        → lesser least.now (record { file = file; line = line; why = Circle }) ≡ least.now }
{
    match least {
        Some(first) => {
            first.file < file
                || (first.file == file && first.line < line)
                || (first.file == file
                    && first.line == line
                    && matches!(first.why, ModelWhy::Circle))
        }
        None => false,
    }
}

/// A type statement of a module that lies on a circle of typedefs and leafrefs, through unions too. One
/// that only leads to a circle doesn't.
pub(crate) fn note_circle<'a>(
    alloc: Global,
    least: &mut Option<Fault>,
    names: &Names<'a>,
    file: u32,
    number: usize,
    statement: &'a Statement,
) -> Result<(), Memory>
    ensures { IfOk result (λ _. (is_on_circle : Placed → Bool)
        → DecidesCircles names.now is_on_circle → least.new ≡ least_of least.old
        (circle is_on_circle file number (declaration statement.now))) }
{
    if is_settled(least, file, statement.line) {
        return Ok(());
    }
    if is_on_circle(alloc, names, Place { number, statement })? {
        note(least, file, statement.line, ModelWhy::Circle);
    }
    Ok(())
}

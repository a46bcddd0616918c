//! The walk from a type statement over all that it leads to.
ghost use Rattle.std.specs.Prelude.{◌≡◌, ◌++◌, [], ◌∷◌, ℕ, Bool, List, map, filter, reverse, option_map, codes, IfOk};
ghost use Rattle.std.specs.Option.{option_to_list};
ghost use Rattle.yang_text.specs.Statements.{declaration};
ghost use Rattle.yang_scope.specs.Statements.{is_keyword, children_of};
ghost use Rattle.yang_values.specs.TypeValues.{placed_in, path_of, leaf_types, next_by, next, type_within};
ghost use Rattle.yang_values.specs.Values.{most_steps};
ghost use Rattle.yang_values.specs.Walks.{placed, step_type, visited, built};

use crate::statements::{first_child, is_keyword, typedef_type};
use host_core::Memory;
use std::alloc::Global;
use yang_scope::{Base, Meaning, Names};
use yang_text::Statement;

/// More type statements than files can have.
pub(crate) const MOST_STEPS: u64 = 4294967296;

/// A type statement, and the number of its module.
#[derive(Clone, Copy)]
pub(crate) struct Place<'a> {
    pub number: usize,
    pub statement: &'a Statement,
}

/// A type statement that is still to be visited, and how many steps may go on from it.
#[derive(Clone, Copy)]
pub(crate) struct Step<'a> {
    pub most: u64,
    pub place: Place<'a>,
}

/// A type statement that was visited, and how many it leads to.
#[derive(Clone, Copy)]
pub(crate) struct Visit<'a> {
    pub place: Place<'a>,
    pub children: usize,
}

/// A type statement of a module, where there is one.
fn some_place<'a>(
    alloc: Global,
    number: usize,
    statement: Option<&'a Statement>,
) -> Result<Vec<Place<'a>>, Memory>
    ensures { IfOk result (λ places. map placed places.items
        ≡ placed_in number (option_to_list (option_map (λ s. declaration s.now) statement.entry))) }
{
    let mut places = Vec::new(alloc);
    match statement {
        Some(statement) => {
            places.push(Place { number, statement })?;
            Ok(places)
        }
        None => Ok(places),
    }
}

/// The path of a leafref.
pub(crate) fn path_of(statement: &Statement) -> Option<&str>
    ensures { option_map (λ s. s.now) result ≡ path_of (declaration statement.now) }
{
    match first_child("path", statement) {
        Some(path) => match &path.argument {
            Some(text) => Some(text.as_str()),
            None => None,
        },
        None => None,
    }
}

/// The type statement of the key leaf that a path in a module leads to.
fn leaf_types<'a>(
    alloc: Global,
    names: &Names<'a>,
    number: usize,
    path: &str,
) -> Result<Vec<Place<'a>>, Memory>
    ensures { IfOk result
        (λ places. map placed places.items ≡ leaf_types names.now number path.now) }
{
    match names.path_end(alloc, number, path) {
        Ok(Some((number, leaf))) => some_place(alloc, number, first_child("type", leaf)),
        Ok(None) => Ok(Vec::new(alloc)),
        Err(memory) => Err(memory),
    }
}

/// Adds a statement, where it is a type statement.
fn push_if_type<'a>(
    places: &mut Vec<Place<'a>>,
    number: usize,
    statement: &'a Statement,
) -> Result<(), Memory>
    ensures { IfOk result (λ _. map placed places.new.items ≡ map placed places.old.items
        ++ placed_in number (filter (is_keyword (codes "type")) (declaration statement.now ∷ []))) }
{
    if is_keyword("type", statement) {
        places.push(Place { number, statement })?;
    }
    Ok(())
}

/// The members of a union.
fn members<'a>(
    alloc: Global,
    number: usize,
    statement: &'a Statement,
) -> Result<Vec<Place<'a>>, Memory>
    ensures { IfOk result (λ places. map placed places.items
        ≡ placed_in number (children_of (codes "type") (declaration statement.now))) }
{
    let mut places = Vec::new(alloc);
    for child in statement.block.items() {
        push_if_type(&mut places, number, child)?;
    }
    Ok(places)
}

/// The type statements that one leads to by what its name stands for.
fn next_by<'a>(
    alloc: Global,
    names: &Names<'a>,
    number: usize,
    statement: &'a Statement,
    meaning: Meaning,
) -> Result<Vec<Place<'a>>, Memory>
    ensures { IfOk result (λ places. map placed places.items
        ≡ next_by names.now number (declaration statement.now) meaning) }
{
    match meaning {
        Meaning::Goes(k, place) => some_place(alloc, k, typedef_type(names, k, place)),
        Meaning::Ends(Base::Leafref) => match path_of(statement) {
            Some(path) => leaf_types(alloc, names, number, path),
            None => Ok(Vec::new(alloc)),
        },
        Meaning::Ends(Base::Union) => members(alloc, number, statement),
        Meaning::Ends(_) | Meaning::Nothing => Ok(Vec::new(alloc)),
    }
}

/// The type statements that one leads to.
pub(crate) fn next<'a>(
    alloc: Global,
    names: &Names<'a>,
    place: Place<'a>,
) -> Result<Vec<Place<'a>>, Memory>
    ensures { IfOk result
        (λ places. map placed places.items ≡ next names.now (placed place.entry)) }
{
    let meaning = names.type_meaning(place.number, &place.statement.argument);
    next_by(alloc, names, place.number, place.statement, meaning)
}

/// Puts statements on those that are still to be visited, the first on top.
pub(crate) fn push_steps<'a>(
    pending: &mut Vec<Step<'a>>,
    most: u64,
    places: &[Place<'a>],
) -> Result<(), Memory>
    ensures { IfOk result (λ _. reverse pending.new.items
        ≡ map (λ p. record { most = most; place = p }) (reverse places.now)
        ++ reverse pending.old.items) }
{
    for place in places {
        pending.push(Step {
            most,
            place: *place,
        })?;
    }
    Ok(())
}

/// All that a type statement leads to, each before those that it leads to. Where it leads to itself, no
/// memory is enough.
pub(crate) fn visits<'a>(
    alloc: Global,
    names: &Names<'a>,
    place: Place<'a>,
) -> Result<Vec<Visit<'a>>, Memory>
    ensures { IfOk result (λ found. (is_pattern : List ℕ → Bool)
        → type_within is_pattern names.now most_steps (placed place.entry)
        ≡ built is_pattern names.now (reverse (map visited found.items)) []) }
{
    let mut found = Vec::new(alloc);
    let mut pending = Vec::new(alloc);
    pending.push(Step {
        most: MOST_STEPS,
        place,
    })?;
    for round in 0..u64::MAX {
        match pending.pop() {
            Some(step) => {
                if step.most == 0 {
                    return Err(Memory);
                }
                let mut places = next(alloc, names, step.place)?;
                found.push(Visit {
                    place: step.place,
                    children: places.len(),
                })?;
                places.reverse();
                push_steps(&mut pending, step.most - 1, places.as_slice())?;
            }
            None => return Ok(found),
        }
    }
    Err(Memory)
}

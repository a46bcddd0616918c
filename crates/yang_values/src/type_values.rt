//! The types of type statements as values.
ghost use Rattle.std.specs.Prelude.{◌≡◌, [], Bool, List, ℕ, map, reverse, take, drop, IfOk};
ghost use Rattle.yang_text.specs.Statements.{declaration};
ghost use Rattle.yang_types.specs.DataTypes.{data_type};
ghost use Rattle.yang_types.specs.Flattening.{flat};
ghost use Rattle.yang_scope.specs.TypeFaults.{DecidesPatterns};
ghost use Rattle.yang_values.specs.TypeValues.{only_type, stored_type};
ghost use Rattle.yang_values.specs.Walks.{visited, built, IsTaken};
ghost use Rattle.yang_values.specs.WrittenTypes.{written_type};

use crate::restrictions::type_by;
use crate::walks::{Place, Visit, visits};
use host_core::Memory;
use std::alloc::Global;
use yang_scope::Names;
use yang_text::Statement;
use yang_types::Ty;

/// Takes so many types off the others, the uppermost first.
fn take_types(alloc: Global, types: &mut Vec<Ty>, count: usize) -> Result<Vec<Ty>, Memory>
    ensures { IfOk result (λ taken. IsTaken count
        (reverse (map data_type types.old.items)) (map data_type taken.items)
        (reverse (map data_type types.new.items))) }
{
    let mut taken = Vec::new(alloc);
    for i in 0..count {
        match types.pop() {
            Some(ty) => taken.push(ty)?,
            None => return Ok(taken),
        }
    }
    Ok(taken)
}

/// The uppermost type.
fn top_type(types: Vec<Ty>) -> Ty
    ensures { data_type result ≡ only_type (reverse (map data_type types.items)) }
{
    let mut types = types;
    match types.pop() {
        Some(ty) => ty,
        None => Ty::Text,
    }
}

/// The type that is left when each statement, those that others lead to first, has taken its types off.
fn build(alloc: Global, names: &Names, visits: &[Visit]) -> Result<Ty, Memory>
    ensures { IfOk result (λ ty. (is_pattern : List ℕ → Bool) → DecidesPatterns is_pattern
        → data_type ty ≡ built is_pattern names.now (map visited visits.now) []) }
{
    let mut types = Vec::new(alloc);
    for visit in visits {
        let taken = take_types(alloc, &mut types, visit.children)?;
        let ty = type_by(
            alloc,
            names,
            visit.place.number,
            visit.place.statement,
            taken,
        )?;
        types.push(ty)?;
    }
    let ty = top_type(types);
    Ok(ty)
}

/// The type that is stored of a type statement of a module.
pub(crate) fn stored_type<'a>(
    alloc: Global,
    names: &Names<'a>,
    number: usize,
    statement: &'a Statement,
) -> Result<Ty, Memory>
    ensures { IfOk result (λ ty. (is_pattern : List ℕ → Bool) → DecidesPatterns is_pattern
        → data_type ty ≡ stored_type is_pattern names.now number (declaration statement.now)) }
{
    let mut found = visits(alloc, names, Place { number, statement })?;
    found.reverse();
    build(alloc, names, found.as_slice())
}

/// The type of a type statement of a module: what its name stands for, along typedefs, with all
/// restrictions round it in the order of the text, those of the typedefs first (RFC 7950, sections 7.3
/// and 9). It has the flat form of the type that is written, so leafrefs and unions in a row make it no
/// deeper. A part that has a fault says nothing. Ask only where the statement leads to no
/// circle: on one no memory is enough.
pub fn type_value<'a>(
    alloc: Global,
    names: &Names<'a>,
    number: usize,
    statement: &'a Statement,
) -> Result<Ty, Memory>
    ensures { IfOk result (λ ty. (is_pattern : List ℕ → Bool) → DecidesPatterns is_pattern
        → data_type ty
        ≡ flat (written_type is_pattern names.now number (declaration statement.now))) }
{
    stored_type(alloc, names, number, statement)
}

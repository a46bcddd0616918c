//! Types with further restrictions round them.
//!
//! A type that can't be handed on is given whole to `drop`. That is one call to the prover, where a
//! removal at the end of a block has an end for each part of each kind of type.
ghost use Rattle.std.specs.Prelude.{◌≡◌, Bool, List, ℕ, map, IfOk};
ghost use Rattle.std.specs.Option.{option_map_or};
ghost use Rattle.yang_text.specs.Statements.{declaration};
ghost use Rattle.yang_types.specs.DataType.{length_within, value_within};
ghost use Rattle.yang_types.specs.DataTypes.{data_type};
ghost use Rattle.yang_scope.specs.TypeFaults.{DecidesPatterns};
ghost use Rattle.yang_values.specs.TypeValues.{matching_by, restrict, takes_patterns, is_taken, restrict_if_taken, type_by};
ghost use Rattle.yang_values.specs.Values.{restricted_values};

use crate::named_types::named_type;
use crate::statements::is_keyword;
use crate::values::{is_restriction, parts_in_at};
use host_core::{Memory, Sequence, Txt};
use std::alloc::Global;
use yang_pattern::{Pattern, PatternError};
use yang_scope::{Base, Names};
use yang_text::Statement;
use yang_types::{Bounds, Ty, TyBox};

/// A type with a length round it, where that has parts.
fn with_length(alloc: Global, ty: Ty, parts: Option<Sequence<Bounds>>) -> Result<Ty, Memory>
    ensures { IfOk result (λ more. data_type more
        ≡ option_map_or (length_within (data_type ty)) parts (data_type ty)) }
{
    match parts {
        Some(parts) => match TyBox::new(alloc, ty) {
            Ok(inner) => Ok(Ty::Length(inner, parts)),
            Err(memory) => {
                drop(parts);
                Err(memory)
            }
        },
        None => Ok(ty),
    }
}

/// A type with a range round it, where that has parts.
fn with_range(alloc: Global, ty: Ty, parts: Option<Sequence<Bounds>>) -> Result<Ty, Memory>
    ensures { IfOk result (λ more. data_type more
        ≡ option_map_or (value_within (data_type ty)) parts (data_type ty)) }
{
    match parts {
        Some(parts) => match TyBox::new(alloc, ty) {
            Ok(inner) => Ok(Ty::Range(inner, parts)),
            Err(memory) => {
                drop(parts);
                Err(memory)
            }
        },
        None => Ok(ty),
    }
}

/// A type with a pattern round it, where the text is one.
fn matching_by(alloc: Global, ty: Ty, text: &str) -> Result<Ty, Memory>
    ensures { IfOk result (λ more. (is_pattern : List ℕ → Bool) → DecidesPatterns is_pattern
        → data_type more ≡ matching_by is_pattern (data_type ty) text.now) }
{
    match Pattern::read(alloc, text) {
        Ok(pattern) => match TyBox::new(alloc, ty) {
            Ok(inner) => Ok(Ty::Match(inner, pattern)),
            Err(memory) => {
                drop(pattern);
                Err(memory)
            }
        },
        Err(PatternError::Bad { .. }) => Ok(ty),
        Err(PatternError::Memory) => {
            drop(ty);
            Err(Memory)
        }
    }
}

/// A type with a pattern round it, where there is one.
fn with_pattern(alloc: Global, ty: Ty, text: &Option<Txt>) -> Result<Ty, Memory>
    ensures { IfOk result (λ more. (is_pattern : List ℕ → Bool) → DecidesPatterns is_pattern
        → data_type more
        ≡ option_map_or (matching_by is_pattern (data_type ty)) text.now (data_type ty)) }
{
    match text {
        Some(text) => matching_by(alloc, ty, text.as_str()),
        None => Ok(ty),
    }
}

/// A type with the restriction round it that a statement in a type statement is, where it is one.
fn restrict(
    alloc: Global,
    names: &Names,
    number: usize,
    statement: &Statement,
    ty: Ty,
    child: &Statement,
) -> Result<Ty, Memory>
    ensures { IfOk result (λ more. (is_pattern : List ℕ → Bool) → DecidesPatterns is_pattern
        → data_type more ≡ restrict is_pattern
        (restricted_values names.now number (declaration statement.now))
        (data_type ty) (declaration child.now)) }
{
    if is_keyword("length", child) {
        match parts_in_at(alloc, names, number, statement, child) {
            Ok(parts) => with_length(alloc, ty, parts),
            Err(memory) => {
                drop(ty);
                Err(memory)
            }
        }
    } else if is_keyword("range", child) {
        match parts_in_at(alloc, names, number, statement, child) {
            Ok(parts) => with_range(alloc, ty, parts),
            Err(memory) => {
                drop(ty);
                Err(memory)
            }
        }
    } else if is_keyword("pattern", child) {
        with_pattern(alloc, ty, &child.argument)
    } else {
        Ok(ty)
    }
}

/// Whether a type of this base may have patterns.
fn takes_patterns(base: Option<Base>) -> bool
    ensures { result ≡ takes_patterns base }
{
    match base {
        None | Some(Base::Text) => true,
        Some(_) => false,
    }
}

/// Whether a statement is a restriction that a type of this base takes.
fn is_taken(base: Option<Base>, statement: &Statement) -> bool
    ensures { result ≡ is_taken base (declaration statement.now) }
{
    is_restriction(base, statement) || (takes_patterns(base) && is_keyword("pattern", statement))
}

/// A type with the restriction round it that a statement in a type statement is, where the base of that
/// takes it.
fn restrict_if_taken(
    alloc: Global,
    names: &Names,
    number: usize,
    statement: &Statement,
    base: Option<Base>,
    ty: Ty,
    child: &Statement,
) -> Result<Ty, Memory>
    ensures { IfOk result (λ more. (is_pattern : List ℕ → Bool) → DecidesPatterns is_pattern
        → data_type more ≡ restrict_if_taken is_pattern base
        (restricted_values names.now number (declaration statement.now))
        (data_type ty) (declaration child.now)) }
{
    if is_taken(base, child) {
        restrict(alloc, names, number, statement, ty, child)
    } else {
        Ok(ty)
    }
}

/// The type of a type statement, by the types that it leads to.
pub(crate) fn type_by(
    alloc: Global,
    names: &Names,
    number: usize,
    statement: &Statement,
    types: Vec<Ty>,
) -> Result<Ty, Memory>
    ensures { IfOk result (λ ty. (is_pattern : List ℕ → Bool) → DecidesPatterns is_pattern
        → data_type ty ≡ type_by is_pattern names.now (number, declaration statement.now)
        (map data_type types.items)) }
{
    let meaning = names.type_meaning(number, &statement.argument);
    let base = names.base_of(number, &statement.argument);
    let mut ty = named_type(alloc, names, statement, types, meaning)?;
    for child in statement.block.items() {
        ty = restrict_if_taken(alloc, names, number, statement, base, ty, child)?;
    }
    Ok(ty)
}

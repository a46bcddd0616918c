//! The values that types accept by their lengths and ranges: of a string its numbers of characters, of
//! an integer type its numbers.
ghost use Rattle.std.specs.Prelude.{◌≡◌, ◌^◌, [], ◌∷◌, map, option_map, IfOk};
ghost use Rattle.std.specs.List.{fold};
ghost use Rattle.yang_text.specs.Statements.{declaration};
ghost use Rattle.yang_values.specs.Parts.{parts};
ghost use Rattle.yang_values.specs.Values.{most_steps, base_bounds, is_restriction, parts_in, values_left, values_by, next_typedef, types_within, values_behind, restricted_values};

use crate::parts::{common, parts};
use crate::statements::{is_keyword, typedef_type};
use host_core::{Memory, Sequence};
use std::alloc::Global;
use yang_scope::{Base, Meaning, Names};
use yang_text::Statement;
use yang_types::Bounds;

/// More type statements than files can have.
const MOST_STEPS: u64 = 4294967296;

/// The numbers that a base accepts, of a string's characters too.
fn base_bounds(base: Option<Base>) -> Bounds
    ensures { result ≡ base_bounds base }
{
    match base {
        Some(Base::Text) => Bounds {
            low: 0,
            high: i128::MAX,
        },
        Some(Base::Number(bounds)) => bounds,
        _ => Bounds {
            low: i128::MIN,
            high: i128::MAX,
        },
    }
}

/// Whether a statement is a length or a range that may stand at a type of this base.
pub(crate) fn is_restriction(base: Option<Base>, statement: &Statement) -> bool
    ensures { result ≡ is_restriction base (declaration statement.now) }
{
    match base {
        None => is_keyword("length", statement) || is_keyword("range", statement),
        Some(Base::Text) => is_keyword("length", statement),
        Some(Base::Number(_)) => is_keyword("range", statement),
        Some(_) => false,
    }
}

/// The parts of a length or a range of a type that accepts these values.
pub(crate) fn parts_in(
    alloc: Global,
    values: &[Bounds],
    statement: &Statement,
) -> Result<Option<Sequence<Bounds>>, Memory>
    ensures { IfOk result (λ found. found ≡ parts_in values.now (declaration statement.now)) }
{
    match &statement.argument {
        Some(text) => parts(alloc, values, text.as_str()),
        None => Ok(None),
    }
}

/// A list of one part.
fn only(alloc: Global, part: Bounds) -> Result<Sequence<Bounds>, Memory>
    ensures { IfOk result (λ found. found ≡ part ∷ []) }
{
    let mut found = Sequence::new(alloc);
    found.push(part)?;
    Ok(found)
}

/// A list of the same parts.
fn copy(alloc: Global, parts: &[Bounds]) -> Result<Sequence<Bounds>, Memory>
    ensures { IfOk result (λ found. found ≡ parts.now) }
{
    let found = Vec::from_slice(alloc, parts)?;
    Ok(Sequence::from_vec(found))
}

/// What a statement leaves of the values so far, where it is a length or a range.
fn values_left(
    alloc: Global,
    base: Option<Base>,
    values: &[Bounds],
    left: Sequence<Bounds>,
    statement: &Statement,
) -> Result<Sequence<Bounds>, Memory>
    ensures { IfOk result
        (λ found. found ≡ values_left base values.now left (declaration statement.now)) }
{
    if !is_restriction(base, statement) {
        return Ok(left);
    }
    match parts_in(alloc, values, statement)? {
        Some(parts) => common(alloc, left.items(), parts.items()),
        None => Ok(left),
    }
}

/// What a type statement leaves of the values of the type that it restricts.
fn values_by(
    alloc: Global,
    base: Option<Base>,
    values: &[Bounds],
    statement: &Statement,
) -> Result<Sequence<Bounds>, Memory>
    ensures { IfOk result (λ found. found ≡ values_by base values.now (declaration statement.now)) }
{
    let mut left = copy(alloc, values)?;
    for child in statement.block.items() {
        left = values_left(alloc, base, values, left, child)?;
    }
    Ok(left)
}

/// The type statement of the typedef that a meaning is, and what that stands for.
fn next_typedef<'a>(names: &Names<'a>, meaning: Meaning) -> Option<(&'a Statement, Meaning)>
    ensures { option_map (λ t. (declaration t.0.now, t.1)) result
        ≡ next_typedef names.now meaning }
{
    match meaning {
        Meaning::Goes(number, place) => match typedef_type(names, number, place) {
            Some(statement) => Some((statement, names.type_meaning(number, &statement.argument))),
            None => None,
        },
        Meaning::Ends(_) | Meaning::Nothing => None,
    }
}

/// The type statements of the typedefs behind a meaning, the nearest first.
fn typedef_types<'a>(
    alloc: Global,
    names: &Names<'a>,
    meaning: Meaning,
) -> Result<Vec<&'a Statement>, Memory>
    ensures { IfOk result (λ found. map (λ s. declaration s.now) found.items
        ≡ types_within names.now most_steps meaning) }
{
    let mut found = Vec::new(alloc);
    let mut behind = meaning;
    for step in 0..MOST_STEPS {
        match next_typedef(names, behind) {
            Some((statement, next)) => {
                found.push(statement)?;
                behind = next;
            }
            None => return Ok(found),
        }
    }
    Ok(found)
}

/// What type statements leave of the values of the type behind them, the nearest last.
fn values_along(
    alloc: Global,
    base: Option<Base>,
    values: Sequence<Bounds>,
    statements: &[&Statement],
) -> Result<Sequence<Bounds>, Memory>
    ensures { IfOk result (λ found. found
        ≡ fold (values_by base) values (map (λ s. declaration s.now) statements.now)) }
{
    let mut left = values;
    for statement in statements {
        left = values_by(alloc, base, left.items(), statement)?;
    }
    Ok(left)
}

/// What the typedefs behind a meaning leave of the values of their base.
fn values_behind(
    alloc: Global,
    names: &Names,
    meaning: Meaning,
    base: Option<Base>,
) -> Result<Sequence<Bounds>, Memory>
    ensures { IfOk result (λ found. found ≡ values_behind names.now meaning base) }
{
    let mut statements = typedef_types(alloc, names, meaning)?;
    statements.reverse();
    let first = only(alloc, base_bounds(base))?;
    values_along(alloc, base, first, statements.as_slice())
}

/// The values of the type that a type statement of a module restricts.
pub(crate) fn restricted_values(
    alloc: Global,
    names: &Names,
    number: usize,
    statement: &Statement,
) -> Result<Sequence<Bounds>, Memory>
    ensures { IfOk result
        (λ found. found ≡ restricted_values names.now number (declaration statement.now)) }
{
    let meaning = names.type_meaning(number, &statement.argument);
    let base = names.base_of(number, &statement.argument);
    match base {
        None => only(alloc, base_bounds(base)),
        Some(_) => values_behind(alloc, names, meaning, base),
    }
}

/// The parts of a length or a range at a type statement of a module, where the text is one. The typedefs
/// are looked at only where it needs their values.
pub(crate) fn parts_at(
    alloc: Global,
    names: &Names,
    number: usize,
    statement: &Statement,
    text: &str,
) -> Result<Option<Sequence<Bounds>>, Memory>
    ensures { IfOk result (λ found. found
        ≡ parts (restricted_values names.now number (declaration statement.now)) text.now) }
{
    match parts(alloc, &[], text) {
        Ok(Some(found)) => Ok(Some(found)),
        Ok(None) => {
            let values = restricted_values(alloc, names, number, statement)?;
            parts(alloc, values.items(), text)
        }
        Err(memory) => Err(memory),
    }
}

/// The parts of a statement in a type statement of a module, where it is a length or a range.
pub(crate) fn parts_in_at(
    alloc: Global,
    names: &Names,
    number: usize,
    statement: &Statement,
    child: &Statement,
) -> Result<Option<Sequence<Bounds>>, Memory>
    ensures { IfOk result (λ found. found
        ≡ parts_in (restricted_values names.now number (declaration statement.now))
        (declaration child.now)) }
{
    match &child.argument {
        Some(text) => parts_at(alloc, names, number, statement, text.as_str()),
        None => Ok(None),
    }
}

//! Defaults, also at types that lead to circles of typedefs and leafrefs: of these it is found out, one
//! step after another, what a type of so many steps makes of the text, until a step changes nothing.
ghost use Rattle.std.specs.Prelude.{◌≡◌, ◌+◌, ◌∷◌, Bool, List, ℕ, All, Contains, IsTrue, map, false, IfOk, IfSome};
ghost use Rattle.std.specs.List.{AllZip};
ghost use Rattle.yang_text.specs.Statements.{declaration};
ghost use Rattle.yang_types.specs.DataTypes.{data_type};
ghost use Rattle.yang_scope.specs.Faults.{least_of};
ghost use Rattle.yang_scope.specs.TypeFaults.{DecidesPatterns};
ghost use Rattle.yang_types.specs.DataType.{DataType};
ghost use Rattle.yang_values.specs.Defaults.{DecidesTexts, bad_text, bad_default};
ghost use Rattle.yang_values.specs.Endless.{known_of, place_of, untried, HasTaste, StandsFor, AreClosed, AreRight, LeadTo};
ghost use Rattle.yang_values.specs.TypeValues.{type_within, stored_type};
ghost use Rattle.yang_values.specs.Values.{most_steps};
ghost use Rattle.yang_values.specs.Walks.{placed};
ghost use Rattle.yang_values.specs.WrittenTypes.{written_type};

use crate::circles::{is_same, reached};
use crate::defaults::{has_leafref, note_bad_default};
use crate::endings::Endings;
use crate::place_lists::Numbers;
use crate::restrictions::type_by;
use crate::type_values::stored_type;
use crate::walks::{MOST_STEPS, Place, next};
use host_core::{Memory, Sequence, Txt};
use std::alloc::Global;
use yang_scope::{Fault, Names, note};
use yang_text::{ModelWhy, Statement};
use yang_types::{Target, Ty, TyBox, accepts_plain};

/// What is known of a type: whether it is a leafref or holds one, and whether it accepts the text.
#[derive(Clone, Copy)]
struct Taste {
    holds: bool,
    accepts: bool,
}

/// A type statement, and what is known of its type.
#[derive(Clone, Copy)]
struct Known<'a> {
    place: Place<'a>,
    taste: Taste,
}

/// What statements are known for after a step, and whether that is more than before.
#[derive(Drop)]
struct Round<'a> {
    known: Vec<Known<'a>>,
    changed: bool,
}

fn taste_of(ty: &Ty, text: &str) -> Taste
    ensures { HasTaste text.now (data_type ty.now) result }
{
    Taste {
        holds: has_leafref(ty),
        accepts: accepts_plain(ty, text),
    }
}

/// A type of which this holds, whatever the text.
fn stand_in(alloc: Global, taste: Taste) -> Result<Ty, Memory>
    ensures { IfOk result (λ ty. (s : List ℕ) → HasTaste s (data_type ty) taste) }
{
    let inner = if taste.accepts {
        Ty::Text
    } else {
        Ty::OneOf(Sequence::new(alloc))
    };
    if !taste.holds {
        return Ok(inner);
    }
    let inner = TyBox::new(alloc, inner)?;
    let target = Target {
        table: Txt::new(alloc, "")?,
        shape: 0,
        part: 0,
    };
    Ok(Ty::Ref(target, inner))
}

/// What is known of a type statement, where it is at an index.
fn taste_at(known: &[Known], index: Option<usize>, place: &Place) -> Option<Taste>
    ensures { IfSome result
        (λ taste. Contains (map known_of known.now) (placed place.now, taste)) }
{
    match index {
        Some(i) => {
            if i < known.len() && is_same(&known[i].place, place) {
                return Some(known[i].taste);
            }
            None
        }
        None => None,
    }
}

/// What is known of a type statement, found by going over all.
fn search_taste(known: &[Known], place: &Place) -> Taste
    requires { Contains (map place_of known.now) (placed place.now) }
    ensures { Contains (map known_of known.now) (placed place.now, result) }
{
    for entry in known {
        if is_same(&entry.place, place) {
            return entry.taste;
        }
    }
    Taste {
        holds: false,
        accepts: false,
    }
}

/// What is known of a type statement.
fn find_taste(known: &[Known], numbers: &Numbers, place: &Place) -> Taste
    requires { Contains (map place_of known.now) (placed place.now) }
    ensures { Contains (map known_of known.now) (placed place.now, result) }
{
    match taste_at(known, numbers.get(place), place) {
        Some(taste) => taste,
        None => search_taste(known, place),
    }
}

/// The numbers of those that something is known of.
fn numbers_of(alloc: Global, known: &[Known]) -> Result<Numbers, Memory> {
    let mut numbers = Numbers::new(alloc);
    for (number, entry) in known.iter().enumerate() {
        numbers.put(&entry.place, number)?;
    }
    Ok(numbers)
}

/// Types that stand for those of some statements.
fn stand_ins(
    alloc: Global,
    known: &[Known],
    numbers: &Numbers,
    places: &[Place],
) -> Result<Vec<Ty>, Memory>
    requires { All (Contains (map place_of known.now)) (map placed places.now) }
    ensures { IfOk result (λ types. AllZip (StandsFor (map known_of known.now))
        (map placed places.now) (map data_type types.items)) }
{
    let mut types = Vec::new(alloc);
    for place in places {
        let taste = find_taste(known, numbers, place);
        types.push(stand_in(alloc, taste)?)?;
    }
    Ok(types)
}

/// What is known of a type statement after one step more.
fn next_taste<'a>(
    alloc: Global,
    names: &Names<'a>,
    text: &str,
    known: &[Known<'a>],
    numbers: &Numbers,
    place: Place<'a>,
) -> Result<Taste, Memory>
    requires there { Contains (map place_of known.now) (placed place) }
    requires closed { AreClosed names.now (map place_of known.now) }
    ensures { IfOk result (λ taste. (is_pattern : List ℕ → Bool) → DecidesPatterns is_pattern
        → (most : ℕ) → AreRight is_pattern names.now text.now most (map known_of known.now)
        → HasTaste text.now
        (type_within is_pattern names.now (most + 1) (placed place.entry)) taste) }
{
    let places = next(alloc, names, place)?;
    let types = stand_ins(alloc, known, numbers, places.as_slice())?;
    let ty = type_by(alloc, names, place.number, place.statement, types)?;
    let taste = taste_of(&ty, text);
    drop(ty);
    Ok(taste)
}

fn is_same_taste(one: Taste, other: Taste) -> bool
    ensures { IsTrue result → one ≡ other }
{
    one.holds == other.holds && one.accepts == other.accepts
}

/// What is known of all after one step more.
fn next_round<'a>(
    alloc: Global,
    names: &Names<'a>,
    text: &str,
    known: &[Known<'a>],
    numbers: &Numbers,
) -> Result<Round<'a>, Memory>
    requires closed { AreClosed names.now (map place_of known.now) }
    ensures places { IfOk result (λ r. map place_of r.known.items ≡ map place_of known.now) }
    ensures same { IfOk result (λ r. r.changed ≡ false
        → map known_of r.known.items ≡ map known_of known.now) }
    ensures right { IfOk result (λ r. LeadTo names.now text.now
        (map known_of known.now) (map known_of r.known.items)) }
{
    let mut more = Vec::new(alloc);
    let mut changed = false;
    for entry in known {
        let taste = next_taste(alloc, names, text, known, numbers, entry.place)?;
        let same = is_same_taste(taste, entry.taste);
        changed = changed | !same;
        more.push(Known {
            place: entry.place,
            taste,
        })?;
    }
    Ok(Round {
        known: more,
        changed,
    })
}

/// What is known of all after as many steps as a type is read.
fn settle<'a>(
    alloc: Global,
    names: &Names<'a>,
    text: &str,
    known: Vec<Known<'a>>,
    numbers: &Numbers,
) -> Result<Vec<Known<'a>>, Memory>
    requires closed { AreClosed names.now (map place_of known.items) }
    requires right { (is_pattern : List ℕ → Bool)
        → AreRight is_pattern names.now text.now 0 (map known_of known.items) }
    ensures places { IfOk result (λ all. map place_of all.items ≡ map place_of known.entry.items) }
    ensures right { IfOk result (λ all. (is_pattern : List ℕ → Bool) → DecidesPatterns is_pattern
        → AreRight is_pattern names.now text.now most_steps (map known_of all.items)) }
{
    let mut known = known;
    for steps in 0..MOST_STEPS {
        let round = next_round(alloc, names, text, known.as_slice(), numbers)?;
        if !round.changed {
            return Ok(known);
        }
        known = round.known;
    }
    Ok(known)
}

/// What is known of statements of which no step was gone.
fn begin<'a>(
    alloc: Global,
    place: Place<'a>,
    others: &[Place<'a>],
) -> Result<Vec<Known<'a>>, Memory>
    ensures { IfOk result (λ known. map known_of known.items
        ≡ map untried (placed place.entry ∷ map placed others.now)) }
{
    let taste = Taste {
        holds: false,
        accepts: true,
    };
    let mut known = Vec::new(alloc);
    known.push(Known { place, taste })?;
    for other in others {
        known.push(Known {
            place: *other,
            taste,
        })?;
    }
    Ok(known)
}

/// What a type makes of a text, whether it leads to a circle or not.
fn endless_taste<'a>(
    alloc: Global,
    names: &Names<'a>,
    text: &str,
    place: Place<'a>,
) -> Result<Taste, Memory>
    ensures { IfOk result (λ taste. (is_pattern : List ℕ → Bool) → DecidesPatterns is_pattern
        → HasTaste text.now
        (type_within is_pattern names.now most_steps (placed place.entry)) taste) }
{
    let places = reached(alloc, names, place)?;
    let known = begin(alloc, place, places.items.as_slice())?;
    let numbers = numbers_of(alloc, known.as_slice())?;
    let known = settle(alloc, names, text, known, &numbers)?;
    Ok(find_taste(known.as_slice(), &numbers, &place))
}

/// A text that a type statement's type doesn't take as a default, whether that leads to a circle or not.
fn note_endless<'a>(
    alloc: Global,
    least: &mut Option<Fault>,
    names: &Names<'a>,
    file: u32,
    place: Place<'a>,
    default: &Statement,
    text: &str,
) -> Result<(), Memory>
    ensures { IfOk result (λ _. (is_pattern : List ℕ → Bool) → DecidesPatterns is_pattern
        → (accepts : DataType → List ℕ → Bool) → DecidesTexts accepts
        → least.new ≡ least_of least.old (bad_text accepts file
        (type_within is_pattern names.now most_steps (placed place.entry))
        (declaration default.now) text.now)) }
{
    let taste = endless_taste(alloc, names, text, place)?;
    if taste.holds {
        note(least, file, default.line, ModelWhy::BadArgument);
    } else if !taste.accepts {
        note(least, file, default.line, ModelWhy::BadArgument);
    }
    Ok(())
}

/// A default that the type which is stored of a type statement beside it doesn't take. Where it is known that
/// each way on from that ends, its type is looked at as a value.
fn note_by_type<'n, 'a>(
    alloc: Global,
    least: &mut Option<Fault>,
    endings: &Endings<'n, 'a>,
    file: u32,
    number: usize,
    statement: &'a Statement,
    default: &Statement,
) -> Result<(), Memory>
    ensures { IfOk result (λ _. (is_pattern : List ℕ → Bool) → DecidesPatterns is_pattern
        → (accepts : DataType → List ℕ → Bool) → DecidesTexts accepts
        → least.new ≡ least_of least.old (bad_default accepts file
        (stored_type is_pattern endings.now number (declaration statement.now))
        (declaration default.now))) }
{
    let place = Place { number, statement };
    if endings.does_end(&place) {
        let ty = stored_type(alloc, endings.names(), number, statement)?;
        note_bad_default(least, &ty, file, default);
        drop(ty);
        return Ok(());
    }
    match &default.argument {
        Some(text) => {
            note_endless(
                alloc,
                least,
                endings.names(),
                file,
                place,
                default,
                text.as_str(),
            )
        }
        None => Ok(()),
    }
}

/// A default that the type of a type statement beside it doesn't take.
pub fn note_default<'n, 'a>(
    alloc: Global,
    least: &mut Option<Fault>,
    endings: &Endings<'n, 'a>,
    file: u32,
    number: usize,
    statement: &'a Statement,
    default: &Statement,
) -> Result<(), Memory>
    ensures { IfOk result (λ _. (is_pattern : List ℕ → Bool) → DecidesPatterns is_pattern
        → (accepts : DataType → List ℕ → Bool) → DecidesTexts accepts
        → least.new ≡ least_of least.old (bad_default accepts file
        (written_type is_pattern endings.now number (declaration statement.now))
        (declaration default.now))) }
{
    note_by_type(alloc, least, endings, file, number, statement, default)
}

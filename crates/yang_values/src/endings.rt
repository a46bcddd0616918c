//! Ways on from type statements that end, found for all type statements of the modules at once: each is
//! looked at once it is known of all that it leads to.
ghost use Rattle.std.specs.Prelude.{◌≡◌, Bool, IsTrue, All, IfOk};
ghost use Rattle.yang_text.specs.Statements.{declaration};
ghost use Rattle.yang_scope.specs.Faults.{least_of};
ghost use Rattle.yang_scope.specs.Paths.{Placed};
ghost use Rattle.yang_values.specs.Circles.{DecidesCircles, circle};
ghost use Rattle.yang_values.specs.Endings.{DoesEnd, leads_on};
ghost use Rattle.yang_values.specs.Walks.{placed};

use crate::circles::note_circle;
use crate::place_lists::{Numbers, Places};
use crate::statements::is_keyword;
use crate::walks::{Place, next};
use host_core::Memory;
use std::alloc::Global;
use std::marker::Model;
use yang_scope::{Base, Fault, Names};
use yang_text::Statement;

/// The type statements of which it is known that each way on from them ends, by the names that these are
/// read with. Contracts see the list of the modules.
#[derive(Drop)]
pub struct Endings<'n, 'a> {
    names: &'n Names<'a>,
    places: Places<'a>,
}

impl<'n, 'a> Model for Endings<'n, 'a> {
    ghost use Rattle.std.specs.Prelude.{List, All};
    ghost use Rattle.std.specs.Coded.{coded_list};
    ghost use Rattle.yang_scope.specs.Coding.{coded_module};
    ghost use Rattle.yang_scope.specs.Modules.{Module};
    ghost use Rattle.yang_values.specs.Endings.{DoesEnd};
    ghost use Rattle.yang_values.specs.Walks.{placed};

    ghost Value = { List Module };

    ghost coded = { coded_list coded_module };

    ghost view = { λ e. e.names.now };

    ghost invariant = { λ e. All (λ p. DoesEnd e.names.now (placed p)) e.places.items.items };
}

/// A type statement that is to be looked at: what it leads to first, or again when all that was.
#[derive(Clone, Copy)]
struct Turn<'a> {
    again: bool,
    place: Place<'a>,
}

/// Which type statements were looked at, and which are to be.
#[derive(Drop)]
struct Walk<'a> {
    entered: Numbers,
    pending: Vec<Turn<'a>>,
}

/// Whether a type with this base may lead to others.
fn leads_on(base: Option<Base>) -> bool
    ensures { result ≡ leads_on base }
{
    match base {
        Some(Base::Leafref) | Some(Base::Union) | None => true,
        Some(_) => false,
    }
}

/// Puts a type statement on those that are to be looked at, and above it what it leads to.
fn enter<'a>(walk: &mut Walk<'a>, place: Place<'a>, places: &[Place<'a>]) -> Result<(), Memory> {
    walk.entered.put(&place, 0)?;
    walk.pending.push(Turn { again: true, place })?;
    for other in places {
        walk.pending.push(Turn {
            again: false,
            place: *other,
        })?;
    }
    Ok(())
}

/// Adds the type statements among some statements of a module and in them.
fn push_types<'a>(
    places: &mut Vec<Place<'a>>,
    number: usize,
    statements: &'a [Statement],
) -> Result<(), Memory> {
    for statement in statements {
        if is_keyword("type", statement) {
            places.push(Place { number, statement })?;
        }
        push_types(places, number, statement.block.items())?;
    }
    Ok(())
}

/// The type statements of a module.
fn types_of<'a>(alloc: Global, names: &Names<'a>, number: usize) -> Result<Vec<Place<'a>>, Memory> {
    let mut places = Vec::new(alloc);
    if let Some((_, module)) = names.module_at(number) {
        push_types(&mut places, number, module.block.items())?;
    }
    Ok(places)
}

impl<'n, 'a> Endings<'n, 'a> {
    /// What is known of no type statements.
    fn of_none(alloc: Global, names: &'n Names<'a>) -> Endings<'n, 'a>
        ensures { result ≡ names.now }
    {
        Endings {
            names,
            places: Places::new(alloc),
        }
    }

    /// The names.
    pub(crate) fn names(&self) -> &'n Names<'a>
        ensures { result.now ≡ self.now }
    {
        self.names
    }

    /// Whether it is known that each way on from a type statement ends. It is always where typedefs end
    /// at a text, a number or the like.
    pub(crate) fn does_end(&self, place: &Place) -> bool
        ensures { IsTrue result → DoesEnd self.now (placed place.now) }
    {
        if !leads_on(self.names.base_of(place.number, &place.statement.argument)) {
            return true;
        }
        self.places.has(place)
    }

    /// Whether it is known of all of some type statements.
    fn do_end(&self, places: &[Place]) -> bool
        ensures { IsTrue result → All (λ p. DoesEnd self.now (placed p)) places.now }
    {
        for place in places {
            if !self.does_end(place) {
                return false;
            }
        }
        true
    }

    /// Adds a type statement, where it is known of all that it leads to.
    fn add_if_ends(&mut self, alloc: Global, place: Place<'a>) -> Result<(), Memory>
        ensures { self.new ≡ self.old }
    {
        let places = next(alloc, self.names, place)?;
        if self.do_end(places.as_slice()) {
            self.places.push(&place)?;
        }
        Ok(())
    }

    /// Looks at a type statement.
    fn take_turn(
        &mut self,
        alloc: Global,
        walk: &mut Walk<'a>,
        turn: Turn<'a>,
    ) -> Result<(), Memory>
        ensures { self.new ≡ self.old }
    {
        if turn.again {
            return self.add_if_ends(alloc, turn.place);
        }
        if self.does_end(&turn.place) || walk.entered.get(&turn.place).is_some() {
            return Ok(());
        }
        let places = next(alloc, self.names, turn.place)?;
        enter(walk, turn.place, places.as_slice())
    }

    /// Looks at a type statement and at all that it leads to.
    fn add_from(
        &mut self,
        alloc: Global,
        walk: &mut Walk<'a>,
        place: Place<'a>,
    ) -> Result<(), Memory>
        ensures { self.new ≡ self.old }
    {
        walk.pending.push(Turn {
            again: false,
            place,
        })?;
        for round in 0..u64::MAX {
            match walk.pending.pop() {
                Some(turn) => self.take_turn(alloc, walk, turn)?,
                None => return Ok(()),
            }
        }
        Ok(())
    }

    /// Looks at the type statements of a module.
    fn add_module(
        &mut self,
        alloc: Global,
        walk: &mut Walk<'a>,
        number: usize,
    ) -> Result<(), Memory>
        ensures { self.new ≡ self.old }
    {
        let places = types_of(alloc, self.names, number)?;
        for place in places.as_slice() {
            self.add_from(alloc, walk, *place)?;
        }
        Ok(())
    }

    /// Looks at all type statements of the modules of some names.
    pub fn new(alloc: Global, names: &'n Names<'a>) -> Result<Endings<'n, 'a>, Memory>
        ensures { IfOk result (λ endings. endings ≡ names.now) }
    {
        let mut endings = Endings::of_none(alloc, names);
        let mut walk = Walk {
            entered: Numbers::new(alloc),
            pending: Vec::new(alloc),
        };
        for number in 0..names.len() {
            endings.add_module(alloc, &mut walk, number)?;
        }
        Ok(endings)
    }
}

/// A type statement of a module that lies on a circle of typedefs and leafrefs, through unions too. Where
/// it is known that each way on from it ends, that takes no walk.
pub fn note_if_circle<'n, 'a>(
    alloc: Global,
    least: &mut Option<Fault>,
    endings: &Endings<'n, 'a>,
    file: u32,
    number: usize,
    statement: &'a Statement,
) -> Result<(), Memory>
    ensures { IfOk result (λ _. (is_on_circle : Placed → Bool)
        → DecidesCircles endings.now is_on_circle → least.new ≡ least_of least.old
        (circle is_on_circle file number (declaration statement.now))) }
{
    if endings.does_end(&Place { number, statement }) {
        return Ok(());
    }
    note_circle(alloc, least, endings.names(), file, number, statement)
}

//! An iterator over wants, which hands them out one after another.
ghost use Rattle.std.specs.Prelude.{◌≡◌, ◌<◌, ◌+◌, ◌^◌, true, false, IfSome};
ghost use Rattle.conf_check.specs.EntryShapes.{IsShapeAt};
ghost use Rattle.conf_check.specs.FirstWants.{start_of};
ghost use Rattle.conf_check.specs.Wants.{IsNamed, want_of};

use crate::first_wants::{first_by_shape, first_want, start_of_entry};
use crate::rows::shape_at_place;
use conf_doc::Config;
use yang_model::{Models, Shape};
use yang_types::{Target, texts_are_decided};

/// Where a text stands that has a want: a table, a key and a field by their positions in the
/// configuration, and the number of an item of the field, or with no field of a part of the key.
#[derive(Clone, Copy, Debug, Drop, Eq, PartialEq)]
pub struct WantPlace {
    pub table: usize,
    pub key: usize,
    pub field: Option<usize>,
    pub item: usize,
}

/// The text that some entry of a shape of a table is to have as a part of its key.
#[derive(Clone, Copy, Drop)]
pub struct Want<'a> {
    pub table: &'a str,
    /// The number of the shape in its table, from 0.
    pub shape: u32,
    /// The number of the part, from 0.
    pub part: u32,
    pub text: &'a str,
}

/// A want and where the text stands that has it: at a field of an entry, or with no field in its key.
#[derive(Clone, Copy, Drop)]
pub struct WantAt<'a> {
    pub table: &'a str,
    pub key: &'a str,
    pub field: Option<&'a str>,
    /// The number of the part of the key or of the item of the field, from 0. A leaf has one item.
    pub item: usize,
    pub want: Want<'a>,
}

/// The wants of a configuration, or of one entry, from a place on.
#[derive(Drop)]
pub struct WantIter<'a> {
    models: &'a Models,
    config: &'a Config,
    from: WantPlace,
    /// Whether only the wants of the entry at the place are handed out.
    one_entry: bool,
    /// The shape of that one entry, which is found once. None where it belongs to none.
    shape: Option<&'a Shape>,
    ghost shaped: { one_entry ≡ true
        → ∥ IsShapeAt models.now config.now from.table from.key shape ∥₁ },
}

impl<'a> Want<'a> {
    /// The want of a text that is to stand at a leaf of a key.
    pub(crate) fn new(target: &'a Target, text: &'a str) -> Want<'a>
        ensures { want_of result ≡ record { target = target.now; text = text.now } }
    {
        Want {
            table: target.table.as_str(),
            shape: target.shape,
            part: target.part,
            text,
        }
    }
}

impl<'a> WantIter<'a> {
    ghost use Rattle.conf_check.specs.WantRuns.{IsFirstAhead};

    /// The wants of a configuration.
    pub(crate) fn of_configuration(models: &'a Models, config: &'a Config) -> WantIter<'a>
        ensures models { result.models.now ≡ models.now }
        ensures config { result.config.now ≡ config.now }
        ensures from { result.from ≡ start_of 0 0 }
        ensures whole { result.one_entry ≡ false }
    {
        WantIter {
            models,
            config,
            from: start_of_entry(0, 0),
            one_entry: false,
            shape: None,
        }
    }

    /// The wants of the entry at a place, from that place on.
    pub(crate) fn of_entry(models: &'a Models, config: &'a Config, from: WantPlace) -> WantIter<'a>
        ensures models { result.models.now ≡ models.now }
        ensures config { result.config.now ≡ config.now }
        ensures from { result.from ≡ from }
        ensures one { result.one_entry ≡ true }
    {
        let shape = shape_at_place(models, config, from.table, from.key);
        WantIter {
            models,
            config,
            from,
            one_entry: true,
            shape,
        }
    }

    /// The first want ahead.
    fn first_ahead(&self) -> Option<(WantPlace, WantAt<'a>)>
        ensures first { IsFirstAhead self.now result }
        ensures named { IfSome result (λ a. IsNamed self.now.config.now a.0 a.1) }
        ensures small { IfSome result (λ a. a.0.item + 1 < 2 ^ 64) }
    {
        if self.one_entry {
            texts_are_decided();
            first_by_shape(self.models, self.config, self.shape, self.from)
        } else {
            first_want(self.models, self.config, self.from)
        }
    }
}

/// A machine's number has a bound. The body does nothing: the law is the contract.
fn is_small(_number: usize)
    ensures { _number < 2 ^ 64 }
{}

impl WantPlace {
    ghost use Rattle.conf_check.specs.WantRuns.{AreSmall};

    /// The numbers of a place are a machine's. The body reads them and does nothing else: the law is the
    /// contract.
    fn has_small_numbers(&self)
        ensures { AreSmall self.now }
    {
        let _table = self.table;
        let _key = self.key;
        let _item = self.item;
        match self.field {
            Some(field) => is_small(field),
            None => {}
        }
    }
}

impl<'a> Iterator for WantIter<'a> {
    ghost use Rattle.std.specs.Iterator.{at_most};
    ghost use Rattle.conf_check.specs.WantRuns.{GivesNextWant, places_left};

    type Item = WantAt<'a>;

    ghost next_gives = { GivesNextWant };

    ghost remaining = { λ s. at_most (places_left s.from) };

    fn next(&mut self) -> Option<WantAt<'a>> {
        self.from.has_small_numbers();
        let (place, at) = self.first_ahead()?;
        self.from = WantPlace {
            table: place.table,
            key: place.key,
            field: place.field,
            item: place.item + 1,
        };
        Some(at)
    }
}

//! The index of referrers of a configuration.
ghost use Rattle.std.specs.Prelude.{◌≡◌, IfOk, OnOk, OnErr};
ghost use Rattle.ref_index.specs.Agreements.{AgreeBut};
ghost use Rattle.ref_index.specs.EntryNames.{AreDifferences};
ghost use Rattle.ref_index.specs.PlaceMaps.{IsMapOf, PutsAll, PutsSome, TakesAll};
ghost use Rattle.ref_index.specs.Referrers.{AreReferrers, want_for};

use crate::differences::changed_wants;
use crate::entry_names::{EntryName, differences, differences_but};
use crate::place_maps::PlaceMap;
use crate::places::Place;
use conf_check::{Want, WantAt};
use conf_doc::Config;
use host_core::Memory;
use std::alloc::Global;
use std::marker::Model;
use std::snapshot::Snapshot;
use yang_model::Models;

/// The places of a configuration by what they want. Contracts see the models that it was built with and the
/// configuration. Of the models nothing is kept.
#[derive(Drop)]
pub struct RefIndex {
    models: Snapshot<Models>,
    config: Config,
    places: PlaceMap,
}

impl Model for RefIndex {
    ghost use Rattle.ref_index.specs.Referrers.{Indexed};

    ghost Value = { Indexed };

    ghost use Rattle.ref_index.specs.Codes.{coded_indexed};

    ghost coded = { coded_indexed };

    ghost use Rattle.ref_index.specs.PlaceMaps.{IsMapOf};

    ghost view = { λ ix. record { models = ix.models.value; config = ix.config } };

    ghost invariant = { λ ix. IsMapOf ix.models.value ix.config ix.places };
}

/// Takes the places of some wants out.
fn take_all(places: &mut PlaceMap, wants: &[WantAt])
    ensures { TakesAll wants.now places.old places.new }
{
    for at in wants {
        places.take(at);
    }
}

/// Adds the places of some wants. Without memory it leaves some of them added.
fn put_all(alloc: Global, places: &mut PlaceMap, wants: &[WantAt]) -> Result<(), Memory>
    ensures ok { OnOk result (PutsAll wants.now places.old places.new) }
    ensures err { OnErr result (PutsSome wants.now places.old places.new) }
{
    for at in wants {
        places.put(alloc, at)?;
    }
    Ok(())
}

/// Makes the map of a configuration that of another one, where the wants of no other entries differ: what is
/// new is added first, and where that fails it is taken out again.
fn move_named(
    alloc: Global,
    models: &Models,
    config: &Config,
    next: &Config,
    names: &[EntryName],
    places: &mut PlaceMap,
) -> Result<(), Memory>
    requires map { IsMapOf models.now config.now places.old }
    requires apart { AreDifferences models.now config.now next.now names.now }
    ensures ok { OnOk result (IsMapOf models.now next.now places.new) }
    ensures err { OnErr result (IsMapOf models.now config.now places.new) }
{
    let changes = changed_wants(alloc, models, config, next, names)?;
    match put_all(alloc, places, changes.come.as_slice()) {
        Ok(()) => {
            take_all(places, changes.gone.as_slice());
            Ok(())
        }
        Err(error) => {
            take_all(places, changes.come.as_slice());
            Err(error)
        }
    }
}

/// Makes the map of a configuration that of another one.
fn move_places(
    alloc: Global,
    models: &Models,
    config: &Config,
    next: &Config,
    places: &mut PlaceMap,
) -> Result<(), Memory>
    requires { IsMapOf models.now config.now places.old }
    ensures ok { OnOk result (IsMapOf models.now next.now places.new) }
    ensures err { OnErr result (IsMapOf models.now config.now places.new) }
{
    let apart = differences(alloc, config, next)?;
    move_named(alloc, models, config, next, apart.as_slice(), places)
}

/// Makes the map of a configuration that of another one, which agrees with it but for one entry.
fn move_entry(
    alloc: Global,
    models: &Models,
    config: &Config,
    next: &Config,
    table: &str,
    key: &str,
    places: &mut PlaceMap,
) -> Result<(), Memory>
    requires map { IsMapOf models.now config.now places.old }
    requires agree { AgreeBut config.now next.now table.now key.now }
    ensures ok { OnOk result (IsMapOf models.now next.now places.new) }
    ensures err { OnErr result (IsMapOf models.now config.now places.new) }
{
    let apart = differences_but(alloc, models, config, next, table, key)?;
    move_named(alloc, models, config, next, apart.as_slice(), places)
}

impl RefIndex {
    /// The index of a configuration.
    pub fn build(alloc: Global, models: &Models, config: &Config) -> Result<RefIndex, Memory>
        ensures { IfOk result (λ ix. ix ≡ record { models = models.now; config = config.now }) }
    {
        let mut index = RefIndex {
            models: Snapshot::of(models),
            config: Config::new(alloc),
            places: PlaceMap::new(alloc),
        };
        index.move_to(alloc, models, config)?;
        Ok(index)
    }

    /// Makes it the index of another configuration. Both are gone through once, side by side. The wants are
    /// looked at only of entries that differ, and of those with a text that is a part of a key that came or
    /// went. Without memory it stays as it was. The models are those that it was built with.
    pub fn move_to(&mut self, alloc: Global, models: &Models, next: &Config) -> Result<(), Memory>
        requires { self.old.models ≡ models.now }
        ensures ok { OnOk result
            (self.new ≡ record { models = self.old.models; config = next.now }) }
        ensures err { OnErr result (self.new ≡ self.old) }
    {
        let config = next.copy(alloc)?;
        move_places(alloc, models, &self.config, next, &mut self.places)?;
        self.config = config;
        Ok(())
    }

    /// The same where both configurations agree but for one entry. The wants are looked at only of that one,
    /// and where it comes or goes of those with a text that is a part of its key, in tables with a leafref to its table.
    pub fn move_by(
        &mut self,
        alloc: Global,
        models: &Models,
        next: &Config,
        table: &str,
        key: &str,
    ) -> Result<(), Memory>
        requires models { self.old.models ≡ models.now }
        requires agree { AgreeBut self.old.config next.now table.now key.now }
        ensures ok { OnOk result
            (self.new ≡ record { models = self.old.models; config = next.now }) }
        ensures err { OnErr result (self.new ≡ self.old) }
    {
        let config = next.copy(alloc)?;
        let places = &mut self.places;
        move_entry(alloc, models, &self.config, next, table, key, places)?;
        self.config = config;
        Ok(())
    }

    /// The places that want a text as a part, counted from 0, of the keys of a shape of a table. It takes
    /// no memory.
    pub fn referrers(&self, table: &str, shape: u32, part: u32, text: &str) -> &[Place]
        ensures { let want = want_for table.now shape part text.now in
            AreReferrers self.now.models self.now.config want result.now }
    {
        self.places.places(&Want {
            table,
            shape,
            part,
            text,
        })
    }

    /// The configuration. It takes no memory.
    pub fn config(&self) -> &Config
        ensures { result.now ≡ self.now.config }
    {
        &self.config
    }
}

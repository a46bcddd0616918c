//! What a rules file says. No name in it is empty.
use host_core::{Names, Sequence, Txt};

/// A field that no step may change while its entry exists.
#[derive(Drop)]
pub struct CreateOnly {
    pub table: Txt,
    pub field: Txt,
}

/// A place that may change only while a required field has its required value: the entry, or one field of
/// it, of each key whose part of that number, counted from 0, is the key of the required field's entry.
#[derive(Drop)]
pub struct Requiring {
    pub table: Txt,
    pub part: u32,
    pub field: Option<Txt>,
}

/// A field that must have a value while its requiring places change. Where it is absent, the default counts.
#[derive(Drop)]
pub struct Required {
    pub table: Txt,
    pub field: Txt,
    pub value: Txt,
    pub default: Txt,
    pub requiring: Sequence<Requiring>,
}

/// A service that is restarted after each step in one of the tables.
#[derive(Drop)]
pub struct ServiceTie {
    pub name: Txt,
    pub tables: Names,
}

/// All that a rules file says, each list in the order of the file.
#[derive(Drop)]
pub struct Settings {
    pub create_only: Sequence<CreateOnly>,
    pub required: Sequence<Required>,
    pub services: Sequence<ServiceTie>,
}

//! Where a text stands that has a want, by its names.
ghost use Rattle.std.specs.Prelude.{◌≡◌, IfOk, option_map};
ghost use Rattle.std.specs.Option.{option_cmp};
ghost use Rattle.std.specs.Ordering.{is_gt};
ghost use Rattle.host_core.specs.Names.{name_cmp};
ghost use Rattle.ref_index.specs.Places.{is_name, is_place, place_cmp};
ghost use Rattle.ref_index.specs.Referrers.{name_of, place_of};

use conf_check::WantAt;
use host_core::{Memory, Txt};
use std::alloc::Global;
use std::cmp::Ordering;

/// Where a text stands that has a want: the table, the key and the field of an entry, and the number of an
/// item of the field, or with no field of a part of the key. A leaf has one item.
#[derive(Debug, Drop)]
pub struct Place {
    pub table: Txt,
    pub key: Txt,
    pub field: Option<Txt>,
    pub item: usize,
}

/// A copy of the name of a field.
fn copy_field(alloc: Global, field: Option<&str>) -> Result<Option<Txt>, Memory>
    ensures { IfOk result (λ f. f ≡ option_map name_of field.entry) }
{
    match field {
        Some(name) => Ok(Some(Txt::new(alloc, name)?)),
        None => Ok(None),
    }
}

/// Whether a field has that name, or there is none where no name is given.
fn is_field(field: &Option<Txt>, name: Option<&str>) -> bool
    ensures { result ≡ is_name field.now (option_map name_of name.entry) }
{
    match (field, name) {
        (Some(field), Some(name)) => field.as_str() == name,
        (None, None) => true,
        _ => false,
    }
}

/// How the name of a field is ordered beside another one, where no name comes first.
fn compare_fields(name: Option<&str>, field: &Option<Txt>) -> Ordering
    ensures { result ≡ option_cmp name_cmp (option_map name_of name.entry) field.now }
{
    match (name, field) {
        (Some(name), Some(field)) => name.cmp(field.as_str()),
        (Some(_), None) => Ordering::Greater,
        (None, Some(_)) => Ordering::Less,
        (None, None) => Ordering::Equal,
    }
}

impl Place {
    /// The place of a want.
    pub(crate) fn new(alloc: Global, at: &WantAt) -> Result<Place, Memory>
        ensures { IfOk result (λ p. p ≡ place_of at.now) }
    {
        Ok(Place {
            table: Txt::new(alloc, at.table)?,
            key: Txt::new(alloc, at.key)?,
            field: copy_field(alloc, at.field)?,
            item: at.item,
        })
    }

    /// Whether it is the place of a want.
    pub(crate) fn is_of(&self, at: &WantAt) -> bool
        ensures { result ≡ is_place self.now (place_of at.now) }
    {
        self.item == at.item
            && is_field(&self.field, at.field)
            && self.key.as_str() == at.key
            && self.table.as_str() == at.table
    }
    /// Whether the place of a want comes after it, in the order of the tables, keys, fields and items.
    pub(crate) fn is_before(&self, at: &WantAt) -> bool
        ensures { result ≡ is_gt (place_cmp (place_of at.now) self.now) }
    {
        let table = at.table.cmp(self.table.as_str());
        let key = at.key.cmp(self.key.as_str());
        let field = compare_fields(at.field, &self.field);
        let item = at.item.cmp(&self.item);
        table.then(key).then(field).then(item).is_gt()
    }
}

//! The models of some texts, and what is asked of them.
ghost use Rattle.std.specs.Prelude.{◌<◌, ◌^◌, length};

use crate::belonging::first_that_fits;
use crate::name_index::NameIndex;
use crate::shapes::{IndexedShape, Shape};
use host_core::{Memory, Names, Sequence, Txt};
use key_split::KeyView;
use std::alloc::Global;
use std::marker::Model;
use yang_types::Ty;

/// The shapes of one table.
#[derive(Drop)]
pub(crate) struct TableShapes {
    pub(crate) name: Txt,
    /// The module that has it, a place among the modules.
    pub(crate) owner: u32,
    pub(crate) shapes: Sequence<IndexedShape>,
    ghost few: { length shapes < 2 ^ 32 },
}

/// The models of all tables. Contracts see the modules and the tables in the order of the texts.
#[derive(Drop)]
pub struct Models {
    modules: Names,
    tables: Sequence<TableShapes>,
    index: NameIndex,
}

impl Model for Models {
    ghost use Rattle.std.specs.Prelude.{map};
    ghost use Rattle.yang_model.specs.ModelSets.{ModelSet};
    ghost use Rattle.yang_model.specs.Names.{IsIndexOf};

    ghost Value = { ModelSet };

    ghost use Rattle.yang_model.specs.ShapeCodes.{coded_models};

    ghost coded = { coded_models };

    ghost use Rattle.yang_model.specs.TableModels.{table_model};

    ghost view = { λ m. record { modules = m.modules; tables = map table_model m.tables } };

    ghost use Rattle.yang_model.specs.Answers.{HaveFiles};

    ghost invariant = { λ m. IsIndexOf m.index.places (map (λ t. t.name) m.tables)
        × HaveFiles (record { modules = m.modules; tables = map table_model m.tables }) };
}

impl Models {
    ghost use Rattle.std.specs.Prelude.{◌≡◌, map, is_some, option_map, option_copied, IfOk};
    ghost use Rattle.yang_model.specs.Answers.{HaveFiles};
    ghost use Rattle.yang_model.specs.Belongs.{Belongs};
    ghost use Rattle.yang_model.specs.ModelSets.{table_named, shapes_of, shape_of, type_of_field, owner_of};
    ghost use Rattle.yang_model.specs.TableModels.{table_model};

    /// The models of some tables, which are found by name from now on.
    pub(crate) fn new(
        alloc: Global,
        modules: Names,
        tables: Sequence<TableShapes>,
    ) -> Result<Models, Memory>
        requires { HaveFiles (record { modules = modules; tables = map table_model tables }) }
        ensures { IfOk result
            (λ m. m ≡ record { modules = modules; tables = map table_model tables }) }
    {
        let mut index = NameIndex::new(alloc);
        for (i, table) in tables.items().iter().enumerate() {
            index.push(alloc, table.name.as_str(), i)?;
        }
        Ok(Models {
            modules,
            tables,
            index,
        })
    }

    /// The table of a name.
    fn table(&self, name: &str) -> Option<&TableShapes>
        ensures { option_map (λ t. table_model t.now) result ≡ table_named name.now self.now }
    {
        match self.index.place_of(name) {
            Some(i) => Some(self.tables.at(i)),
            None => None,
        }
    }

    /// They are the models of some files with which nothing is wrong. It is its contract alone: what is true
    /// of every value is at hand where a field is read.
    pub fn have_files(&self)
        ensures { HaveFiles self.now }
    {
        let _ = self.modules.len();
    }

    /// Whether there is a model of a table.
    pub fn modelled(&self, table: &str) -> bool
        ensures { result ≡ is_some (table_named table.now self.now) }
    {
        self.table(table).is_some()
    }

    /// The modules in the order of the files.
    pub fn modules(&self) -> &Names
        ensures { result.now ≡ self.now.modules }
    {
        &self.modules
    }

    /// The module of a table, a place among the modules, or None where the table has no model.
    pub fn module_of(&self, table: &str) -> Option<u32>
        ensures { result ≡ owner_of table.now self.now }
    {
        match self.table(table) {
            Some(table) => Some(table.owner),
            None => None,
        }
    }

    /// A shape of a table by its place in the text, or None where there is no such table or shape.
    pub fn shape_at(&self, table: &str, shape: u32) -> Option<&Shape>
        ensures { option_copied result ≡ shape_of table.now shape self.now }
    {
        match self.indexed_shape(table, shape) {
            Some(indexed) => Some(indexed.shape()),
            None => None,
        }
    }

    /// The shape that an entry of a table belongs to by its key, a place among the shapes, or None where
    /// it belongs to none.
    pub fn list_of(&self, table: &str, key: &KeyView) -> Option<u32>
        ensures { Belongs (shapes_of table.now self.now) key.now result }
    {
        match self.table(table) {
            Some(table) => first_that_fits(table.shapes.items(), key),
            None => None,
        }
    }

    /// The type of a field of a shape, or None where there is no such field. Key leaves are no fields.
    pub fn type_of(&self, table: &str, shape: u32, field: &str) -> Option<&Ty>
        ensures { option_copied result ≡ type_of_field table.now shape field.now self.now }
    {
        match self.indexed_shape(table, shape) {
            Some(indexed) => indexed.type_of(field),
            None => None,
        }
    }

    /// A shape of a table with the index of its fields.
    fn indexed_shape(&self, table: &str, shape: u32) -> Option<&IndexedShape>
        ensures { option_copied result ≡ shape_of table.now shape self.now }
    {
        match self.table(table) {
            Some(table) => table.shapes.items().get(shape as usize),
            None => None,
        }
    }
}

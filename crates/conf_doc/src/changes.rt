//! Changed copies: what doesn't lie on the way to the place of a change is shared.
ghost use Rattle.std.specs.Prelude.{◌≡◌, ◌<◌, length, option_map, None, Some, IfOk, IfSome, IsNone};
ghost use Rattle.conf_doc.specs.Changes.{Fits, HasParent, HasPlace, with_part};
ghost use Rattle.conf_doc.specs.Pairs.{change_part, put, set_part};
ghost use Rattle.conf_doc.specs.WellFormed.{IsConfig, IsEntry, IsTable, IsValue};

use crate::{Config, Entry, Part, Path, Table, Value};
use host_core::Memory;
use std::alloc::Global;

impl Config {
    /// The configuration with that part at a place, in the place of what stood there, or for None with
    /// nothing there.
    pub fn with(&self, alloc: Global, path: &Path, part: Option<&Part>) -> Result<Config, Memory>
        requires fits { IfSome part (λ p. Fits path.now p.now) }
        requires parent { HasParent self.now path.now }
        requires there { IsNone part → HasPlace self.now path.now }
        ensures changed { IfOk result (λ c.
            c ≡ with_part self.now path.now (option_map (λ p. p.now) part.entry)) }
        ensures formed { IfOk result IsConfig }
    {
        match part {
            Some(part) => self.put_part(alloc, path, part),
            None => self.leave_out(alloc, path),
        }
    }

    fn put_part(&self, alloc: Global, path: &Path, part: &Part) -> Result<Config, Memory>
        requires { Fits path.now part.now }
        ensures changed { IfOk result (λ c. c ≡ with_part self.now path.now (Some part.now)) }
        ensures formed { IfOk result IsConfig }
    {
        match part {
            Part::Table(table) => match table.copy(alloc) {
                Ok(table) => self.set_table_at(alloc, path, Some(table)),
                Err(_) => Err(Memory),
            },
            Part::Entry(entry) => match entry.copy(alloc) {
                Ok(entry) => self.set_entry_at(alloc, path, Some(entry)),
                Err(_) => Err(Memory),
            },
            Part::Value(value) => match value.copy(alloc) {
                Ok(value) => self.set_value_at(alloc, path, Some(value)),
                Err(_) => Err(Memory),
            },
        }
    }

    fn leave_out(&self, alloc: Global, path: &Path) -> Result<Config, Memory>
        ensures changed { IfOk result (λ c. c ≡ with_part self.now path.now None) }
        ensures formed { IfOk result IsConfig }
    {
        match path.len() {
            1 => self.set_table_at(alloc, path, None),
            2 => self.set_entry_at(alloc, path, None),
            _ => self.set_value_at(alloc, path, None),
        }
    }

    fn set_table_at(
        &self,
        alloc: Global,
        path: &Path,
        table: Option<Table>,
    ) -> Result<Config, Memory>
        requires long { length path.now ≡ 1 }
        requires well { IfSome table IsTable }
        ensures changed { IfOk result (λ c.
            c ≡ with_part self.now path.now (option_map Part.Table table)) }
        ensures formed { IfOk result IsConfig }
    {
        self.set_table(alloc, path.name_at(0), table)
    }

    fn set_entry_at(
        &self,
        alloc: Global,
        path: &Path,
        entry: Option<Entry>,
    ) -> Result<Config, Memory>
        requires long { length path.now ≡ 2 }
        requires well { IfSome entry IsEntry }
        ensures changed { IfOk result (λ c.
            c ≡ with_part self.now path.now (option_map Part.Entry entry)) }
        ensures formed { IfOk result IsConfig }
    {
        let name = path.name_at(0);
        let key = path.name_at(1);
        self.set_entry(alloc, name, key, entry)
    }

    fn set_value_at(
        &self,
        alloc: Global,
        path: &Path,
        value: Option<Value>,
    ) -> Result<Config, Memory>
        requires long { length path.now ≡ 3 }
        requires well { IfSome value IsValue }
        ensures changed { IfOk result (λ c.
            c ≡ with_part self.now path.now (option_map Part.Value value)) }
        ensures formed { IfOk result IsConfig }
    {
        let name = path.name_at(0);
        let key = path.name_at(1);
        let field = path.name_at(2);
        self.set_value(alloc, name, key, field, value)
    }

    fn set_table(&self, alloc: Global, name: &str, table: Option<Table>) -> Result<Config, Memory>
        requires named { 0 < length name.now }
        requires well { IfSome table IsTable }
        ensures changed { IfOk result (λ c. c ≡ set_part name.now table self.now) }
        ensures formed { IfOk result IsConfig }
    {
        Ok(Config {
            tables: self.tables.set(alloc, name, table)?,
        })
    }

    fn set_entry(
        &self,
        alloc: Global,
        name: &str,
        key: &str,
        entry: Option<Entry>,
    ) -> Result<Config, Memory>
        requires named { 0 < length name.now }
        requires key { 0 < length key.now }
        requires well { IfSome entry IsEntry }
        ensures changed { IfOk result (λ c.
            c ≡ change_part name.now (set_part key.now entry) self.now) }
        ensures formed { IfOk result IsConfig }
    {
        match self.table(name) {
            Some(table) => {
                let table = table.set_entry(alloc, key, entry)?;
                self.set_table(alloc, name, Some(table))
            }
            None => {
                drop(entry);
                self.copy(alloc)
            }
        }
    }

    fn set_value(
        &self,
        alloc: Global,
        name: &str,
        key: &str,
        field: &str,
        value: Option<Value>,
    ) -> Result<Config, Memory>
        requires named { 0 < length name.now }
        requires key { 0 < length key.now }
        requires field { 0 < length field.now }
        requires well { IfSome value IsValue }
        ensures changed { IfOk result (λ c.
            c ≡ change_part name.now (change_part key.now (set_part field.now value)) self.now) }
        ensures formed { IfOk result IsConfig }
    {
        match self.table(name) {
            Some(table) => {
                let table = table.set_value(alloc, key, field, value)?;
                self.set_table(alloc, name, Some(table))
            }
            None => {
                drop(value);
                self.copy(alloc)
            }
        }
    }
}

impl Table {
    /// The table with that entry under a key.
    pub fn with(&self, alloc: Global, key: &str, entry: &Entry) -> Result<Table, Memory>
        requires { 0 < length key.now }
        ensures changed { IfOk result (λ t. t ≡ put key.now entry.now self.now) }
        ensures formed { IfOk result IsTable }
    {
        self.set_entry(alloc, key, Some(entry.copy(alloc)?))
    }

    fn set_entry(&self, alloc: Global, key: &str, entry: Option<Entry>) -> Result<Table, Memory>
        requires named { 0 < length key.now }
        requires well { IfSome entry IsEntry }
        ensures changed { IfOk result (λ t. t ≡ set_part key.now entry self.now) }
        ensures formed { IfOk result IsTable }
    {
        Ok(Table {
            entries: self.entries.set(alloc, key, entry)?,
        })
    }

    fn set_value(
        &self,
        alloc: Global,
        key: &str,
        field: &str,
        value: Option<Value>,
    ) -> Result<Table, Memory>
        requires named { 0 < length key.now }
        requires field { 0 < length field.now }
        requires well { IfSome value IsValue }
        ensures changed { IfOk result (λ t.
            t ≡ change_part key.now (set_part field.now value) self.now) }
        ensures formed { IfOk result IsTable }
    {
        match self.entry(key) {
            Some(entry) => {
                let entry = entry.set_value(alloc, field, value)?;
                self.set_entry(alloc, key, Some(entry))
            }
            None => {
                drop(value);
                self.copy(alloc)
            }
        }
    }
}

impl Entry {
    /// The entry with that value in a field.
    pub fn with(&self, alloc: Global, field: &str, value: &Value) -> Result<Entry, Memory>
        requires { 0 < length field.now }
        ensures changed { IfOk result (λ e. e ≡ put field.now value.now self.now) }
        ensures formed { IfOk result IsEntry }
    {
        self.set_value(alloc, field, Some(value.copy(alloc)?))
    }

    fn set_value(&self, alloc: Global, field: &str, value: Option<Value>) -> Result<Entry, Memory>
        requires named { 0 < length field.now }
        requires well { IfSome value IsValue }
        ensures changed { IfOk result (λ e. e ≡ set_part field.now value self.now) }
        ensures formed { IfOk result IsEntry }
    {
        Ok(Entry {
            fields: self.fields.set(alloc, field, value)?,
        })
    }
}

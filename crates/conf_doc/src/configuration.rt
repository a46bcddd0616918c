//! A configuration: tables of entries of fields.
ghost use Rattle.std.specs.Prelude.{◌≡◌, ◌<◌, ◌≤◌, ◌++◌, ◌∷◌, [], length, map, option_map, slice_get, Some, IfOk, IsTrue, IsUtf8, OnOk};
ghost use Rattle.conf_doc.specs.Changes.{entry_at, value_at};
ghost use Rattle.conf_doc.specs.ListHolders.{HaveNoList};
ghost use Rattle.conf_doc.specs.Pairs.{find, first_from};
ghost use Rattle.conf_doc.specs.WellFormed.{AreTexts, IsConfig, IsEntry, IsTable, IsValue};

use crate::entries::Entries;
use crate::sorted::Sorted;
use host_core::{Memory, Names, Txt};
use std::alloc::Global;
use std::marker::Model;

/// What a field holds. A text is before a list; texts are ordered by bytes, lists item by item.
#[derive(Drop, Eq, Hash, Ord, PartialEq, PartialOrd)]
pub enum Value {
    Text(Txt),
    List(Names),
}

/// The fields of an entry, sorted by name. No name is empty, and none is there twice. Contracts see the
/// list of pairs of a name and a value.
#[derive(Drop, Eq, Hash, Ord, PartialEq, PartialOrd)]
pub struct Entry {
    pub(crate) fields: Sorted<Value>,
}

/// The entries of a table, sorted by key. No key is empty, and none is there twice. Contracts see the
/// list of pairs of a key and an entry.
#[derive(Drop, Eq, Hash, Ord, PartialEq, PartialOrd)]
pub struct Table {
    pub(crate) entries: Entries,
}

/// The tables of a configuration, sorted by name. No name is empty, and none is there twice. Contracts see
/// the list of pairs of a name and a table.
#[derive(Drop, Eq, Hash, PartialEq)]
pub struct Config {
    pub(crate) tables: Sorted<Table>,
}

impl Model for Entry {
    ghost use Rattle.std.specs.Prelude.{List, ℕ};
    ghost use Rattle.conf_doc.specs.WellFormed.{IsEntry};
    ghost use Rattle.conf_doc.specs.declared.configuration.Value.{Value as FieldValue};

    ghost Value = { List (List ℕ × FieldValue) };

    ghost view = { λ e. e.fields };

    ghost invariant = { λ e. IsEntry e.fields };

    ghost inverse = { λ fields. record { fields = fields } };
}

impl Model for Table {
    ghost use Rattle.std.specs.Prelude.{List, ℕ};
    ghost use Rattle.conf_doc.specs.WellFormed.{IsTable};
    ghost use Rattle.conf_doc.specs.declared.configuration.Entry.{Entry as EntryValue};

    ghost Value = { List (List ℕ × EntryValue) };

    ghost view = { λ t. t.entries };

    ghost invariant = { λ t. IsTable t.entries };

    ghost inverse = { λ entries. record { entries = entries } };
}

impl Model for Config {
    ghost use Rattle.std.specs.Prelude.{List, ℕ};
    ghost use Rattle.conf_doc.specs.WellFormed.{IsConfig};
    ghost use Rattle.conf_doc.specs.declared.configuration.Table.{Table as TableValue};

    ghost Value = { List (List ℕ × TableValue) };

    ghost view = { λ c. c.tables };

    ghost invariant = { λ c. IsConfig c.tables };

    ghost inverse = { λ tables. record { tables = tables } };
}

impl Value {
    /// The same value.
    pub fn copy(&self, alloc: Global) -> Result<Value, Memory>
        ensures copy { IfOk result (λ v. v ≡ self.now) }
        ensures formed { IfOk result IsValue }
    {
        match self {
            Value::Text(text) => match Txt::new(alloc, text.as_str()) {
                Ok(copy) => Ok(Value::Text(copy)),
                Err(_) => Err(Memory),
            },
            Value::List(texts) => match copy_texts(alloc, texts) {
                Ok(copies) => Ok(Value::List(copies)),
                Err(_) => Err(Memory),
            },
        }
    }
}

fn copy_texts(alloc: Global, texts: &Names) -> Result<Names, Memory>
    ensures copy { IfOk result (λ ts. ts ≡ texts.now) }
    ensures formed { IfOk result AreTexts }
{
    let mut copies = Names::new(alloc);
    for text in texts.items() {
        push_copy(alloc, &mut copies, text)?;
    }
    Ok(copies)
}

/// Adds a copy of a text.
fn push_copy(alloc: Global, copies: &mut Names, text: &Txt) -> Result<(), Memory>
    ensures ok { OnOk result (copies.new ≡ copies.old ++ text.now ∷ []) }
    ensures utf8 { IsUtf8 text.now }
{
    let copy = Txt::new(alloc, text.as_str())?;
    copies.push(copy)
}

impl Config {
    /// No tables, which take no memory.
    pub fn new(alloc: Global) -> Config
        ensures { result ≡ [] }
    {
        Config {
            tables: Sorted::new(alloc),
        }
    }

    /// The table of a name, or None where there is no such table.
    pub fn table(&self, name: &str) -> Option<&Table>
        ensures table { option_map (λ v. v.now) result ≡ find name.now self.now }
        ensures formed { IsConfig self.now }
    {
        self.tables.find(name)
    }

    /// The entry of a table at a key, or None where there is no such table or no such entry.
    pub fn entry(&self, table: &str, key: &str) -> Option<&Entry>
        ensures entry { option_map (λ e. e.now) result ≡ entry_at self.now table.now key.now }
        ensures formed { IsConfig self.now }
    {
        self.table(table)?.entry(key)
    }

    /// The value of a field of such an entry, or None where there is no such value.
    pub fn value(&self, table: &str, key: &str, field: &str) -> Option<&Value>
        ensures value { option_map (λ v. v.now) result
            ≡ value_at self.now table.now key.now field.now }
        ensures formed { IsConfig self.now }
    {
        self.entry(table, key)?.field(field)
    }

    /// How many tables there are.
    pub fn len(&self) -> usize
        ensures len { result ≡ length self.now }
        ensures formed { IsConfig self.now }
    {
        self.tables.len()
    }

    /// The name of the table at an index, counted from 0 in the order of the names.
    pub fn name_at(&self, i: usize) -> &str
        requires { i < length self.now }
        ensures { slice_get (map (λ p. p.0) self.now) i ≡ Some result.now }
    {
        self.tables.name_at(i)
    }

    /// The table at an index.
    pub fn part_at(&self, i: usize) -> &Table
        requires { i < length self.now }
        ensures part { slice_get (map (λ p. p.1) self.now) i ≡ Some result.now }
        ensures formed { IsConfig self.now }
    {
        self.tables.part_at(i)
    }

    /// The name of a table and the table at an index.
    pub fn pair_at(&self, i: usize) -> (&str, &Table)
        requires { i < length self.now }
        ensures pair { slice_get self.now i ≡ Some (result.0.now, result.1.now) }
        ensures formed { IsConfig self.now }
    {
        self.tables.both_at(i)
    }

    /// The first index from which no table's name is below that text, or the length.
    pub fn first_from(&self, name: &str) -> usize
        ensures { result ≡ first_from name.now self.now }
    {
        self.tables.first_from(name)
    }

    /// A configuration in which the table at an index shares with another configuration's of its name what both have.
    fn share_at(&self, alloc: Global, i: usize, other: &Config) -> Result<Config, Memory>
        requires { i < length self.now }
        ensures same { IfOk result (λ c. c ≡ self.now) }
    {
        let (name, mine) = self.pair_at(i);
        match other.table(name) {
            Some(table) => {
                let table = mine.sharing(alloc, table)?;
                Ok(Config {
                    tables: self.tables.with(alloc, name, table)?,
                })
            }
            None => self.copy(alloc),
        }
    }

    /// The same configuration, which shares with another one what both have: so the two are soon compared.
    pub fn sharing(&self, alloc: Global, other: &Config) -> Result<Config, Memory>
        ensures same { IfOk result (λ c. c ≡ self.now) }
        ensures formed { IfOk result IsConfig }
    {
        let mut made = self.copy(alloc)?;
        for i in 0..self.len() {
            made = made.share_at(alloc, i, other)?;
        }
        Ok(made)
    }

    /// The same configuration.
    pub fn copy(&self, alloc: Global) -> Result<Config, Memory>
        ensures copy { IfOk result (λ c. c ≡ self.now) }
        ensures formed { IfOk result IsConfig }
    {
        Ok(Config {
            tables: self.tables.copy(alloc)?,
        })
    }
}

impl Table {
    /// No entries, which take no memory.
    pub fn new(alloc: Global) -> Table
        ensures { result ≡ [] }
    {
        Table {
            entries: Entries::new(alloc),
        }
    }

    /// The entry of a key, or None where there is no such entry.
    pub fn entry(&self, key: &str) -> Option<&Entry>
        ensures entry { option_map (λ v. v.now) result ≡ find key.now self.now }
        ensures formed { IsTable self.now }
    {
        self.entries.list().find(key)
    }

    /// The same entry, looked for first at an index.
    pub fn entry_near(&self, key: &str, near: usize) -> Option<&Entry>
        requires { near ≤ length self.now }
        ensures entry { option_map (λ v. v.now) result ≡ find key.now self.now }
        ensures formed { IsTable self.now }
    {
        self.entries.list().find_near(key, near)
    }

    /// Whether it is known that no entry holds a list. It takes no time, and isn't known of a table out of which the
    /// last list was taken.
    pub fn holds_no_list(&self) -> bool
        ensures { IsTrue result → HaveNoList self.now }
    {
        self.entries.holds_no_list()
    }

    /// How many entries there are.
    pub fn len(&self) -> usize
        ensures len { result ≡ length self.now }
        ensures formed { IsTable self.now }
    {
        self.entries.list().len()
    }

    /// The key of the entry at an index, counted from 0 in the order of the keys.
    pub fn name_at(&self, i: usize) -> &str
        requires { i < length self.now }
        ensures { slice_get (map (λ p. p.0) self.now) i ≡ Some result.now }
    {
        self.entries.list().name_at(i)
    }

    /// The entry at an index.
    pub fn part_at(&self, i: usize) -> &Entry
        requires { i < length self.now }
        ensures part { slice_get (map (λ p. p.1) self.now) i ≡ Some result.now }
        ensures formed { IsTable self.now }
    {
        self.entries.list().part_at(i)
    }

    /// The key of an entry and the entry at an index.
    pub fn pair_at(&self, i: usize) -> (&str, &Entry)
        requires { i < length self.now }
        ensures pair { slice_get self.now i ≡ Some (result.0.now, result.1.now) }
        ensures formed { IsTable self.now }
    {
        self.entries.list().both_at(i)
    }

    /// The first index from which no key is below that text, or the length. Keys that begin with a text
    /// stand together from there on.
    pub fn first_from(&self, key: &str) -> usize
        ensures { result ≡ first_from key.now self.now }
    {
        self.entries.list().first_from(key)
    }

    /// The same table, which shares with another one the entries that this has too.
    fn sharing(&self, alloc: Global, other: &Table) -> Result<Table, Memory>
        ensures same { IfOk result (λ t. t ≡ self.now) }
        ensures formed { IfOk result IsTable }
    {
        Ok(Table {
            entries: self.entries.sharing(alloc, &other.entries)?,
        })
    }

    /// The same table.
    pub fn copy(&self, alloc: Global) -> Result<Table, Memory>
        ensures copy { IfOk result (λ t. t ≡ self.now) }
        ensures formed { IfOk result IsTable }
    {
        Ok(Table {
            entries: self.entries.copy(alloc)?,
        })
    }
}

impl Entry {
    /// No fields, which take no memory.
    pub fn new(alloc: Global) -> Entry
        ensures { result ≡ [] }
    {
        Entry {
            fields: Sorted::new(alloc),
        }
    }

    /// The value of a field, or None where there is no such field.
    pub fn field(&self, name: &str) -> Option<&Value>
        ensures field { option_map (λ v. v.now) result ≡ find name.now self.now }
        ensures formed { IsEntry self.now }
    {
        self.fields.find(name)
    }

    /// How many fields there are.
    pub fn len(&self) -> usize
        ensures len { result ≡ length self.now }
        ensures formed { IsEntry self.now }
    {
        self.fields.len()
    }

    /// The name of the field at an index, counted from 0 in the order of the names.
    pub fn name_at(&self, i: usize) -> &str
        requires { i < length self.now }
        ensures { slice_get (map (λ p. p.0) self.now) i ≡ Some result.now }
    {
        self.fields.name_at(i)
    }

    /// The value of the field at an index.
    pub fn part_at(&self, i: usize) -> &Value
        requires { i < length self.now }
        ensures part { slice_get (map (λ p. p.1) self.now) i ≡ Some result.now }
        ensures formed { IsEntry self.now }
    {
        self.fields.part_at(i)
    }

    /// The name of a field and its value at an index.
    pub fn pair_at(&self, i: usize) -> (&str, &Value)
        requires { i < length self.now }
        ensures pair { slice_get self.now i ≡ Some (result.0.now, result.1.now) }
        ensures formed { IsEntry self.now }
    {
        self.fields.both_at(i)
    }

    /// The first index from which no field's name is below that text, or the length.
    pub fn first_from(&self, name: &str) -> usize
        ensures { result ≡ first_from name.now self.now }
    {
        self.fields.first_from(name)
    }

    /// The same entry.
    pub fn copy(&self, alloc: Global) -> Result<Entry, Memory>
        ensures copy { IfOk result (λ e. e ≡ self.now) }
        ensures formed { IfOk result IsEntry }
    {
        Ok(Entry {
            fields: self.fields.copy(alloc)?,
        })
    }
}

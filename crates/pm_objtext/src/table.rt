//! Records in order, no two of which have the same key.

ghost use Rattle.std.specs.Prelude.{◌≡◌, ◌==◌, ◌++◌, ◌∷◌, [], false, length, nat_eq, IfOk, OnOk, OnErr};
ghost use Rattle.indexmap.specs.IndexMap.{insert_entry};
ghost use Rattle.std.specs.List.{list_any};

use indexmap::IndexMap;
use pm_base::{List, NoMemory};
use pm_object::Keyed;
use std::alloc::Global;
use std::marker::Model;

/// Records in the order in which they came, which are looked up by their keys in constant time.
#[derive(Drop)]
pub struct Table<T: Keyed> {
    entries: IndexMap<u32, T>,
}

impl<T: Keyed> Model for Table<T> {
    ghost use Rattle.std.specs.Prelude.{List as Sequence};
    ghost use Rattle.std.specs.Map.{values_of};
    ghost use Rattle.pm_objtext.specs.Table.{AreKeyed};

    ghost Value = { Sequence T };

    ghost view = { λ table. values_of table.entries.entries };

    ghost invariant = { λ table. AreKeyed T.key_of table.entries.entries };
}

impl<T: Keyed> Table<T> {
    /// No record.
    pub fn new(alloc: Global) -> Self
        ensures { result ≡ [] }
    {
        Table {
            entries: IndexMap::new(alloc),
        }
    }

    /// Whether there is no record.
    pub fn is_empty(&self) -> bool
        ensures { result ≡ (length self.now == 0) }
    {
        self.entries.is_empty()
    }

    /// Whether a record has this key.
    pub fn has(&self, key: u32) -> bool
        ensures { result ≡ list_any (λ r. T.key_of r == key) self.now }
    {
        self.entries.contains_key(&key)
    }
}

impl<T: Keyed + Drop> Table<T> {
    /// Puts a record at the end, whose key is new.
    pub fn push(&mut self, item: T) -> Result<(), NoMemory>
        requires { list_any (λ r. T.key_of r == T.key_of item) self.old ≡ false }
        ensures { OnOk result (self.new ≡ self.old ++ item ∷ []) }
    {
        let key = item.key();
        put_last(&mut self.entries, key, item)
    }

    /// The records as a list.
    pub fn into_list(self, alloc: Global) -> Result<List<T>, NoMemory>
        ensures { IfOk result (λ list. list ≡ self) }
    {
        let mut list = List::new(alloc);
        for item in self.entries.into_values() {
            list.push(item)?;
        }
        Ok(list)
    }
}

/// Puts a record under a key, apart from `push` so that the proof sees one write of the table.
fn put_last<T: Drop>(entries: &mut IndexMap<u32, T>, key: u32, item: T) -> Result<(), NoMemory>
    ensures put { OnOk result (entries.new.entries ≡ insert_entry nat_eq entries.old.entries key item) }
    ensures kept { OnErr result (entries.new.entries ≡ entries.old.entries) }
{
    match entries.insert(key, item) {
        Ok(_) => Ok(()),
        Err(_) => Err(NoMemory),
    }
}

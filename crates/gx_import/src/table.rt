//! Tables by ref names.

ghost use Rattle.std.specs.Prelude.{◌≡◌, ◌<◌, ◌^◌, [], length, map, IsTrue, OnOk};
ghost use Rattle.std.specs.FinMap.Entries.{is_sorted, put};
ghost use Rattle.std.specs.Map.{lookup};
ghost use Rattle.std.specs.Option.{option_map};
ghost use Rattle.gx_model.specs.Texts.{byte_cmp, same_bytes};
ghost use Rattle.gx_import.specs.Rows.{row_of};

use std::alloc::{AllocError, Allocator};
use std::collections::BTreeMap;
use std::collections::btree_map::Iter;
use std::marker::Model;

/// Values by ref names. It is seen as the list of its rows, in the byte order of the names, each name once.
#[derive(Drop)]
pub(crate) struct Table<T, A: Allocator> {
    pub(crate) rows: BTreeMap<Vec<u8, A>, T, A>,
}

impl<T, A: Allocator> Model for Table<T, A> {
    ghost use Rattle.std.specs.Prelude.{List, map, IsTrue};
    ghost use Rattle.std.specs.FinMap.Entries.{is_sorted};
    ghost use Rattle.gx_model.specs.Texts.{Bytes, byte_cmp};
    ghost use Rattle.gx_import.specs.Rows.{row_of};

    ghost Value = { List (Bytes × T) };

    ghost view = { λ s. map row_of s.rows.entries };

    ghost invariant = { λ s. IsTrue (is_sorted byte_cmp (map row_of s.rows.entries)) };
}

impl<T: Drop, A: Allocator + Copy> Table<T, A> {
    /// No rows. Takes no memory.
    pub(crate) fn new(alloc: A) -> Table<T, A>
        ensures { result ≡ [] }
    {
        Table {
            rows: BTreeMap::new(alloc),
        }
    }

    /// Each table is in order. Takes no memory.
    pub(crate) fn sorted(&self)
        ensures { IsTrue (is_sorted byte_cmp self.now) }
    {
        let _ = &self.rows;
    }

    /// Its rows, in the byte order of their names. Takes no memory.
    pub(crate) fn iter(&self) -> Iter<'_, Vec<u8, A>, T>
        ensures rows { map row_of result ≡ self.now }
        ensures small { length self.now < 2 ^ 63 }
    {
        self.rows.iter()
    }

    /// What stands at a name. Cost: the logarithm of the number of rows. Takes no memory.
    pub(crate) fn get(&self, name: &[u8]) -> Option<&T>
        ensures { option_map (λ value. value.now) result ≡ lookup (same_bytes name.now) self.now }
    {
        self.rows.get(name)
    }

    /// Sets what stands at a name. Cost: the logarithm of the number of rows.
    pub(crate) fn set(&mut self, name: Vec<u8, A>, value: T) -> Result<(), AllocError>
        ensures { OnOk result (self.new ≡ put byte_cmp name.items value self.old) }
    {
        self.rows.insert(name, value)?;
        Ok(())
    }
}

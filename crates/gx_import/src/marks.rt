//! The objects that marks stand for. Source: git-fast-import(1), "mark".

ghost use Rattle.std.specs.Prelude.{◌≡◌, ℕ, None, IsOk, OnOk};
ghost use Rattle.gx_import.specs.Marks.{SetsMark, object_at, object_or_fault};

use crate::ImportKind;
use crate::object::Object;
use std::alloc::{AllocFailed, Allocator};
use std::collections::BTreeMap;

/// Objects by their marks.
#[derive(Drop)]
pub(crate) struct Marks<A: Allocator> {
    pub(crate) objects: BTreeMap<u64, Object, A>,
}

impl<A: Allocator + Copy> Marks<A> {
    /// No marks. Takes no memory.
    pub(crate) fn new(alloc: A) -> Marks<A>
        ensures { (number : ℕ) → object_at result number ≡ None }
    {
        Marks {
            objects: BTreeMap::new(alloc),
        }
    }

    /// The object of a mark. Cost: the logarithm of the number of marks. Takes no memory.
    pub(crate) fn object(&self, number: u64) -> Result<Object, ImportKind>
        ensures { result ≡ object_or_fault (object_at self.now number) }
    {
        match self.objects.get(&number) {
            Some(object) => Ok(*object),
            None => Err(ImportKind::UnknownMark),
        }
    }

    /// Sets a mark, where one is asked for. A number that is used again moves.
    ///
    /// Cost: the logarithm of the number of marks.
    pub(crate) fn set(
        &mut self,
        mark: Option<u64>,
        object: Object,
    ) -> Result<(), AllocFailed<(u64, Object)>>
        ensures sets { OnOk result (SetsMark mark object self.old self.new) }
        ensures unmarked { mark ≡ None → IsOk result }
    {
        if let Some(number) = mark {
            self.objects.insert(number, object)?;
        }
        Ok(())
    }
}

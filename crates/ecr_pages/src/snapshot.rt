// The rows at one moment.
ghost use Rattle.std.specs.Prelude.{◌≡◌, ◌+◌, IfOk};
ghost use Rattle.std.specs.FinMap as map;
ghost use Rattle.std.specs.Option.{option_copied};
ghost use Rattle.ecr_pages.specs.Rows.{births_of};
ghost use Rattle.ecr_pages.specs.Places.{rows_in, shelved, AreInPages};

use crate::book::Shelf;
use crate::{Mem, Reads, book};
use std::alloc::Global;
use std::marker::Model;
use std::sync::Arc;
use std::sync::ledger::Ledger;

/// The rows as they were at one moment. Contracts see the finite map of them, which nothing changes.
///
/// It may be sent to and shared with other threads where a row may.
#[derive(Drop)]
pub struct Snapshot<R> {
    alloc: Global,
    shelf: Arc<Shelf<R>, Global>,
}

impl<R> Model for Snapshot<R> {
    ghost use Rattle.std.specs.Ordering.{nat_cmp};
    ghost use Rattle.std.specs.Coded.{coded_ℕ};
    ghost use Rattle.std.specs.FinMap as map;
    ghost use Rattle.ecr_pages.specs.Places.{rows_in, shelved, AreInPages};

    ghost Value = { map.FinMap nat_cmp R };

    ghost coded = { map.code coded_ℕ R.code };

    ghost view = { λ s. rows_in shelved s.shelf.value.entries };

    ghost invariant = { λ s. AreInPages shelved s.shelf.value.entries };
}

impl<R: Drop> Snapshot<R> {
    // The rows of shared pages.
    pub(crate) fn of(alloc: Global, shelf: Shelf<R>) -> Result<Snapshot<R>, Mem>
        requires { AreInPages shelved shelf.entries }
        ensures { IfOk result (λ s. s ≡ rows_in shelved shelf.entries) }
    {
        match Arc::new(alloc, shelf) {
            Ok(shelf) => Ok(Snapshot { alloc, shelf }),
            Err(_) => Err(Mem),
        }
    }

    /// The row of a birth, if it has one: one read.
    pub fn read<L: Ledger>(&self, birth: u64, reads: &mut Reads<L>) -> Option<&R>
        ensures row { option_copied result ≡ map.get self.now birth }
        ensures cost { reads.new ≡ reads.old + 1 }
    {
        reads.count();
        book::shelf_row(&*self.shelf, birth)
    }

    /// The births of the rows, which rise.
    pub fn births(&self) -> Result<Vec<u64>, Mem>
        ensures births { IfOk result (λ births. births.items ≡ births_of self.now) }
    {
        book::births(self.alloc, &*self.shelf)
    }

    /// A snapshot of the same rows, which aren't copied.
    pub fn share(&self) -> Result<Snapshot<R>, Mem>
        ensures rows { IfOk result (λ s. s ≡ self.now) }
    {
        Ok(Snapshot {
            alloc: self.alloc,
            shelf: Arc::try_clone(&self.shelf)?,
        })
    }
}

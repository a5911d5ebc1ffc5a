// The pages of a repository's rows.
ghost use Rattle.std.specs.Prelude.{◌≡◌, ◌+◌, ◌≤◌, ◌⊎◌, ℕ, IsTrue, IfOk, OnOk, OnErr};
ghost use Rattle.std.specs.FinMap as map;
ghost use Rattle.std.specs.FinSet as set;
ghost use Rattle.std.specs.Option.{option_copied};
ghost use Rattle.ecr_pages.specs.Rows.{Paged, IsOwned, AreOwned, is_beside, page_count, page_bound, births_of};

use crate::book::Book;
use crate::{Mem, Reads, Snapshot, book};
use std::alloc::Global;
use std::collections::BTreeMap;
use std::marker::Model;
use std::sync::ledger::Ledger;

/// Rows by their births, which are numbers from 1 on.
///
/// Contracts see the rows as a finite map, and the births that have a place in an owned page: these alone may be set
/// and removed. Births may be as great as 2^63 - 1: pages stand by their numbers in an ordered map, and there is none
/// where no birth has a place. A page has a place for each of its rows and for each birth that was asked for since it
/// was copied: it takes no memory for the others.
#[derive(Drop)]
pub struct Pages<R> {
    alloc: Global,
    book: Book<R>,
}

impl<R> Model for Pages<R> {
    ghost use Rattle.ecr_pages.specs.Rows.{Paged, paged_code};
    ghost use Rattle.ecr_pages.specs.Places.{rows_in, owned_in, places_of, AreInPages};

    ghost Value = { Paged R };

    ghost coded = { paged_code R.code };

    ghost view = { λ p. record { rows = rows_in places_of p.book.entries; owned = owned_in p.book.entries } };

    ghost invariant = { λ p. AreInPages places_of p.book.entries };
}

impl<R: Drop> Pages<R> {
    /// No rows and no pages. It takes no memory.
    pub fn new(alloc: Global) -> Pages<R>
        ensures rows { result.rows ≡ map.empty }
        ensures owned { result.owned ≡ set.empty }
    {
        Pages {
            alloc,
            book: BTreeMap::new(alloc),
        }
    }

    /// The row of a birth, if it has one: one read.
    pub fn read<L: Ledger>(&self, birth: u64, reads: &mut Reads<L>) -> Option<&R>
        ensures row { option_copied result ≡ map.get self.now.rows birth }
        ensures cost { reads.new ≡ reads.old + 1 }
    {
        reads.count();
        book::row(&self.book, birth)
    }

    /// The rows as they are now, whatever becomes of the pages: one step for each page that has a row.
    ///
    /// Each page is shared from then on, and one that has no row any more is given back. Without memory the rows are
    /// as before, but some pages may be shared.
    pub fn snapshot<L: Ledger>(&mut self, reads: &mut Reads<L>) -> Result<Snapshot<R>, Mem>
        ensures snapshot { IfOk result (λ s. s ≡ self.old.rows) }
        ensures rows { self.new.rows ≡ self.old.rows }
        ensures shared { OnOk result (self.new.owned ≡ set.empty) }
        ensures cost { OnOk result (reads.new ≡ reads.old + page_count self.old.rows) }
        ensures bound { reads.new ≤ reads.old + page_bound (births_of self.old.rows) }
    {
        let shelf = book::share(self.alloc, &mut self.book, reads)?;
        Snapshot::of(self.alloc, shelf)
    }

    /// Makes the pages of these births owned, by copies of their rows, and gives each birth a place there.
    ///
    /// Without memory the rows are as before, but some of these pages may be owned.
    pub fn own(&mut self, births: &[u64]) -> Result<(), Mem>
    where
        R: Clone,
        requires { (row copy : R) → R.is_clone row copy → copy ≡ row }
        ensures rows { self.new.rows ≡ self.old.rows }
        ensures owned { OnOk result (AreOwned self.new births.now) }
        ensures kept { (birth : ℕ) → IsOwned self.old birth → IsOwned self.new birth }
        ensures others { (birth : ℕ)
            → IsOwned self.new birth → IsOwned self.old birth ⊎ IsTrue (is_beside births.now birth) }
    {
        book::own(self.alloc, &mut self.book, births)
    }

    /// Puts a row at a birth, in place of the one there. It takes no memory.
    pub fn set(&mut self, birth: u64, row: R)
        requires { IsOwned self.old birth }
        ensures rows { self.new.rows ≡ map.insert self.old.rows birth row }
        ensures owned { self.new.owned ≡ self.old.owned }
    {
        book::set(&mut self.book, birth, row);
    }

    /// Takes the row of a birth away, and gives it, if there is one. It takes no memory. The birth keeps its place.
    pub fn remove(&mut self, birth: u64) -> Option<R>
        requires { IsOwned self.old birth }
        ensures row { result ≡ map.get self.old.rows birth }
        ensures rows { self.new.rows ≡ map.remove self.old.rows birth }
        ensures owned { self.new.owned ≡ self.old.owned }
    {
        book::take(&mut self.book, birth)
    }
}

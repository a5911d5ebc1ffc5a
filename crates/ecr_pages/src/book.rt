// Pages by their numbers.
ghost use Rattle.std.specs.Prelude.{◌≡◌, ◌+◌, ◌≤◌, ◌<◌, ℕ, true, false, cond, [], ◌∷◌, length, slice_index, None, Some, IsSome, IfOk, OnOk};
ghost use Rattle.std.specs.BTreeMap.{is_at};
ghost use Rattle.std.specs.List.Sorted.{IsStrictlySortedBy};
ghost use Rattle.std.specs.Map.{keys_of};
ghost use Rattle.std.specs.Ordering.{nat_cmp, eq_by_cmp};
ghost use Rattle.std.specs.Option.{option_copied};
ghost use Rattle.ecr_pages.specs.Rows.{page_of, births_of};
ghost use Rattle.ecr_pages.specs.Places.{at, held, places_of, shelved, row_at, owns_place, owned_at, has_row, rowed, AreInPages, OwnsFor, KeepsRows, SharesPage, HasShared, rows_in};

use crate::page::Page;
use crate::places::Places;
use crate::{Mem, Reads, places};
use std::alloc::Global;
use std::collections::BTreeMap;
use std::sync::Arc;
use std::sync::ledger::Ledger;

/// Pages by their numbers.
pub(crate) type Book<R> = BTreeMap<u64, Page<R>>;

/// Shared pages by their numbers.
pub(crate) type Shelf<R> = BTreeMap<u64, Arc<Places<R>, Global>>;

/// The page in which a birth stands.
pub(crate) fn page_of(birth: u64) -> u64
    ensures { result ≡ page_of birth }
{
    birth / 256
}

/// The row of a birth.
pub(crate) fn row<R: Drop>(book: &Book<R>, birth: u64) -> Option<&R>
    ensures { option_copied result ≡ row_at places_of book.now.entries birth }
{
    match book.get(&page_of(birth)) {
        Some(page) => places::row(page.places(), birth),
        None => None,
    }
}

/// The row of a birth on a shelf.
pub(crate) fn shelf_row<R: Drop>(shelf: &Shelf<R>, birth: u64) -> Option<&R>
    ensures { option_copied result ≡ row_at shelved shelf.now.entries birth }
{
    match shelf.get(&page_of(birth)) {
        Some(places) => places::row(&**places, birth),
        None => None,
    }
}

/// Puts a row at a birth.
pub(crate) fn set<R: Drop>(book: &mut Book<R>, birth: u64, row: R)
    requires { owned_at book.old.entries birth ≡ true }
    ensures rows { (q : ℕ) → row_at places_of book.new.entries q
        ≡ cond (is_at (nat_cmp birth) q) (Some row) (row_at places_of book.old.entries q) }
    ensures owned { (q : ℕ) → owned_at book.new.entries q ≡ owned_at book.old.entries q }
    ensures placed { AreInPages places_of book.old.entries → AreInPages places_of book.new.entries }
{
    match book.get_mut(&page_of(birth)) {
        Some(page) => page.set(birth, row),
        None => unreachable!(),
    }
}

/// Takes the row of a birth away.
pub(crate) fn take<R: Drop>(book: &mut Book<R>, birth: u64) -> Option<R>
    requires { owned_at book.old.entries birth ≡ true }
    ensures row { result ≡ row_at places_of book.old.entries birth }
    ensures rows { (q : ℕ) → row_at places_of book.new.entries q
        ≡ cond (is_at (nat_cmp birth) q) None (row_at places_of book.old.entries q) }
    ensures owned { (q : ℕ) → owned_at book.new.entries q ≡ owned_at book.old.entries q }
    ensures placed { AreInPages places_of book.old.entries → AreInPages places_of book.new.entries }
{
    match book.get_mut(&page_of(birth)) {
        Some(page) => page.take(birth),
        None => unreachable!(),
    }
}

/// Makes the pages of these births owned, with a place for each.
pub(crate) fn own<R: Clone>(alloc: Global, book: &mut Book<R>, births: &[u64]) -> Result<(), Mem>
    requires { (row copy : R) → R.is_clone row copy → copy ≡ row }
    ensures owns { OwnsFor book.old.entries book.new.entries births.now }
    ensures owned { OnOk result ((j : ℕ)
        → j < length births.now → owned_at book.new.entries (slice_index births.now j) ≡ true) }
{
    for birth in births {
        own_one(alloc, book, *birth)?;
    }
    Ok(())
}

// Makes the page of a birth owned, with a place for it.
fn own_one<R: Clone>(alloc: Global, book: &mut Book<R>, birth: u64) -> Result<(), Mem>
    requires { (row copy : R) → R.is_clone row copy → copy ≡ row }
    ensures owns { OwnsFor book.old.entries book.new.entries (birth ∷ []) }
    ensures owned { OnOk result (owned_at book.new.entries birth ≡ true) }
{
    add_page(alloc, book, page_of(birth))?;
    match book.get_mut(&page_of(birth)) {
        Some(page) => page.own(alloc, birth),
        None => unreachable!(),
    }
}

// Adds an empty page of that number, where there is none.
fn add_page<R: Drop>(alloc: Global, book: &mut Book<R>, number: u64) -> Result<(), Mem>
    ensures places { (n : ℕ) → held places_of (at book.new.entries n) ≡ held places_of (at book.old.entries n) }
    ensures owned { (n q : ℕ)
        → owns_place (at book.new.entries n) q ≡ owns_place (at book.old.entries n) q }
    ensures there { OnOk result (IsSome (at book.new.entries number)) }
{
    if book.contains_key(&number) {
        return Ok(());
    }
    match book.insert(number, Page::Owned(BTreeMap::new(alloc))) {
        Ok(_) => Ok(()),
        Err(_) => Err(Mem),
    }
}

/// Makes each page shared and gives back those without a row: the shared pages by their numbers, and one step for each.
pub(crate) fn share<R: Drop, L: Ledger>(
    alloc: Global,
    book: &mut Book<R>,
    reads: &mut Reads<L>,
) -> Result<Shelf<R>, Mem>
    ensures kept { KeepsRows book.old.entries book.new.entries }
    ensures shelf { IfOk result
        (λ s. HasShared book.old.entries book.new.entries s.entries (keys_of book.old.entries)) }
    ensures cost { OnOk result (reads.new ≡ reads.old + rowed book.old.entries (keys_of book.old.entries)) }
    ensures bound { reads.new ≤ reads.old + rowed book.old.entries (keys_of book.old.entries) }
    ensures ordered { IsStrictlySortedBy nat_cmp (keys_of book.old.entries) }
{
    let numbers = numbers(alloc, book)?;
    let mut shelf = BTreeMap::new(alloc);
    share_all(alloc, book, &mut shelf, numbers.as_slice(), reads)?;
    Ok(shelf)
}

// The numbers of the pages, which rise.
fn numbers<R>(alloc: Global, book: &Book<R>) -> Result<Vec<u64>, Mem>
    ensures numbers { IfOk result (λ numbers. numbers.items ≡ keys_of book.now.entries) }
    ensures ordered { IsStrictlySortedBy nat_cmp (keys_of book.now.entries) }
{
    let mut numbers = Vec::new(alloc);
    for number in book.keys() {
        numbers.push(*number)?;
    }
    Ok(numbers)
}

// Shares the pages of these numbers.
fn share_all<R: Drop, L: Ledger>(
    alloc: Global,
    book: &mut Book<R>,
    shelf: &mut Shelf<R>,
    numbers: &[u64],
    reads: &mut Reads<L>,
) -> Result<(), Mem>
    requires rise { IsStrictlySortedBy nat_cmp numbers.now }
    requires bare { shelf.old.entries ≡ [] }
    ensures kept { KeepsRows book.old.entries book.new.entries }
    ensures shared { OnOk result (HasShared book.old.entries book.new.entries shelf.new.entries numbers.now) }
    ensures cost { OnOk result (reads.new ≡ reads.old + rowed book.old.entries numbers.now) }
    ensures bound { reads.new ≤ reads.old + rowed book.old.entries numbers.now }
{
    for number in numbers {
        share_one(alloc, book, shelf, *number, reads)?;
    }
    Ok(())
}

// Shares the page of that number, or gives it back where it has no row.
fn share_one<R: Drop, L: Ledger>(
    alloc: Global,
    book: &mut Book<R>,
    shelf: &mut Shelf<R>,
    number: u64,
    reads: &mut Reads<L>,
) -> Result<(), Mem>
    ensures kept { KeepsRows book.old.entries book.new.entries }
    ensures shared { OnOk result
        (SharesPage book.old.entries book.new.entries shelf.old.entries shelf.new.entries number) }
    ensures cost { OnOk result (reads.new ≡ reads.old + rowed book.old.entries (number ∷ [])) }
    ensures bound { reads.new ≤ reads.old + rowed book.old.entries (number ∷ []) }
{
    if !has_row(book, number) {
        drop_page(book, number);
        return Ok(());
    }
    let places = share_page(alloc, book, number)?;
    reads.count();
    shelve(shelf, number, places)
}

// Whether the page of that number is there and has a row.
fn has_row<R: Drop>(book: &Book<R>, number: u64) -> bool
    ensures { result ≡ has_row (held places_of (at book.now.entries number)) }
{
    match book.get(&number) {
        Some(page) => places::has_row(page.places()),
        None => false,
    }
}

// Gives back the page of that number, which has no row.
fn drop_page<R: Drop>(book: &mut Book<R>, number: u64)
    requires { has_row (held places_of (at book.old.entries number)) ≡ false }
    ensures kept { KeepsRows book.old.entries book.new.entries }
    ensures bare { has_row (held places_of (at book.old.entries number)) ≡ false }
    ensures gone { at book.new.entries number ≡ None }
    ensures others { (n : ℕ) → eq_by_cmp nat_cmp number n ≡ false → at book.new.entries n ≡ at book.old.entries n }
{
    book.remove(&number);
}

// Makes the page of that number shared, and gives a further holder of its places.
fn share_page<R: Drop>(
    alloc: Global,
    book: &mut Book<R>,
    number: u64,
) -> Result<Arc<Places<R>, Global>, Mem>
    requires { has_row (held places_of (at book.old.entries number)) ≡ true }
    ensures kept { KeepsRows book.old.entries book.new.entries }
    ensures places { IfOk result (λ p. p.value.entries ≡ held places_of (at book.old.entries number)) }
    ensures shared { OnOk result ((q : ℕ) → owns_place (at book.new.entries number) q ≡ false) }
    ensures others { (n : ℕ) → eq_by_cmp nat_cmp number n ≡ false → at book.new.entries n ≡ at book.old.entries n }
{
    match book.get_mut(&number) {
        Some(page) => page.share(alloc),
        None => unreachable!(),
    }
}

// Puts a shared page at its number.
fn shelve<R: Drop>(
    shelf: &mut Shelf<R>,
    number: u64,
    places: Arc<Places<R>, Global>,
) -> Result<(), Mem>
    ensures there { OnOk result (at shelf.new.entries number ≡ Some places) }
    ensures others { OnOk result ((n : ℕ)
        → eq_by_cmp nat_cmp number n ≡ false → at shelf.new.entries n ≡ at shelf.old.entries n) }
{
    match shelf.insert(number, places) {
        Ok(_) => Ok(()),
        Err(_) => Err(Mem),
    }
}

/// The births of the rows on a shelf, which rise.
pub(crate) fn births<R: Drop>(alloc: Global, shelf: &Shelf<R>) -> Result<Vec<u64>, Mem>
    requires { AreInPages shelved shelf.now.entries }
    ensures { IfOk result (λ births. births.items ≡ births_of (rows_in shelved shelf.now.entries)) }
{
    let mut births = Vec::new(alloc);
    for places in shelf.values() {
        places::add_births(&**places, &mut births)?;
    }
    Ok(births)
}

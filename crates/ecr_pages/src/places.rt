// The places of one page.
ghost use Rattle.std.specs.Prelude.{◌≡◌, ◌⊎◌, ◌++◌, ℕ, true, cond, None, Some, is_some, IfOk, OnOk};
ghost use Rattle.std.specs.Option.{option_copied};
ghost use Rattle.std.specs.BTreeMap.{is_at};
ghost use Rattle.std.specs.List.Sorted.{IsStrictlySortedBy};
ghost use Rattle.std.specs.Map.{keys_of};
ghost use Rattle.std.specs.Ordering.{nat_cmp};
ghost use Rattle.ecr_pages.specs.Places.{at, row_in, has_place, has_row, births_with_rows, IsCopy, CopiesRow};

use crate::Mem;
use std::alloc::Global;
use std::collections::BTreeMap;

/// The places of a page by their births: each is empty, or has a row.
pub(crate) type Places<R> = BTreeMap<u64, Option<R>>;

/// The row in the birth's place.
pub(crate) fn row<R>(places: &Places<R>, birth: u64) -> Option<&R>
    ensures { option_copied result ≡ row_in places.now.entries birth }
{
    match places.get(&birth) {
        Some(Some(row)) => Some(row),
        _ => None,
    }
}

/// Gives the birth an empty place, where it has none.
pub(crate) fn add_place<R: Drop>(places: &mut Places<R>, birth: u64) -> Result<(), Mem>
    ensures rows { (q : ℕ) → row_in places.new.entries q ≡ row_in places.old.entries q }
    ensures place { OnOk result (has_place places.new.entries birth ≡ true) }
    ensures kept { (q : ℕ) → has_place places.old.entries q ≡ true → has_place places.new.entries q ≡ true }
    ensures others { (q : ℕ)
        → has_place places.new.entries q ≡ true → (has_place places.old.entries q ≡ true) ⊎ (q ≡ birth) }
{
    if places.contains_key(&birth) {
        return Ok(());
    }
    match places.insert(birth, None) {
        Ok(_) => Ok(()),
        Err(_) => Err(Mem),
    }
}

/// Puts a row into the birth's place.
pub(crate) fn set_row<R: Drop>(places: &mut Places<R>, birth: u64, row: R)
    requires { has_place places.old.entries birth ≡ true }
    ensures rows { (q : ℕ)
        → row_in places.new.entries q ≡ cond (is_at (nat_cmp birth) q) (Some row) (row_in places.old.entries q) }
    ensures places { (q : ℕ) → has_place places.new.entries q ≡ has_place places.old.entries q }
{
    match places.get_mut(&birth) {
        Some(place) => *place = Some(row),
        None => unreachable!(),
    }
}

/// Takes the row out of the birth's place, which stays.
pub(crate) fn take_row<R: Drop>(places: &mut Places<R>, birth: u64) -> Option<R>
    requires { has_place places.old.entries birth ≡ true }
    ensures row { result ≡ row_in places.old.entries birth }
    ensures rows { (q : ℕ)
        → row_in places.new.entries q ≡ cond (is_at (nat_cmp birth) q) None (row_in places.old.entries q) }
    ensures places { (q : ℕ) → has_place places.new.entries q ≡ has_place places.old.entries q }
{
    match places.get_mut(&birth) {
        Some(place) => place.take(),
        None => unreachable!(),
    }
}

/// Whether some place has a row.
pub(crate) fn has_row<R>(places: &Places<R>) -> bool
    ensures { result ≡ has_row places.now.entries }
{
    for birth in places.keys() {
        if is_filled(places, *birth) {
            return true;
        }
    }
    false
}

/// Adds the births of the rows, in order.
pub(crate) fn add_births<R>(places: &Places<R>, births: &mut Vec<u64>) -> Result<(), Mem>
    ensures births { OnOk result (births.new.items ≡ births.old.items ++ births_with_rows places.now.entries) }
    ensures ordered { IsStrictlySortedBy nat_cmp (keys_of places.now.entries) }
{
    for birth in places.keys() {
        if is_filled(places, *birth) {
            births.push(*birth)?;
        }
    }
    Ok(())
}

// Whether the birth's place has a row.
fn is_filled<R>(places: &Places<R>, birth: u64) -> bool
    ensures { result ≡ is_some (row_in places.now.entries birth) }
{
    row(places, birth).is_some()
}

/// Clones of the rows, each in a place of its own: an empty place isn't copied.
pub(crate) fn copy_of<R: Clone>(alloc: Global, places: &Places<R>) -> Result<Places<R>, Mem>
    requires { (row copy : R) → R.is_clone row copy → copy ≡ row }
    ensures { IfOk result (λ copy. IsCopy places.now.entries copy.entries) }
{
    let mut copy = BTreeMap::new(alloc);
    for birth in places.keys() {
        copy_row(places, *birth, &mut copy)?;
    }
    Ok(copy)
}

// Adds a clone of the row of a birth, if it has one.
fn copy_row<R: Clone>(places: &Places<R>, birth: u64, copy: &mut Places<R>) -> Result<(), Mem>
    requires { (row copy : R) → R.is_clone row copy → copy ≡ row }
    ensures { OnOk result (CopiesRow places.now.entries copy.old.entries copy.new.entries birth) }
{
    match row(places, birth) {
        Some(row) => put_row(copy, birth, row.clone()?),
        None => Ok(()),
    }
}

// Adds a place with a row.
fn put_row<R: Drop>(places: &mut Places<R>, birth: u64, row: R) -> Result<(), Mem>
    ensures { OnOk result ((q : ℕ) → at places.new.entries q
        ≡ cond (is_at (nat_cmp birth) q) (Some (Some row)) (at places.old.entries q)) }
{
    match places.insert(birth, Some(row)) {
        Ok(_) => Ok(()),
        Err(_) => Err(Mem),
    }
}

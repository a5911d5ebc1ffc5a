// One page, which is owned or shared.
ghost use Rattle.std.specs.Prelude.{◌≡◌, ◌⊎◌, ℕ, true, false, cond, None, Some, is_some, IfOk, OnOk};
ghost use Rattle.std.specs.BTreeMap.{is_at};
ghost use Rattle.std.specs.Ordering.{nat_cmp};
ghost use Rattle.ecr_pages.specs.Places.{row_in, has_place, places_of, owns_place, IsCopied};

use crate::places::Places;
use crate::{Mem, places};
use std::alloc::Global;
use std::collections::BTreeMap;
use std::mem;
use std::sync::Arc;

/// A page: its places are its own, or others may hold them too.
#[derive(Drop)]
pub(crate) enum Page<R> {
    Owned(Places<R>),
    Shared(Arc<Places<R>, Global>),
}

impl<R: Drop> Page<R> {
    /// The places.
    pub(crate) fn places(&self) -> &Places<R>
        ensures { result.now.entries ≡ places_of self.now }
    {
        match self {
            Page::Owned(places) => places,
            Page::Shared(places) => &**places,
        }
    }

    /// Makes the page owned, and gives the birth a place.
    pub(crate) fn own(&mut self, alloc: Global, birth: u64) -> Result<(), Mem>
    where
        R: Clone,
        requires { (row copy : R) → R.is_clone row copy → copy ≡ row }
        ensures rows { (q : ℕ) → row_in (places_of self.new) q ≡ row_in (places_of self.old) q }
        ensures owned { OnOk result (owns_place (Some self.new) birth ≡ true) }
        ensures kept { (q : ℕ) → owns_place (Some self.old) q ≡ true → owns_place (Some self.new) q ≡ true }
        ensures others { (q : ℕ) → has_place (places_of self.new) q ≡ true
            → (has_place (places_of self.old) q ≡ true) ⊎ (q ≡ birth) }
    {
        if let Some(copy) = self.copied(alloc)? {
            *self = Page::Owned(copy);
        }
        match self {
            Page::Owned(places) => places::add_place(places, birth),
            Page::Shared(_) => unreachable!(),
        }
    }

    // The places of a shared page, copied.
    fn copied(&self, alloc: Global) -> Result<Option<Places<R>>, Mem>
    where
        R: Clone,
        requires { (row copy : R) → R.is_clone row copy → copy ≡ row }
        ensures { IfOk result (λ copy. IsCopied self.now copy) }
    {
        match self {
            Page::Owned(_) => Ok(None),
            Page::Shared(places) => Ok(Some(places::copy_of(alloc, &**places)?)),
        }
    }

    /// Puts a row into the birth's place.
    pub(crate) fn set(&mut self, birth: u64, row: R)
        requires { owns_place (Some self.old) birth ≡ true }
        ensures rows { (q : ℕ) → row_in (places_of self.new) q
            ≡ cond (is_at (nat_cmp birth) q) (Some row) (row_in (places_of self.old) q) }
        ensures owned { (q : ℕ) → owns_place (Some self.new) q ≡ owns_place (Some self.old) q }
        ensures places { (q : ℕ) → has_place (places_of self.new) q ≡ has_place (places_of self.old) q }
    {
        match self {
            Page::Owned(places) => places::set_row(places, birth, row),
            Page::Shared(_) => unreachable!(),
        }
    }

    /// Takes the row out of the birth's place.
    pub(crate) fn take(&mut self, birth: u64) -> Option<R>
        requires { owns_place (Some self.old) birth ≡ true }
        ensures row { result ≡ row_in (places_of self.old) birth }
        ensures rows { (q : ℕ)
            → row_in (places_of self.new) q ≡ cond (is_at (nat_cmp birth) q) None (row_in (places_of self.old) q) }
        ensures owned { (q : ℕ) → owns_place (Some self.new) q ≡ owns_place (Some self.old) q }
        ensures places { (q : ℕ) → has_place (places_of self.new) q ≡ has_place (places_of self.old) q }
    {
        match self {
            Page::Owned(places) => places::take_row(places, birth),
            Page::Shared(_) => unreachable!(),
        }
    }

    /// Makes the page shared, and gives a further holder of its places.
    pub(crate) fn share(&mut self, alloc: Global) -> Result<Arc<Places<R>, Global>, Mem>
        ensures places { places_of self.new ≡ places_of self.old }
        ensures shared { IfOk result (λ places. places.value.entries ≡ places_of self.old) }
        ensures owned { OnOk result ((q : ℕ) → owns_place (Some self.new) q ≡ false) }
        ensures kept { (q : ℕ) → owns_place (Some self.new) q ≡ true → owns_place (Some self.old) q ≡ true }
    {
        match self {
            Page::Owned(places) => {
                let moved = mem::replace(places, BTreeMap::new(alloc));
                match Arc::new(alloc, moved) {
                    Ok(shared) => *self = Page::Shared(shared),
                    Err(refused) => {
                        *places = refused.value;
                        return Err(Mem);
                    }
                }
            }
            Page::Shared(_) => {}
        }
        match self {
            Page::Shared(places) => Arc::try_clone(places),
            Page::Owned(_) => unreachable!(),
        }
    }
}

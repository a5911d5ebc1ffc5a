// Who keeps the account of a session.
ghost use Rattle.std.specs.Prelude.{◌<◌, ◌≡◌, ℕ, IfOk, OnOk};
ghost use Rattle.ecr_model.specs.sessions.Sessions.{Account};
ghost use Rattle.ecr_session.specs.Accounts.{noted};

use ecr_model::{Cut, Mem, Moment, Place};
use std::alloc::Global;

/// Who keeps what a session says of its requests. What a session does is the same whoever it is.
pub(crate) trait Keeper {
    // Whether the keeper may stand for an account: for exactly one where it keeps all, for any where it keeps nothing.
    ghost stands_for: { Self → Account → Type 0 };

    // There is room for what is said of one request more.
    ghost has_room: { Self → Type 0 };

    // How many requests can still be noted.
    ghost left: { Self → ℕ };

    /// Takes the room for what is said of one request more.
    fn make_room(&mut self) -> Result<(), Mem>
        ensures room { OnOk result (has_room self.new) }
        ensures stands { (account : Account) → stands_for self.old account → stands_for self.new account }
        ensures left { left self.new ≡ left self.old };

    /// Notes what is said of a request, for which there is room: its moment, the places of its turns, and its cut.
    fn note(&mut self, moment: Moment, places: Vec<Place>, cut: Cut)
        requires room { has_room self.old }
        ensures stands { (account : Account) → stands_for self.old account
            → stands_for self.new (noted account moment places.items cut) }
        ensures nearer { left self.new < left self.old };
}

/// Keeps all that is said: a moment, a list of places and a cut for each request.
#[derive(Drop)]
pub(crate) struct Kept {
    pub moments: Vec<Moment>,
    pub places: Vec<Vec<Place>>,
    pub cuts: Vec<Cut>,
}

impl Kept {
    ghost use Rattle.std.specs.Prelude.{◌≡◌};
    ghost use Rattle.ecr_session.specs.Accounts.{account_in, no_account};

    /// Nothing was said yet.
    pub(crate) fn new(alloc: Global) -> Kept
        ensures { account_in result ≡ no_account }
    {
        Kept {
            moments: Vec::new(alloc),
            places: Vec::new(alloc),
            cuts: Vec::new(alloc),
        }
    }
}

impl Keeper for Kept {
    ghost use Rattle.std.specs.Prelude.{◌≡◌, ◌-◌, ◌^◌, vec_len};
    ghost use Rattle.ecr_session.specs.Accounts.{HasRoom, account_in};

    ghost stands_for = { λ kept account. account_in kept ≡ account };

    ghost has_room = { λ kept. HasRoom kept };

    ghost left = { λ kept. 2 ^ 64 - vec_len kept.cuts };

    fn make_room(&mut self) -> Result<(), Mem> {
        self.moments.reserve(1)?;
        self.places.reserve(1)?;
        self.cuts.reserve(1)
    }

    fn note(&mut self, moment: Moment, places: Vec<Place>, cut: Cut) {
        self.moments.push_reserved(moment);
        self.places.push_reserved(places);
        self.cuts.push_reserved(cut);
    }
}

/// Keeps nothing, so that what a session takes in memory doesn't grow with its requests.
#[derive(Drop)]
pub(crate) struct Unkept {
    // How many requests may still be noted, of 2^64 - 1.
    left: u64,
}

impl Unkept {
    /// Nothing was said yet.
    pub(crate) fn new() -> Unkept {
        Unkept { left: u64::MAX }
    }
}

impl Keeper for Unkept {
    ghost use Rattle.std.specs.Prelude.{◌<◌, ⊤};

    ghost stands_for = { λ unkept account. ⊤ };

    ghost has_room = { λ unkept. 0 < unkept.left };

    ghost left = { λ unkept. unkept.left };

    fn make_room(&mut self) -> Result<(), Mem> {
        if self.left == 0 { Err(Mem) } else { Ok(()) }
    }

    fn note(&mut self, _moment: Moment, _places: Vec<Place>, _cut: Cut) {
        self.left -= 1;
    }
}

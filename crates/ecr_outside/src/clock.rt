// What the time is.
ghost use Rattle.std.specs.Prelude.{◌≡◌, ◌≤◌, ◌∷◌, [], ℕ, List, Option, is_some, Some};
ghost use Rattle.std.specs.Io.KnownBytes.{Appends};
ghost use Rattle.ecr_outside.specs.Clock.{moment_at};
ghost use Rattle.ecr_outside.specs.Plan.{next_call};

use crate::told::Told;
use ecr_model::{MAX_MOMENT, Moment};
use std::marker::Model;

/// What the time is.
pub trait Clock {
    /// The moments that it has given, the first one first, where the clock tells them.
    ghost told: { Self → Option (List ℕ) };

    /// The moment now, which may be before one that was given earlier.
    fn now(&mut self) -> Moment
        ensures at_most { result ≤ MAX_MOMENT }
        ensures told { Appends (told self.old) (told self.new) (result ∷ []) }

        // A clock that tells its moments goes on to tell them, and no other begins to.
        ensures tells { is_some (told self.new) ≡ is_some (told self.old) };
}

/// A clock in memory. Contracts see the moments that it has given, which it tells, those that it is to
/// give, and the number of its next call.
#[derive(Drop)]
pub struct MemClock {
    moments: Vec<Moment>,
    calls: u64,
    told: Told,
}

impl Model for MemClock {
    ghost use Rattle.ecr_outside.specs.Clock.{Dial};

    ghost Value = { Dial };

    ghost view = { λ c. record { told = c.told; moments = c.moments.items; calls = c.calls } };
}

impl MemClock {
    /// A clock that gives these moments in their order, and past the end the last one again. It
    /// gives 0 where there is none, and [`MAX_MOMENT`] for a later one. Its calls count from 0.
    pub fn new(moments: Vec<Moment>) -> MemClock
        ensures told { result.told ≡ [] }
        ensures moments { result.moments ≡ moments.items }
        ensures calls { result.calls ≡ 0 }
    {
        MemClock {
            moments,
            calls: 0,
            told: Told::none(),
        }
    }
}

impl Clock for MemClock {
    ghost told = { λ c. Some c.told };

    fn now(&mut self) -> Moment
        ensures at_most { result ≤ MAX_MOMENT }
        ensures told { Appends (Some self.old.told) (Some self.new.told) (result ∷ []) }
        ensures tells { is_some (Some self.new.told) ≡ is_some (Some self.old.told) }

        // The moment is known before, by the call's number.
        ensures moment { result ≡ moment_at self.old.moments self.old.calls }
        ensures calls { self.new.calls ≡ next_call self.old.calls }
        ensures moments { self.new.moments ≡ self.old.moments }
    {
        let moment = moment_at(&self.moments, self.calls);
        self.calls = self.calls.saturating_add(1);
        self.told.add(moment);
        moment
    }
}

// The moment of the call of this number.
fn moment_at(moments: &[Moment], call: u64) -> Moment
    ensures { result ≡ moment_at moments.now call }
{
    if moments.is_empty() {
        return 0;
    }
    let at = (call as usize).min(moments.len() - 1);
    moments[at].min(MAX_MOMENT)
}

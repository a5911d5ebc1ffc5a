// How a session is served, and what it says at its end.
ghost use Rattle.std.specs.Prelude.{◌≡◌, map};
ghost use Rattle.ecr_session.specs.Accounts.{account_in};

use crate::keeper::Kept;
use ecr_model::{Cut, End, Moment, Place};

/// How a session is served.
#[derive(Clone, Copy)]
pub struct Mode {
    /// Whether requests of control are served, which none is yet.
    pub control: bool,
    /// The moment of each request, in seconds; without it the clock is asked once for each.
    pub fixed: Option<Moment>,
}

/// How a session ended, and what it says of its requests: one moment, one list of places and one cut for each that was
/// answered.
#[derive(Drop)]
pub struct SessionEnd<P> {
    /// That of a caller of several, where there is one.
    pub pass: P,
    /// In seconds.
    pub moments: Vec<Moment>,
    pub places: Vec<Vec<Place>>,
    pub cuts: Vec<Cut>,
    pub end: End,
}

/// What a session says at its end, with the pass of its caller.
pub(crate) fn ended<P>(kept: Kept, end: End, pass: P) -> SessionEnd<P>
    ensures account { (record {
      moments = result.moments.items;
      places = map (λ v. v.items) result.places.items;
      cuts = result.cuts.items;
    }) ≡ account_in kept }
    ensures cuts { result.cuts.items ≡ kept.cuts.items }
    ensures end { result.end ≡ end }
    ensures pass { result.pass ≡ pass }
{
    let Kept {
        moments,
        places,
        cuts,
    } = kept;
    SessionEnd {
        pass,
        moments,
        places,
        cuts,
        end,
    }
}

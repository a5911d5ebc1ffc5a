// A session over a desk of one caller.
ghost use Rattle.std.specs.Prelude.{◌≡◌, ◌<◌, ◌+◌, false, length, map};
ghost use Rattle.ecr_model.specs.laws.SessionLaws.{all_places};
ghost use Rattle.ecr_model.specs.sessions.Sessions.{Account, Outside, Serves, Setting};
ghost use Rattle.ecr_model.specs.registry.Soundness.{AreFresh};
ghost use Rattle.ecr_desk.specs.Desks.{still_of};
ghost use Rattle.ecr_session.specs.Accounts.{entries_in};

use crate::ending::{Mode, SessionEnd, ended};
use crate::keeper::Kept;
use crate::session::run_session;
use crate::stages::Unwatched;
use ecr_desk::StillDesk;
use ecr_outside::{Clock, Sink, Source};
use std::alloc::Global;

/// Serves the requests of the source by the desk until the session ends, and says how.
///
/// Each reply is written as soon as its request was answered, and a request's moment is taken once it was read whole.
/// The room for what the session says of a request is taken before the request is read. A request that finds no memory
/// is answered by the fixed reply, the turns that it made stay, and the session goes on.
pub fn session_still<D: StillDesk, S: Source, K: Sink, C: Clock>(
    alloc: Global,
    desk: &mut D,
    mode: Mode,
    source: &mut S,
    sink: &mut K,
    clock: &mut C,
) -> SessionEnd<()>
    requires plain { mode.control ≡ false }
    requires some { 0 < length (D.seen desk.old).realm.served }

    // What the session read, answered and wrote, and what is on the desk afterwards.
    ensures serves { Serves
        (record { realm = (D.seen desk.old).realm; first = (still_of (D.seen desk.old)).world; fixed = mode.fixed })
        (record {
          left = S.left source.old;
          held = K.held sink.old;
          told = C.told clock.old;
          read_faults = S.faults source.old;
          write_faults = K.faults sink.old;
        })
        (record {
          left = S.left source.new;
          held = K.held sink.new;
          told = C.told clock.new;
          read_faults = S.faults source.new;
          write_faults = K.faults sink.new;
        })
        (record {
          moments = result.moments.items;
          places = map (λ v. v.items) result.places.items;
          cuts = result.cuts.items;
        })
        (still_of (D.seen desk.new)).world result.end }
    ensures realm_stays { (D.seen desk.new).realm ≡ (D.seen desk.old).realm }

    // Each place is above all tickets that stood in its cell before, and the tickets of one cell don't fall.
    ensures fresh { AreFresh (still_of (D.seen desk.old)).world.journals
        (all_places (map (λ v. v.items) result.places.items)) }
    ensures counted { (D.seen desk.new).made ≡ (D.seen desk.old).made + entries_in result.cuts.items }
{
    // That the desk's journals are sound comes with what it serves.
    let _sites = desk.served();
    let (kept, end) = run_session(
        alloc,
        desk,
        Kept::new(alloc),
        mode.fixed,
        source,
        sink,
        clock,
        &Unwatched,
    );
    ended(kept, end, ())
}

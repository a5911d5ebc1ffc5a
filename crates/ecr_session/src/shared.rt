// A session of one caller among many.
ghost use Rattle.std.specs.Prelude.{◌≡◌, ◌<◌, ◌+◌, false, length, map};
ghost use Rattle.ecr_model.specs.laws.SessionLaws.{all_places};
ghost use Rattle.ecr_model.specs.sessions.Callers.{AreBetween, ServesAmong};
ghost use Rattle.ecr_model.specs.sessions.Sessions.{Account, Outside, SettingOf};
ghost use Rattle.ecr_desk.specs.Desks.{IsOf};
ghost use Rattle.ecr_session.specs.Accounts.{AccountsFor, entries_in};

use crate::ending::{Mode, SessionEnd, ended};
use crate::keeper::{Kept, Unkept};
use crate::session::run_session;
use crate::stages::AtGate;
use ecr_desk::{AtDesk, Desk, Seen};
use ecr_model::End;
use ecr_outside::{Clock, Gate, Sink, Source};
use std::alloc::Global;
use std::sync::Wait;

/// Serves the requests of the source by a desk of many callers, under the pass, until the session ends, and gives the
/// pass back.
///
/// Each reply is that of its request's turns over the journals that the pass has seen at last, whatever other callers
/// enter meanwhile. Each is written as soon as its request was answered, and a request's moment is taken once it was
/// read whole. A request that finds no memory is answered by the fixed reply, the turns that it made stay, and the
/// session goes on. The worker passes the gate at [`Stage::InCall`](ecr_outside::Stage) for each request after its
/// moment was taken, and at [`Stage::Answered`](ecr_outside::Stage) after each reply was sent, both outside every turn.
pub fn serve_session<W: Wait, D: Desk, S: Source, K: Sink, C: Clock, G: Gate>(
    rt: &W,
    alloc: Global,
    desk: &D,
    pass: D::Pass,
    mode: Mode,
    worker: u32,
    source: &mut S,
    sink: &mut K,
    clock: &mut C,
    gate: &G,
) -> SessionEnd<D::Pass>
    requires plain { mode.control ≡ false }
    requires some { 0 < length (D.shared desk.now).realm.served }
    requires of { IsOf (D.shared desk.now) (D.Pass.seen pass) }

    // What the session read, answered and wrote, and what its caller has seen afterwards.
    ensures serves { ServesAmong
        (record { realm = (D.shared desk.now).realm; first = (D.Pass.seen pass).views; fixed = mode.fixed })
        (record {
          left = S.left source.old;
          held = K.held sink.old;
          told = C.told clock.old;
          read_faults = S.faults source.old;
          write_faults = K.faults sink.old;
        })
        (record {
          left = S.left source.new;
          held = K.held sink.new;
          told = C.told clock.new;
          read_faults = S.faults source.new;
          write_faults = K.faults sink.new;
        })
        (record {
          moments = result.moments.items;
          places = map (λ v. v.items) result.places.items;
          cuts = result.cuts.items;
        })
        (D.Pass.seen result.pass).views result.end }
    ensures of { IsOf (D.shared desk.now) (D.Pass.seen result.pass) }

    // Each place was drawn in this session, and the tickets of one cell rise.
    ensures fresh { AreBetween (D.Pass.seen pass).views (D.Pass.seen result.pass).views
        (all_places (map (λ v. v.items) result.places.items)) }
    ensures counted { (D.Pass.seen result.pass).made ≡ (D.Pass.seen pass).made + entries_in result.cuts.items }
{
    let mut caller = AtDesk::new(rt, desk, pass);
    let (kept, end) = run_session(
        alloc,
        &mut caller,
        Kept::new(alloc),
        mode.fixed,
        source,
        sink,
        clock,
        &AtGate { rt, gate, worker },
    );
    ended(kept, end, caller.into_pass())
}

/// How a link's session ended.
#[derive(Drop)]
pub struct LinkEnd<P> {
    /// That of its caller.
    pub pass: P,
    pub end: End,
}

/// Serves the requests of the source as [`serve_session`] does, and keeps nothing of what it says of them, so that the
/// memory that a link takes doesn't grow with the requests that it answered.
pub fn serve_link<W: Wait, D: Desk, S: Source, K: Sink, C: Clock, G: Gate>(
    rt: &W,
    alloc: Global,
    desk: &D,
    pass: D::Pass,
    mode: Mode,
    worker: u32,
    source: &mut S,
    sink: &mut K,
    clock: &mut C,
    gate: &G,
) -> LinkEnd<D::Pass>
    requires plain { mode.control ≡ false }
    requires some { 0 < length (D.shared desk.now).realm.served }
    requires of { IsOf (D.shared desk.now) (D.Pass.seen pass) }

    // There are moments, places and cuts by which the session is one that `serve_session` would have served.
    ensures serves { AccountsFor
        (record { realm = (D.shared desk.now).realm; first = (D.Pass.seen pass).views; fixed = mode.fixed })
        (record {
          left = S.left source.old;
          held = K.held sink.old;
          told = C.told clock.old;
          read_faults = S.faults source.old;
          write_faults = K.faults sink.old;
        })
        (record {
          left = S.left source.new;
          held = K.held sink.new;
          told = C.told clock.new;
          read_faults = S.faults source.new;
          write_faults = K.faults sink.new;
        })
        (D.Pass.seen pass) (D.Pass.seen result.pass) result.end }
    ensures of { IsOf (D.shared desk.now) (D.Pass.seen result.pass) }
{
    let mut caller = AtDesk::new(rt, desk, pass);
    let (_unkept, end) = run_session(
        alloc,
        &mut caller,
        Unkept::new(),
        mode.fixed,
        source,
        sink,
        clock,
        &AtGate { rt, gate, worker },
    );
    LinkEnd {
        pass: caller.into_pass(),
        end,
    }
}

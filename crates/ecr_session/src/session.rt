// How a session goes on, and what it keeps.
ghost use Rattle.std.specs.Prelude.{◌<◌, length};
ghost use Rattle.ecr_model.specs.sessions.Sessions.{IsTime};
ghost use Rattle.ecr_session.specs.Accounts.{no_account};
ghost use Rattle.ecr_session.specs.Serving.{EndsBy};

use crate::answer::answer_request;
use crate::fixed::{bad_reply, is_head, long_reply};
use crate::keeper::Keeper;
use crate::stages::Stages;
use ecr_desk::AnyDesk;
use ecr_errors::fixed_500;
use ecr_http::{Event, HttpReply, Reader, Sent, closes};
use ecr_model::{End, Moment, Request};
use ecr_outside::{Clock, Sink, Source, Stage};
use json::Scratch;
use std::alloc::Global;

/// Serves the requests of the source by the desk until the session ends. Gives the keeper of its account back, and says
/// how it ended. The moment of a request is the fixed one, or else each time the clock's. The stages of each are passed.
pub(crate) fn run_session<A: Keeper, D: AnyDesk, S: Source, K: Sink, C: Clock, G: Stages>(
    alloc: Global,
    desk: &mut D,
    keeper: A,
    fixed: Option<Moment>,
    source: &mut S,
    sink: &mut K,
    clock: &mut C,
    stages: &G,
) -> (A, End)
    requires none { A.stands_for keeper no_account }
    requires some { 0 < length (D.seen desk.old).realm.served }
    ensures serves { EndsBy (A.stands_for result.0)
        (record { realm = (D.seen desk.old).realm; first = D.seen desk.old; fixed = fixed })
        (record {
          left = S.left source.old;
          held = K.held sink.old;
          told = C.told clock.old;
          read_faults = S.faults source.old;
          write_faults = K.faults sink.old;
        })
        (record {
          left = S.left source.new;
          held = K.held sink.new;
          told = C.told clock.new;
          read_faults = S.faults source.new;
          write_faults = K.faults sink.new;
        })
        (D.seen desk.new) result.1 }
{
    let Ok(reader) = Reader::new(alloc) else {
        return (keeper, End::Mem);
    };
    let mut scratch = Scratch::new(alloc);
    let mut session = Session { reader, keeper };
    let end = session.run(
        alloc,
        &mut scratch,
        desk,
        fixed,
        source,
        sink,
        clock,
        stages,
    );
    (session.keeper, end)
}

// What a session keeps: how far its source was read, and what its keeper has of its account.
#[derive(Drop)]
struct Session<A> {
    reader: Reader,
    keeper: A,
}

impl<A: Keeper> Session<A> {
    ghost use Rattle.std.specs.Prelude.{◌≡◌, ◌+◌, ◌<◌, ◌≤◌, ◌≢◌, ℕ, List, [], false, length, Option, Some, IfOk, IfNone};
    ghost use Rattle.ecr_model.specs.sessions.Sessions.{Account, Outside, SettingOf};
    ghost use Rattle.ecr_session.specs.Accounts.{entries_in, no_account};
    ghost use Rattle.ecr_desk.specs.Desks.{DeskState};
    ghost use Rattle.ecr_session.specs.Serving.{HasCome, GoesOn, EndsBy, ServesRequest, SendsLast, reply_bytes};
    ghost use Rattle.ecr_http.specs.Sends.{Sends};
    ghost use Rattle.ecr_model.specs.http.Replies.{is_head};
    ghost use Rattle.ecr_model.specs.http.Stream.{closes, start};

    // Serves requests until the session ends, and says how. Their moment is the fixed one, or else each time the
    // clock's. Their bodies are read by the scratch. The stages of each are passed.
    fn run<D: AnyDesk, S: Source, K: Sink, C: Clock, G: Stages>(
        &mut self,
        alloc: Global,
        scratch: &mut Scratch,
        desk: &mut D,
        fixed: Option<Moment>,
        source: &mut S,
        sink: &mut K,
        clock: &mut C,
        stages: &G,
    ) -> End
        requires fresh { self.old.reader ≡ start [] }
        requires none { A.stands_for self.old.keeper no_account }
        requires some { 0 < length (D.seen desk.old).realm.served }
        ensures serves { EndsBy (A.stands_for self.new.keeper)
            (record { realm = (D.seen desk.old).realm; first = D.seen desk.old; fixed = fixed })
            (record {
              left = S.left source.old;
              held = K.held sink.old;
              told = C.told clock.old;
              read_faults = S.faults source.old;
              write_faults = K.faults sink.old;
            })
            (record {
              left = S.left source.new;
              held = K.held sink.new;
              told = C.told clock.new;
              read_faults = S.faults source.new;
              write_faults = K.faults sink.new;
            })
            (D.seen desk.new) result }
    {
        loop {
            if let Some(end) = self.take_turn(
                alloc, scratch, desk, fixed, source, sink, clock, stages,
            ) {
                return end;
            }
        }
    }

    // Serves what comes next of the source. The room for what is said of it is taken first: where there is none,
    // nothing is read.
    fn take_turn<D: AnyDesk, S: Source, K: Sink, C: Clock, G: Stages>(
        &mut self,
        alloc: Global,
        scratch: &mut Scratch,
        desk: &mut D,
        fixed: Option<Moment>,
        source: &mut S,
        sink: &mut K,
        clock: &mut C,
        stages: &G,
    ) -> Option<End>
        requires opened { self.old.reader.closed ≡ false }
        requires some { 0 < length (D.seen desk.old).realm.served }
        ensures goes_on { (set : SettingOf DeskState) (before : Outside) (account : Account)
            → A.stands_for self.old.keeper account → set.fixed ≡ fixed → HasCome set before
            (record {
              left = S.left source.old;
              held = K.held sink.old;
              told = C.told clock.old;
              read_faults = S.faults source.old;
              write_faults = K.faults sink.old;
            })
            self.old.reader account (D.seen desk.old)
            → GoesOn (A.stands_for self.new.keeper) set before
            (record {
              left = S.left source.new;
              held = K.held sink.new;
              told = C.told clock.new;
              read_faults = S.faults source.new;
              write_faults = K.faults sink.new;
            })
            self.new.reader (D.seen desk.new) result }

        // A turn notes a request, and there is an end of those that can be noted.
        ensures nearer { IfNone result (A.left self.new.keeper < A.left self.old.keeper) }
    {
        if self.keeper.make_room().is_err() {
            return Some(End::Mem);
        }
        match self.reader.next(alloc, source, sink) {
            Event::Request(request) => {
                self.serve(alloc, scratch, desk, fixed, &request, sink, clock, stages)
            }
            Event::End => Some(End::Whole),
            Event::Truncated(at) => Some(End::Truncated { at }),
            Event::Bad(at) => Some(self.refuse(sink, stages, bad_reply(), End::Bad { at })),
            Event::TooLong { at, section, limit } => {
                Some(self.refuse(
                    sink,
                    stages,
                    long_reply(section),
                    End::TooLong { at, limit },
                ))
            }
            Event::ReadFault => Some(End::ReadFault),
            Event::WriteFault => Some(End::WriteFault),
            Event::Spent => Some(End::Spent),
            Event::Mem => Some(End::Mem),
        }
    }

    // Answers one request, and sends the reply. What is said of it has its room.
    fn serve<D: AnyDesk, K: Sink, C: Clock, G: Stages>(
        &mut self,
        alloc: Global,
        scratch: &mut Scratch,
        desk: &mut D,
        fixed: Option<Moment>,
        request: &Request,
        sink: &mut K,
        clock: &mut C,
        stages: &G,
    ) -> Option<End>
        requires some { 0 < length (D.seen desk.old).realm.served }
        requires room { A.has_room self.old.keeper }
        ensures serves { (left : Option (List ℕ)) (faults : ℕ) (account : Account)
            → A.stands_for self.old.keeper account → ServesRequest (A.stands_for self.new.keeper) fixed request.now
            (record {
              left = left;
              held = K.held sink.old;
              told = C.told clock.old;
              read_faults = faults;
              write_faults = K.faults sink.old;
            }) account (D.seen desk.old)
            (record {
              left = left;
              held = K.held sink.new;
              told = C.told clock.new;
              read_faults = faults;
              write_faults = K.faults sink.new;
            }) (D.seen desk.new) result }
        ensures reader { self.new.reader ≡ self.old.reader }
        ensures nearer { A.left self.new.keeper < A.left self.old.keeper }
        ensures later { K.faults sink.old ≤ K.faults sink.new }
        ensures cause { result ≡ Some End.WriteFault → K.faults sink.old < K.faults sink.new }
    {
        let moment = moment_of(fixed, clock);
        stages.at(Stage::InCall);
        let answer = answer_request(alloc, scratch, desk, moment, request);
        self.keeper.note(moment, answer.places, answer.cut);
        match self.send(sink, &answer.reply, request) {
            Sent::WriteFault => Some(End::WriteFault),
            Sent::Done => {
                stages.at(Stage::Answered);
                if closes(request) {
                    Some(End::Whole)
                } else {
                    None
                }
            }
        }
    }

    // Sends the reply to a request, or the fixed one where there was no memory for it.
    fn send<K: Sink>(&mut self, sink: &mut K, reply: &Option<HttpReply>, request: &Request) -> Sent
        ensures sends { Sends (K.held sink.old) (K.held sink.new)
            (reply_bytes (is_head request.now) (closes request.now) reply.now) result }
        ensures kept { self.new ≡ self.old }
        ensures later { K.faults sink.old ≤ K.faults sink.new }
        ensures cause { result ≡ Sent.WriteFault → K.faults sink.old < K.faults sink.new }
    {
        match reply {
            Some(reply) => self.reader.send(sink, reply),
            None => {
                let reply = fixed_500(closes(request), is_head(request));
                self.reader.send_fixed(sink, reply)
            }
        }
    }

    // Sends the reply to what is no request, after which the session ends like that.
    fn refuse<K: Sink, G: Stages>(
        &mut self,
        sink: &mut K,
        stages: &G,
        reply: &[u8],
        last: End,
    ) -> End
        requires { last ≢ End.WriteFault }
        ensures sends { SendsLast (K.held sink.old) (K.held sink.new) reply.now last result }
        ensures kept { self.new ≡ self.old }
        ensures later { K.faults sink.old ≤ K.faults sink.new }
        ensures cause { result ≡ End.WriteFault → K.faults sink.old < K.faults sink.new }
    {
        match self.reader.send_fixed(sink, reply) {
            Sent::Done => {
                stages.at(Stage::Answered);
                last
            }
            Sent::WriteFault => End::WriteFault,
        }
    }
}

// The fixed moment, or else the clock's.
fn moment_of<C: Clock>(fixed: Option<Moment>, clock: &mut C) -> Moment
    ensures { IsTime fixed (C.told clock.old) (C.told clock.new) result }
{
    match fixed {
        Some(moment) => moment,
        None => clock.now(),
    }
}

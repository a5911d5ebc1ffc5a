// The next event of a source.
ghost use Rattle.std.specs.Prelude.{◌≡◌, ◌<◌, ◌≤◌, ℕ, true, List, Option, Some, Err, OnOk, take};
ghost use Rattle.ecr_model.specs.http.Framing.{max_head, IsEnd, Parses, waits};
ghost use Rattle.ecr_model.specs.http.Replies.{continue_reply, interim};
ghost use Rattle.ecr_model.specs.http.Stream.{request_of};
ghost use Rattle.ecr_http.specs.Sends.{Sends};

use crate::body::Taken;
use crate::buffer::Buffer;
use crate::events::Event;
use crate::fault::Fault;
use crate::framing::{fits_limit, framing_of, max_body, waits};
use crate::head::parse_head;
use crate::intake::Intake;
use crate::write::{Sent, send};
use ecr_model::{Framing, Head, Request, Section, Text};
use ecr_outside::{Sink, Source};
use std::alloc::Global;

impl Intake {
    ghost use Rattle.std.specs.Prelude.{[], false};
    ghost use Rattle.ecr_model.specs.http.Stream.{blank_length, start};
    ghost use Rattle.ecr_http.specs.Bodies.{FitsLimit};
    ghost use Rattle.ecr_http.specs.Events.{HasHead, Behind, TakesRequest, closes_after, event_of, point_of};
    ghost use Rattle.ecr_http.specs.NextHeads.{IsReady, IsRead};
    ghost use Rattle.ecr_http.specs.Reading.{Nexts};

    /// An intake that has read nothing.
    pub(crate) fn new(alloc: Global) -> Intake
        ensures ready { IsReady result }
        ensures empty { point_of result false ≡ start [] }
    {
        Intake {
            buffer: Buffer::new(alloc),
            at: 0,
            total: 0,
            scanned: 0,
        }
    }

    /// What comes next of the source.
    pub(crate) fn next_event<S: Source, K: Sink>(
        &mut self,
        alloc: Global,
        source: &mut S,
        sink: &mut K,
    ) -> Event
        requires ready { IsReady self.old }
        ensures next { Nexts (S.left source.old) (K.held sink.old) (point_of self.old false) (S.left source.new)
            (K.held sink.new) (point_of self.new (closes_after result)) result }
        ensures ready { closes_after result ≡ false → IsReady self.new }
        ensures reads_later { S.faults source.old ≤ S.faults source.new }
        ensures writes_later { K.faults sink.old ≤ K.faults sink.new }
        ensures read_cause { result ≡ Event.ReadFault → S.faults source.old < S.faults source.new }
        ensures write_cause { result ≡ Event.WriteFault → K.faults sink.old < K.faults sink.new }
    {
        let found = self.next_request(alloc, source, sink);
        self.event_of(found)
    }

    // The event for a request, or for the fault in its place. The source has ended between two requests where all bytes
    // that were read were used.
    fn event_of(&self, found: Result<Request, Fault>) -> Event
        ensures event { result ≡ event_of self.now found }
    {
        match found {
            Ok(request) => Event::Request(request),
            Err(Fault::Ended) => {
                if self.at == self.total {
                    Event::End
                } else {
                    Event::Truncated(self.at)
                }
            }
            Err(Fault::ReadFault) => Event::ReadFault,
            Err(Fault::WriteFault) => Event::WriteFault,
            Err(Fault::Spent) => Event::Spent,
            Err(Fault::Mem) => Event::Mem,
            Err(Fault::Bad) => Event::Bad(self.at),
            Err(Fault::TooLong(section, limit)) => Event::TooLong {
                at: self.at,
                section,
                limit,
            },
        }
    }

    // The request that comes next of the source.
    fn next_request<S: Source, K: Sink>(
        &mut self,
        alloc: Global,
        source: &mut S,
        sink: &mut K,
    ) -> Result<Request, Fault>
        requires ready { IsReady self.old }
        ensures next { TakesRequest (S.left source.old) (K.held sink.old) self.old (S.left source.new)
            (K.held sink.new) self.new
            result }
        ensures ready { OnOk result (IsReady self.new) }
        ensures reads_later { S.faults source.old ≤ S.faults source.new }
        ensures writes_later { K.faults sink.old ≤ K.faults sink.new }
        ensures read_cause { result ≡ Err Fault.ReadFault → S.faults source.old < S.faults source.new }
        ensures write_cause { result ≡ Err Fault.WriteFault → K.faults sink.old < K.faults sink.new }
    {
        let count = self.find_head(source)?;
        let Some(head) = parse_head(alloc, &self.buffer.as_slice()[..count])? else {
            return Err(Fault::Bad);
        };
        self.with_head(alloc, head, count, source, sink)
    }

    // A head of `count` bytes stands at the front.
    fn with_head<S: Source, K: Sink>(
        &mut self,
        alloc: Global,
        head: Head,
        count: usize,
        source: &mut S,
        sink: &mut K,
    ) -> Result<Request, Fault>
        requires ready { IsReady self.old }
        requires ends { IsEnd max_head self.old.buffer count }
        requires parses { Parses (take count self.old.buffer) (Some head) }
        ensures next { (before : Option (List ℕ)) (old : Intake)
            → IsRead before old (S.left source.old) self.old → blank_length self.old.buffer ≡ 0
            → TakesRequest before (K.held sink.old) old (S.left source.new) (K.held sink.new) self.new result }
        ensures ready { OnOk result (IsReady self.new) }
        ensures reads_later { S.faults source.old ≤ S.faults source.new }
        ensures writes_later { K.faults sink.old ≤ K.faults sink.new }
        ensures read_cause { result ≡ Err Fault.ReadFault → S.faults source.old < S.faults source.new }
        ensures write_cause { result ≡ Err Fault.WriteFault → K.faults sink.old < K.faults sink.new }
    {
        let Some(framing) = framing_of(&head) else {
            return Err(Fault::Bad);
        };
        let limit = max_body(head.target.as_bytes());
        if !fits_limit(framing, limit) {
            return Err(Fault::TooLong(Section::Body, limit));
        }
        match tell(&head, sink) {
            Sent::WriteFault => Err(Fault::WriteFault),
            Sent::Done => self.take_request(alloc, head, count, framing, limit, source),
        }
    }

    // Takes the body behind a head of `count` bytes.
    fn take_request<S: Source>(
        &mut self,
        alloc: Global,
        head: Head,
        count: usize,
        framing: Framing,
        limit: u64,
        source: &mut S,
    ) -> Result<Request, Fault>
        requires ready { IsReady self.old }
        requires head { HasHead self.old.buffer count head framing limit }
        requires fits { FitsLimit framing limit }
        ensures behind { Behind (S.left source.old) self.old (S.left source.new) self.new (waits head) result }
        ensures later { S.faults source.old ≤ S.faults source.new }
        ensures cause { result ≡ Err Fault.ReadFault → S.faults source.old < S.faults source.new }
    {
        self.buffer.skip(count);
        let Taken { body, size } = self.take_body(alloc, source, framing, limit)?;
        let at = self.at;
        self.at += (count + size) as u64;
        self.scanned = 0;
        Ok(request_of(at, head, body))
    }
}

// Tells the client to go on, where it waits for that.
fn tell<K: Sink>(head: &Head, sink: &mut K) -> Sent
    ensures sends { Sends (K.held sink.old) (K.held sink.new) (interim (waits head.now)) result }
    ensures waits { result ≡ Sent.WriteFault → waits head.now ≡ true }
    ensures later { K.faults sink.old ≤ K.faults sink.new }
    ensures cause { result ≡ Sent.WriteFault → K.faults sink.old < K.faults sink.new }
{
    if !waits(head) {
        return Sent::Done;
    }
    send(sink, continue_reply())
}

// The 100, for which a client waits (RFC 9110, section 15.2.1).
fn continue_reply() -> &'static [u8]
    ensures { result.now ≡ continue_reply }
{
    b"HTTP/1.1 100 Continue\r\n\r\n"
}

// A request by its head and its body.
fn request_of(at: u64, head: Head, body: Vec<u8>) -> Request
    ensures { result ≡ request_of at head body.items }
{
    let Head {
        method,
        target,
        minor,
        fields,
    } = head;
    Request {
        at,
        method,
        target,
        fields,
        body: Text::from_vec(body),
        minor,
    }
}

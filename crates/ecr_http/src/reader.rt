// The requests of a source, one after another.
ghost use Rattle.std.specs.Prelude.{◌≡◌, ◌<◌, ◌≤◌, [], false, ℕ, List, Option, IfOk, length};
ghost use Rattle.std.specs.Io.KnownBytes.{IsAtEnd};
ghost use Rattle.ecr_model.specs.http.Stream.{start};

use crate::events::Event;
use crate::intake::Intake;
use ecr_model::Mem;
use ecr_outside::{Sink, Source};
use std::alloc::Global;
use std::marker::Model;

/// The requests of a source. Contracts see how far the stream of all its bytes was read: how many bytes were used,
/// those that were read and not yet used, and whether what follows doesn't count.
///
/// A reader is used with one source, and no more after a request that closes the session or an event that is no
/// request.
#[derive(Drop)]
pub struct Reader {
    intake: Intake,
    closed: bool,
}

impl Model for Reader {
    ghost use Rattle.std.specs.Prelude.{◌≡◌, false};
    ghost use Rattle.ecr_model.specs.http.Stream.{Point};
    ghost use Rattle.ecr_http.specs.NextHeads.{IsReady};
    ghost use Rattle.ecr_http.specs.Events.{point_of};

    ghost Value = { Point };

    ghost view = { λ r. point_of r.intake r.closed };

    ghost invariant = { λ r. r.closed ≡ false → IsReady r.intake };
}

impl Reader {
    ghost use Rattle.ecr_http.specs.Reading.{Nexts};

    /// A reader that has read nothing.
    pub fn new(alloc: Global) -> Result<Reader, Mem>
        ensures start { IfOk result (λ r. r ≡ start []) }
    {
        Ok(Reader {
            intake: Intake::new(alloc),
            closed: false,
        })
    }

    /// What comes next of the source, however its bytes are cut into pieces. A client that waits for it is told to go
    /// on (RFC 9110, section 10.1.1), before its body is read.
    ///
    /// What a body takes grows with what came of it, and not with what its length promised.
    pub fn next<S: Source, K: Sink>(&mut self, alloc: Global, source: &mut S, sink: &mut K) -> Event
        requires opened { self.old.closed ≡ false }
        ensures next { Nexts (S.left source.old) (K.held sink.old) self.old (S.left source.new)
            (K.held sink.new) self.new result }
        ensures reads_later { S.faults source.old ≤ S.faults source.new }
        ensures writes_later { K.faults sink.old ≤ K.faults sink.new }
        ensures read_cause { result ≡ Event.ReadFault → S.faults source.old < S.faults source.new }
        ensures write_cause { result ≡ Event.WriteFault → K.faults sink.old < K.faults sink.new }
    {
        let event = self.intake.next_event(alloc, source, sink);
        self.closed = event.closes();
        event
    }
}

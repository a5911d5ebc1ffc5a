// The body of the request whose head was read.
ghost use Rattle.std.specs.Prelude.{◌≡◌, ◌+◌, ◌<◌, ◌≤◌, ℕ, List, Option, Err, length};

use crate::fault::Fault;
use crate::intake::Intake;
use ecr_model::Framing;
use ecr_outside::Source;
use std::alloc::Global;

/// A body, and how many bytes it took.
#[derive(Drop)]
pub struct Taken {
    pub body: Vec<u8>,
    pub size: usize,
}

impl Intake {
    ghost use Rattle.ecr_model.specs.declared.http.Framing.TheVariants as framing;
    ghost use Rattle.ecr_model.specs.sessions.Sessions.{max_read};
    ghost use Rattle.ecr_http.specs.Bodies.{Bodies, FitsLimit};

    /// Takes the body that is delimited like that, of at most `limit` bytes.
    pub(crate) fn take_body<S: Source>(
        &mut self,
        alloc: Global,
        source: &mut S,
        framing: Framing,
        limit: u64,
    ) -> Result<Taken, Fault>
        requires spent { self.old.total ≤ max_read }
        requires held { length self.old.buffer ≤ self.old.total }
        requires fits { FitsLimit framing limit }
        ensures takes { Bodies limit framing (S.left source.old) self.old (S.left source.new) self.new result }
        ensures later { S.faults source.old ≤ S.faults source.new }
        ensures cause { result ≡ Err Fault.ReadFault → S.faults source.old < S.faults source.new }
    {
        match framing {
            Framing::Sized(size) => self.take_sized(alloc, source, size as usize),
            Framing::Chunked => self.take_chunked(alloc, source, limit),
        }
    }

    // Takes a body of `size` bytes: what stands in the buffer goes to the body, until all of it came.
    fn take_sized<S: Source>(
        &mut self,
        alloc: Global,
        source: &mut S,
        size: usize,
    ) -> Result<Taken, Fault>
        requires spent { self.old.total ≤ max_read }
        ensures takes { (limit : ℕ) → size ≤ limit
            → Bodies limit (framing.Sized size) (S.left source.old) self.old (S.left source.new) self.new result }
        ensures later { S.faults source.old ≤ S.faults source.new }
        ensures cause { result ≡ Err Fault.ReadFault → S.faults source.old < S.faults source.new }
    {
        let mut body = Vec::new(alloc);
        loop {
            let due = size - body.len();
            self.buffer.move_to(&mut body, due)?;
            if body.len() == size {
                return Ok(Taken { body, size });
            }
            self.fill(source)?;
        }
    }
}

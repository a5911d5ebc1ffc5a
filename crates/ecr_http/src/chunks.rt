// Bodies that come in chunks (RFC 9112, section 7.1). Places and sizes are in bytes.
ghost use Rattle.std.specs.Prelude.{◌≡◌, ◌<◌, ◌≤◌, ◌+◌, ℕ, List, Option, Some, None, Err, length, IfOk, OnErr};

use crate::body::Taken;
use crate::chunk_line::{MAX_CHUNK_LINE, is_closed, line_end, size_of};
use crate::fault::Fault;
use crate::head::find_end_within;
use crate::intake::Intake;
use ecr_model::{Mem, Section};
use ecr_outside::Source;
use std::alloc::Global;

/// The greatest length of a trailer section, with the empty line behind it (of this registry).
const MAX_TRAILERS: usize = 65_536;

/// What is read next of a chunked body.
#[derive(Clone, Copy)]
pub enum Stage {
    /// A chunk's line.
    Line,
    /// So many bytes of a chunk's data, and CR LF.
    Data(u64),
    /// The trailer section, of which so many bytes were looked at.
    Trailers(usize),
}

impl Intake {
    ghost use Rattle.ecr_model.specs.declared.http.Framing.TheVariants as framing;
    ghost use Rattle.ecr_model.specs.http.Framing.{EndsAt};
    ghost use Rattle.ecr_model.specs.http.Chunks.{line_end, max_trailers};
    ghost use Rattle.ecr_model.specs.sessions.Sessions.{max_read};
    ghost use Rattle.ecr_http.specs.Bodies.{Bodies};
    ghost use Rattle.ecr_http.specs.Decoding.{Decodes, Awaits, DecodesOn, IsScanned, IsNearer, left_to_do};
    ghost use Rattle.ecr_http.specs.declared.chunks.Stage.TheVariants as stage;

    /// Takes a chunked body of at most `limit` bytes of data.
    pub(crate) fn take_chunked<S: Source>(
        &mut self,
        alloc: Global,
        source: &mut S,
        limit: u64,
    ) -> Result<Taken, Fault>
        requires spent { self.old.total ≤ max_read }
        requires held { length self.old.buffer ≤ self.old.total }
        ensures takes { Bodies limit framing.Chunked (S.left source.old) self.old (S.left source.new) self.new result }
        ensures later { S.faults source.old ≤ S.faults source.new }
        ensures cause { result ≡ Err Fault.ReadFault → S.faults source.old < S.faults source.new }
    {
        let held = self.buffer.len() as u64;
        let total = self.total;
        let mut body = Vec::new(alloc);
        let mut stage = Stage::Line;
        loop {
            let next = self.decode(source, &mut body, stage, limit)?;
            match next {
                Some(further) => stage = further,
                None => {
                    let size = held + (self.total - total) - self.buffer.len() as u64;
                    return Ok(Taken {
                        body,
                        size: size as usize,
                    });
                }
            }
        }
    }

    // One step: what stands in the buffer is used, or more is read once. It gives the next stage; none where the body
    // is whole.
    fn decode<S: Source>(
        &mut self,
        source: &mut S,
        body: &mut Vec<u8>,
        stage: Stage,
        limit: u64,
    ) -> Result<Option<Stage>, Fault>
        requires { IsScanned self.old.buffer stage }
        ensures goes_on { (before : Option (List ℕ)) (old : Intake)
            → Decodes limit before old (S.left source.old) self.old body.old.items stage
            → DecodesOn limit before old (S.left source.new) self.new body.new.items result }
        ensures nearer { IsNearer result self.new (left_to_do stage self.old) }
        ensures later { S.faults source.old ≤ S.faults source.new }
        ensures cause { result ≡ Err Fault.ReadFault → S.faults source.old < S.faults source.new }
    {
        match stage {
            Stage::Line => self.decode_line(source, body.len(), limit),
            Stage::Data(left) => self.decode_data(source, body, left),
            Stage::Trailers(scanned) => self.decode_trailers(source, scanned),
        }
    }

    // Reads more, at that stage.
    fn read_on<S: Source>(&mut self, source: &mut S, stage: Stage) -> Result<Option<Stage>, Fault>
        ensures goes_on { (limit : ℕ) (before : Option (List ℕ)) (old : Intake) (body : List ℕ)
            → Awaits limit before old (S.left source.old) self.old body stage
            → DecodesOn limit before old (S.left source.new) self.new body result }
        ensures nearer { IsNearer result self.new (left_to_do stage self.old) }
        ensures later { S.faults source.old ≤ S.faults source.new }
        ensures cause { result ≡ Err Fault.ReadFault → S.faults source.old < S.faults source.new }
    {
        self.fill(source)?;
        Ok(Some(stage))
    }

    // A chunk's line comes next, behind `so_far` bytes of data.
    fn decode_line<S: Source>(
        &mut self,
        source: &mut S,
        so_far: usize,
        limit: u64,
    ) -> Result<Option<Stage>, Fault>
        ensures goes_on { (before : Option (List ℕ)) (old : Intake) (body : List ℕ) → length body ≡ so_far
            → Decodes limit before old (S.left source.old) self.old body stage.Line
            → DecodesOn limit before old (S.left source.new) self.new body result }
        ensures nearer { IsNearer result self.new (left_to_do stage.Line self.old) }
        ensures later { S.faults source.old ≤ S.faults source.new }
        ensures cause { result ≡ Err Fault.ReadFault → S.faults source.old < S.faults source.new }
    {
        match line_end(self.buffer.as_slice()) {
            Some(place) => self.begin(place, so_far, limit),
            None => self.lengthen_line(source),
        }
    }

    // Reads more of a chunk's line, unless there is more already than a line may have.
    #[tactic(auto, unfolding(ecr_model::specs::http::Chunks::max_chunk_line))]
    fn lengthen_line<S: Source>(&mut self, source: &mut S) -> Result<Option<Stage>, Fault>
        requires { line_end self.old.buffer ≡ None }
        ensures goes_on { (limit : ℕ) (before : Option (List ℕ)) (old : Intake) (body : List ℕ)
            → Decodes limit before old (S.left source.old) self.old body stage.Line
            → DecodesOn limit before old (S.left source.new) self.new body result }
        ensures nearer { IsNearer result self.new (left_to_do stage.Line self.old) }
        ensures later { S.faults source.old ≤ S.faults source.new }
        ensures cause { result ≡ Err Fault.ReadFault → S.faults source.old < S.faults source.new }
    {
        if self.buffer.len() >= MAX_CHUNK_LINE {
            return Err(Fault::Bad);
        }
        self.read_on(source, Stage::Line)
    }

    // Uses the line whose LF stands at that place; of the last chunk's line the LF stays, since an empty line may
    // follow it.
    fn begin(&mut self, place: usize, so_far: usize, limit: u64) -> Result<Option<Stage>, Fault>
        requires { line_end self.old.buffer ≡ Some place }
        ensures goes_on { (before after : Option (List ℕ)) (old : Intake) (body : List ℕ) → length body ≡ so_far
            → Decodes limit before old after self.old body stage.Line
            → DecodesOn limit before old after self.new body result }
        ensures nearer { IsNearer result self.new (left_to_do stage.Line self.old) }
        ensures no_fault { result ≡ Err Fault.ReadFault → ⊥ }
    {
        match size_of(&self.buffer.as_slice()[..place + 1]) {
            None => Err(Fault::Bad),
            Some(0) => {
                self.buffer.skip(place);
                Ok(Some(Stage::Trailers(0)))
            }
            Some(size) => {
                if size > limit.saturating_sub(so_far as u64) {
                    return Err(Fault::TooLong(Section::Body, limit));
                }
                self.buffer.skip(place + 1);
                Ok(Some(Stage::Data(size)))
            }
        }
    }

    // So many bytes of a chunk's data come next, and CR LF.
    fn decode_data<S: Source>(
        &mut self,
        source: &mut S,
        body: &mut Vec<u8>,
        left: u64,
    ) -> Result<Option<Stage>, Fault>
        ensures goes_on { (limit : ℕ) (before : Option (List ℕ)) (old : Intake)
            → Decodes limit before old (S.left source.old) self.old body.old.items (stage.Data left)
            → DecodesOn limit before old (S.left source.new) self.new body.new.items result }
        ensures nearer { IsNearer result self.new (left_to_do (stage.Data left) self.old) }
        ensures later { S.faults source.old ≤ S.faults source.new }
        ensures cause { result ≡ Err Fault.ReadFault → S.faults source.old < S.faults source.new }
    {
        let due = self.move_data(body, left)?;
        if due > 0 {
            return self.read_on(source, Stage::Data(due));
        }
        self.close(source)
    }

    // Moves what is there of a chunk's data to the body, and gives how many bytes of it are still due. After an `Err`
    // all is as before.
    fn move_data(&mut self, body: &mut Vec<u8>, left: u64) -> Result<u64, Mem>
        ensures moved { IfOk result (λ due. (limit : ℕ) (before after : Option (List ℕ)) (old : Intake)
            → Decodes limit before old after self.old body.old.items (stage.Data left)
            → Decodes limit before old after self.new body.new.items (stage.Data due)) }
        ensures used { IfOk result (λ due. 0 < due → length self.new.buffer ≡ 0) }
        ensures no_farther { IfOk result (λ due.
            left_to_do (stage.Data due) self.new ≤ left_to_do (stage.Data left) self.old) }
        ensures err { OnErr result ((body.new.items ≡ body.old.items) × (self.new ≡ self.old)) }
    {
        let count = self.buffer.len().min(left as usize);
        self.buffer.move_to(body, count)?;
        Ok(left - count as u64)
    }

    // CR LF comes next, behind a chunk's data.
    fn close<S: Source>(&mut self, source: &mut S) -> Result<Option<Stage>, Fault>
        ensures goes_on { (limit : ℕ) (before : Option (List ℕ)) (old : Intake) (body : List ℕ)
            → Decodes limit before old (S.left source.old) self.old body (stage.Data 0)
            → DecodesOn limit before old (S.left source.new) self.new body result }
        ensures nearer { IsNearer result self.new (left_to_do (stage.Data 0) self.old) }
        ensures later { S.faults source.old ≤ S.faults source.new }
        ensures cause { result ≡ Err Fault.ReadFault → S.faults source.old < S.faults source.new }
    {
        let closed = is_closed(self.buffer.as_slice())?;
        if closed {
            self.buffer.skip(2);
            return Ok(Some(Stage::Line));
        }
        self.read_on(source, Stage::Data(0))
    }

    // The trailer section comes next, in whose first `scanned` bytes no empty line ends.
    #[tactic(auto, unfolding(ecr_model::specs::http::Chunks::max_trailers))]
    fn decode_trailers<S: Source>(
        &mut self,
        source: &mut S,
        scanned: usize,
    ) -> Result<Option<Stage>, Fault>
        requires { IsScanned self.old.buffer (stage.Trailers scanned) }
        ensures goes_on { (limit : ℕ) (before : Option (List ℕ)) (old : Intake) (body : List ℕ)
            → Decodes limit before old (S.left source.old) self.old body (stage.Trailers scanned)
            → DecodesOn limit before old (S.left source.new) self.new body result }
        ensures nearer { IsNearer result self.new (left_to_do (stage.Trailers scanned) self.old) }
        ensures later { S.faults source.old ≤ S.faults source.new }
        ensures cause { result ≡ Err Fault.ReadFault → S.faults source.old < S.faults source.new }
    {
        // One more than the limit, for the LF of the last chunk's line.
        match find_end_within(self.buffer.as_slice(), scanned, MAX_TRAILERS + 1) {
            Some(end) => {
                self.buffer.skip(end);
                Ok(None)
            }
            None => self.lengthen_trailers(source),
        }
    }

    // Reads more of the trailer section, unless there is more already than it may have.
    #[tactic(auto, unfolding(ecr_model::specs::http::Chunks::max_trailers))]
    fn lengthen_trailers<S: Source>(&mut self, source: &mut S) -> Result<Option<Stage>, Fault>
        requires { EndsAt (1 + max_trailers) self.old.buffer None }
        ensures goes_on { (limit scanned : ℕ) (before : Option (List ℕ)) (old : Intake) (body : List ℕ)
            → Decodes limit before old (S.left source.old) self.old body (stage.Trailers scanned)
            → DecodesOn limit before old (S.left source.new) self.new body result }
        ensures nearer { (scanned : ℕ) → IsNearer result self.new (left_to_do (stage.Trailers scanned) self.old) }
        ensures later { S.faults source.old ≤ S.faults source.new }
        ensures cause { result ≡ Err Fault.ReadFault → S.faults source.old < S.faults source.new }
    {
        if self.buffer.len() > MAX_TRAILERS {
            return Err(Fault::TooLong(Section::Trailers, MAX_TRAILERS as u64));
        }
        let scanned = self.buffer.len();
        self.read_on(source, Stage::Trailers(scanned))
    }
}

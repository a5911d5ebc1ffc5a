// Replies, written from where their pieces lie.
ghost use Rattle.std.specs.Prelude.{◌≡◌, ◌<◌, ◌≤◌, ◌++◌};
ghost use Rattle.std.specs.List.{concat};
ghost use Rattle.ecr_http.specs.Sends.{Sends};

use crate::reader::Reader;
use crate::write::{Sent, send};
use ecr_blob_upload::Blob;
use ecr_outside::Sink;

/// A reply, as the pieces that it is written in. A blob isn't copied: its bytes are written from where they lie.
#[derive(Drop)]
pub struct HttpReply {
    /// The status line, the header lines and the empty line (RFC 9112, section 2.1).
    pub head: Vec<u8>,
    /// The blobs that the body begins with, one after another.
    pub body: Vec<Blob>,
    /// What stands behind the blobs.
    pub tail: Vec<u8>,
}

impl Reader {
    ghost use Rattle.std.specs.Prelude.{◌≡◌, ◌<◌, ◌≤◌};
    ghost use Rattle.ecr_http.specs.Replies.{message_bytes};
    ghost use Rattle.ecr_http.specs.Sends.{Sends};

    /// Writes a reply, unless the sink fails. It takes no memory.
    pub fn send<K: Sink>(&mut self, sink: &mut K, reply: &HttpReply) -> Sent
        ensures sends { Sends (K.held sink.old) (K.held sink.new) (message_bytes reply.now) result }
        ensures kept { self.new ≡ self.old }
        ensures later { K.faults sink.old ≤ K.faults sink.new }
        ensures cause { result ≡ Sent.WriteFault → K.faults sink.old < K.faults sink.new }
    {
        match send(sink, &reply.head) {
            Sent::WriteFault => Sent::WriteFault,
            Sent::Done => send_body(sink, &reply.body, &reply.tail),
        }
    }

    /// Writes a reply whose bytes are fixed, unless the sink fails. It takes no memory.
    pub fn send_fixed<K: Sink>(&mut self, sink: &mut K, reply: &[u8]) -> Sent
        ensures sends { Sends (K.held sink.old) (K.held sink.new) reply.now result }
        ensures kept { self.new ≡ self.old }
        ensures later { K.faults sink.old ≤ K.faults sink.new }
        ensures cause { result ≡ Sent.WriteFault → K.faults sink.old < K.faults sink.new }
    {
        send(sink, reply)
    }
}

// Writes the blobs, and what stands behind them.
fn send_body<K: Sink>(sink: &mut K, blobs: &[Blob], tail: &[u8]) -> Sent
    ensures sends { Sends (K.held sink.old) (K.held sink.new) (concat blobs.now ++ tail.now) result }
    ensures later { K.faults sink.old ≤ K.faults sink.new }
    ensures cause { result ≡ Sent.WriteFault → K.faults sink.old < K.faults sink.new }
{
    match send_blobs(sink, blobs) {
        Sent::WriteFault => Sent::WriteFault,
        Sent::Done => send(sink, tail),
    }
}

// Writes the blobs, one after another.
fn send_blobs<K: Sink>(sink: &mut K, blobs: &[Blob]) -> Sent
    ensures sends { Sends (K.held sink.old) (K.held sink.new) (concat blobs.now) result }
    ensures later { K.faults sink.old ≤ K.faults sink.new }
    ensures cause { result ≡ Sent.WriteFault → K.faults sink.old < K.faults sink.new }
{
    for blob in blobs {
        match send(sink, blob.bytes()) {
            Sent::Done => {}
            Sent::WriteFault => return Sent::WriteFault,
        }
    }
    Sent::Done
}

// Writes pieces to a sink.
ghost use Rattle.std.specs.Prelude.{◌≡◌, ◌<◌, ◌≤◌, length, drop};
ghost use Rattle.ecr_http.specs.Sends.{Sends};

use ecr_outside::{Sink, Took};

/// Whether a piece was written.
#[derive(Clone, Copy, Debug, PartialEq, Eq)]
pub enum Sent {
    /// All of it.
    Done,
    /// The sink failed after a part of it, which may be none.
    WriteFault,
}

/// Writes all of `piece`, unless the sink fails. It takes no memory.
pub fn send<K: Sink>(sink: &mut K, piece: &[u8]) -> Sent
    ensures sends { Sends (K.held sink.old) (K.held sink.new) piece.now result }
    ensures later { K.faults sink.old ≤ K.faults sink.new }
    ensures cause { result ≡ Sent.WriteFault → K.faults sink.old < K.faults sink.new }
{
    let mut at = 0;
    while at < piece.len() {
        match sink.write(rest_from(piece, at)) {
            Took::Bytes(n) => at += n,
            Took::Failed => return Sent::WriteFault,
        }
    }
    Sent::Done
}

// What is left of a piece.
fn rest_from(piece: &[u8], at: usize) -> &[u8]
    requires { at ≤ length piece.now }
    ensures { result.now ≡ drop at piece.now }
{
    &piece[at..]
}

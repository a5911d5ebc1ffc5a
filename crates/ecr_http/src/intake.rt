// What a reader keeps between the bytes of a source and its requests.
ghost use Rattle.std.specs.Prelude.{◌≡◌, ◌<◌, ◌≤◌, ◌+◌, ℕ, Option, List, length};
ghost use Rattle.ecr_http.specs.Takings.{ReadsOnce};

use crate::buffer::{Buffer, PIECE};
use crate::fault::Fault;
use ecr_outside::{Got, Source};

/// The most bytes that a reader takes from its source.
pub(crate) const MAX_READ: u64 = 1 << 40;

/// The bytes that were read and not yet used, and where they stand.
#[derive(Drop)]
pub struct Intake {
    /// The bytes that come, from the place `at` on.
    pub buffer: Buffer,
    /// The place of what is being read: so many bytes were used before it.
    pub at: u64,
    /// The number of bytes that were read.
    pub total: u64,
    /// No empty line ends in the first so many bytes of the buffer.
    pub scanned: usize,
}

impl Intake {
    ghost use Rattle.ecr_http.specs.Takings.{left_to_read};
    ghost use Rattle.std.specs.Prelude.{OnOk, Err};

    /// Reads once. After an `Err` all is as before.
    #[tactic(auto, unfolding(ecr_model::specs::sessions::Sessions::max_read))]
    pub(crate) fn fill<S: Source>(&mut self, source: &mut S) -> Result<(), Fault>
        ensures reads { ReadsOnce (S.left source.old) self.old (S.left source.new) self.new result }
        ensures nearer { OnOk result (left_to_read self.new < left_to_read self.old) }
        ensures later { S.faults source.old ≤ S.faults source.new }
        ensures cause { result ≡ Err Fault.ReadFault → S.faults source.old < S.faults source.new }
    {
        if self.total >= MAX_READ {
            return Err(Fault::Spent);
        }
        let most = PIECE.min((MAX_READ - self.total) as usize);
        let got = self.buffer.fill(source, most)?;
        match got {
            Got::Bytes(n) => {
                self.total += n as u64;
                Ok(())
            }
            Got::End => Err(Fault::Ended),
            Got::Failed => Err(Fault::ReadFault),
        }
    }
}

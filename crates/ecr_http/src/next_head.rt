// The head of the request that comes next.
ghost use Rattle.std.specs.Prelude.{◌≡◌, ◌<◌, ◌≤◌, ℕ, List, Option, None, Err, OnOk, length};
ghost use Rattle.ecr_model.specs.http.Framing.{max_head, EndsAt};
ghost use Rattle.ecr_model.specs.http.Stream.{is_blank, blank_length};

use crate::fault::Fault;
use crate::head::{MAX_HEAD, find_end};
use crate::intake::Intake;
use ecr_model::Section;
use ecr_outside::Source;

impl Intake {
    ghost use Rattle.ecr_http.specs.NextHeads.{IsReady, IsRead, FindsHead, LooksOn, past_front};
    ghost use Rattle.ecr_http.specs.Takings.{left_to_read};

    /// Reads through the next head, past the blank bytes before it, and gives how long the head is in bytes.
    pub(crate) fn find_head<S: Source>(&mut self, source: &mut S) -> Result<usize, Fault>
        requires ready { IsReady self.old }
        ensures finds { FindsHead (S.left source.old) self.old (S.left source.new) self.new result }
        ensures later { S.faults source.old ≤ S.faults source.new }
        ensures cause { result ≡ Err Fault.ReadFault → S.faults source.old < S.faults source.new }
    {
        loop {
            self.skip_blank();
            if let Some(count) = find_end(self.buffer.as_slice(), self.scanned) {
                return Ok(count);
            }
            self.lengthen(source)?;
        }
    }

    // Reads more of a head, unless there is more already than a head may have.
    fn lengthen<S: Source>(&mut self, source: &mut S) -> Result<(), Fault>
        requires ready { IsReady self.old }
        requires none { blank_length self.old.buffer ≡ 0 }
        requires no_end { EndsAt max_head self.old.buffer None }
        ensures goes_on { (before : Option (List ℕ)) (old : Intake) → IsRead before old (S.left source.old) self.old
            → LooksOn before old (S.left source.new) self.new result }
        ensures nearer { OnOk result (left_to_read self.new < left_to_read self.old) }
        ensures later { S.faults source.old ≤ S.faults source.new }
        ensures cause { result ≡ Err Fault.ReadFault → S.faults source.old < S.faults source.new }
    {
        if self.buffer.len() >= MAX_HEAD {
            return Err(Fault::TooLong(Section::Head, MAX_HEAD as u64));
        }
        self.scanned = self.buffer.len();
        self.fill(source)
    }

    // Drops the blank bytes at the front.
    fn skip_blank(&mut self)
        requires ready { IsReady self.old }
        ensures ready { IsReady self.new }
        ensures none { blank_length self.new.buffer ≡ 0 }
        ensures goes_on { (before after : Option (List ℕ)) (old : Intake) → IsRead before old after self.old
            → IsRead before old after self.new }
        ensures read { left_to_read self.new ≡ left_to_read self.old }
    {
        let blank = blank_length(self.buffer.as_slice());
        if blank > 0 {
            self.pass(blank);
        }
    }

    // Drops the first `count` bytes, after which nothing is known of those that are left.
    fn pass(&mut self, count: usize)
        requires within { count ≤ length self.old.buffer }
        requires ready { IsReady self.old }
        ensures passed { self.new ≡ past_front count self.old }
    {
        self.buffer.skip(count);
        self.at += count as u64;
        self.scanned = 0;
    }
}

// How many blank bytes stand at the front.
fn blank_length(bytes: &[u8]) -> usize
    ensures { result ≡ blank_length bytes.now }
{
    for (n, byte) in bytes.iter().enumerate() {
        if !is_blank(*byte) {
            return n;
        }
    }
    bytes.len()
}

// CR and LF, which may stand before a request.
fn is_blank(byte: u8) -> bool
    ensures { result ≡ is_blank byte }
{
    byte == b'\r' || byte == b'\n'
}

// The bytes that were read and not yet used.
ghost use Rattle.std.specs.Prelude.{◌≡◌, ◌+◌, ◌≤◌, ◌<◌, ◌++◌, [], List, ℕ, length, take, drop, OnOk, OnErr, IfOk};
ghost use Rattle.std.specs.Io.KnownBytes.{Keeps};
ghost use Rattle.ecr_outside.specs.Source.{Gives, CountsReadFault};
ghost use Rattle.ecr_http.specs.Intakes.{Fills, FitsRoom};

use ecr_model::Mem;
use ecr_outside::{Got, Source};
use std::alloc::Global;
use std::marker::Model;

/// The most bytes that one read asks for.
pub(crate) const PIECE: usize = 65_536;

/// Bytes that come at the end and go at the front, seen as the list of those that are left. They stand in room that is
/// zeroed when it grows, and used again.
#[derive(Drop)]
pub struct Buffer {
    room: Vec<u8>,
    start: usize,
    end: usize,
}

impl Model for Buffer {
    ghost use Rattle.std.specs.Prelude.{List, ℕ};
    ghost use Rattle.ecr_http.specs.Intakes.{IsRange, range};

    ghost Value = { List ℕ };

    ghost view = { λ b. range b.start b.end b.room.items };

    ghost invariant = { λ b. IsRange b.start b.end b.room.items };
}

impl Buffer {
    /// No bytes.
    pub fn new(alloc: Global) -> Buffer
        ensures empty { result ≡ [] }
    {
        Buffer {
            room: Vec::new(alloc),
            start: 0,
            end: 0,
        }
    }

    /// The bytes that are left.
    pub fn as_slice(&self) -> &[u8]
        ensures bytes { result.now ≡ self.now }
    {
        &self.room[self.start..self.end]
    }

    /// How many bytes are left.
    pub fn len(&self) -> usize
        ensures length { result ≡ length self.now }
    {
        self.end - self.start
    }

    /// Drops the first `count` bytes.
    pub fn skip(&mut self, count: usize)
        requires within { count ≤ length self.old }
        ensures rest { self.new ≡ drop count self.old }
    {
        self.start += count;
    }

    /// Moves the first `most` bytes, or all where there are fewer, to the end of `to`. After an `Err` both are as
    /// before.
    pub fn move_to(&mut self, to: &mut Vec<u8>, most: usize) -> Result<(), Mem>
        ensures moved { OnOk result (to.new.items ≡ to.old.items ++ take most self.old) }
        ensures rest { OnOk result (self.new ≡ drop most self.old) }
        ensures err { OnErr result ((to.new.items ≡ to.old.items) × (self.new ≡ self.old)) }
    {
        let count = most.min(self.len());
        to.extend_from_slice(&self.as_slice()[..count])?;
        self.skip(count);
        Ok(())
    }

    /// Reads once from the source, at most `most` bytes, behind those that are left. The room for them is taken
    /// first: without memory nothing is read.
    pub fn fill<S: Source>(&mut self, source: &mut S, most: usize) -> Result<Got, Mem>
        requires some { 0 < most }
        requires within { most ≤ 65536 }
        ensures filled { IfOk result (Fills most (S.left source.old) self.old (S.left source.new) self.new) }
        ensures mem { OnErr result (Keeps (S.left source.old) (S.left source.new)) }
        ensures kept { OnErr result (self.new ≡ self.old) }
        ensures later { S.faults source.old ≤ S.faults source.new }
        ensures cause { IfOk result (CountsReadFault (S.faults source.old) (S.faults source.new)) }
    {
        self.close_gap();
        make_room(&mut self.room, self.end, most)?;
        let got = read_at(source, &mut self.room, self.end, most);
        if let Got::Bytes(n) = got {
            self.end += n;
        }
        Ok(got)
    }

    // Moves what is left to the front, each byte at most once for each time that bytes were dropped.
    fn close_gap(&mut self)
        ensures { self.new ≡ self.old }
    {
        if self.start > 0 {
            self.room.copy_within(self.start..self.end, 0);
            self.end -= self.start;
            self.start = 0;
        }
    }
}

// Takes room for `most` more bytes behind the first `end`. What stands behind them says nothing.
fn make_room(room: &mut Vec<u8>, end: usize, most: usize) -> Result<(), Mem>
    requires { (end ≤ length room.old.items) × (most ≤ 65536) }
    ensures room { OnOk result (end + most ≤ length room.new.items) }
    ensures long { length room.old.items ≤ length room.new.items }
    ensures kept { take end room.new.items ≡ take end room.old.items }
{
    if room.len() - end >= most {
        return Ok(());
    }
    room.resize(end + most, 0)
}

// Reads at most `most` bytes into the room, behind the first `end`.
fn read_at<S: Source>(source: &mut S, room: &mut Vec<u8>, end: usize, most: usize) -> Got
    requires some { 0 < most }
    requires within { end + most ≤ length room.old.items }
    ensures count { FitsRoom result most }
    ensures long { length room.new.items ≡ length room.old.items }
    ensures kept { take end room.new.items ≡ take end room.old.items }
    ensures bytes { Gives (S.left source.old) (S.left source.new) (drop end room.new.items) result }
    ensures later { S.faults source.old ≤ S.faults source.new }
    ensures cause { CountsReadFault (S.faults source.old) (S.faults source.new) result }
{
    read_some(source, &mut room[end..], most)
}

// Reads at most `most` bytes into the front of the piece.
fn read_some<S: Source>(source: &mut S, piece: &mut [u8], most: usize) -> Got
    requires some { 0 < most }
    requires within { most ≤ length piece.old }
    ensures count { FitsRoom result most }
    ensures length { length piece.new ≡ length piece.old }
    ensures bytes { Gives (S.left source.old) (S.left source.new) piece.new result }
    ensures later { S.faults source.old ≤ S.faults source.new }
    ensures cause { CountsReadFault (S.faults source.old) (S.faults source.new) result }
{
    source.read(&mut piece[..most])
}

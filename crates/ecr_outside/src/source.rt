// Where bytes come from.
ghost use Rattle.std.specs.Prelude.{◌≡◌, ◌<◌, ◌≤◌, ℕ, List, Option, length, take, drop, min, is_some, Some};
ghost use Rattle.ecr_outside.specs.Source.{IsReadSize, Gives, CountsReadFault, next_got};
ghost use Rattle.ecr_outside.specs.Plan.{next_call};

use crate::faults::Faults;
use crate::plan::Plan;
use std::marker::Model;

/// What a read of a source answers.
#[derive(Clone, Copy, Debug, PartialEq, Eq)]
pub enum Got {
    /// So many bytes, at least 1, now stand at the front of the buffer.
    Bytes(usize),
    /// Nothing is left.
    End,
    /// The source failed, which raised its count of faults. Nothing was taken from it.
    Failed,
}

/// Where bytes come from, read once from the first to the last.
pub trait Source {
    /// The bytes that are left, where the source tells them.
    ghost left: { Self → Option (List ℕ) };

    /// How often it has failed.
    ghost faults: { Self → ℕ };

    /// Reads the next bytes into the front of `buf`, which isn't empty.
    ///
    /// Gives at most as many as `buf` has room for, and maybe fewer than are left. What stands in
    /// `buf` behind them, and all of it after `End` and `Failed`, says nothing.
    fn read(&mut self, buf: &mut [u8]) -> Got
        requires not_empty { 0 < length buf.old }
        ensures count { IsReadSize result buf.new }
        ensures bytes { Gives (left self.old) (left self.new) buf.new result }

        // A source that tells its bytes goes on to tell them, and no other begins to.
        ensures tells { is_some (left self.new) ≡ is_some (left self.old) }
        ensures later { faults self.old ≤ faults self.new }
        ensures cause { CountsReadFault (faults self.old) (faults self.new) result };
}

/// A source in memory. Contracts see the bytes that are left, which it tells, its faults, and what its
/// reads are to do.
#[derive(Drop)]
pub struct MemSource {
    bytes: Vec<u8>,
    at: usize,
    plan: Plan,
    faults: Faults,
}

impl Model for MemSource {
    ghost use Rattle.std.specs.Prelude.{◌≤◌, length, drop};
    ghost use Rattle.ecr_outside.specs.Source.{Stream};

    ghost Value = { Stream };

    ghost view = { λ s. record {
      left = drop s.at s.bytes.items;
      faults = s.faults;
      sizes = s.plan.sizes.items;
      fails = s.plan.fails.items;
      calls = s.plan.calls;
    } };

    ghost invariant = { λ s. s.at ≤ length s.bytes.items };
}

impl MemSource {
    /// A source of `bytes`. Its reads count from 0.
    ///
    /// Those of the numbers in `fails` fail. Each other gives at most its size in `sizes`: past the
    /// end the last one, of an empty list any, and 1 for 0.
    pub fn new(bytes: Vec<u8>, sizes: Vec<usize>, fails: Vec<u64>) -> MemSource
        ensures left { result.left ≡ bytes.items }
        ensures faults { result.faults ≡ 0 }
        ensures sizes { result.sizes ≡ sizes.items }
        ensures fails { result.fails ≡ fails.items }
        ensures calls { result.calls ≡ 0 }
    {
        MemSource {
            bytes,
            at: 0,
            plan: Plan::new(sizes, fails),
            faults: Faults::none(),
        }
    }
}

impl Source for MemSource {
    ghost left = { λ s. Some s.left };

    ghost faults = { λ s. s.faults };

    fn read(&mut self, buf: &mut [u8]) -> Got
        requires { 0 < length buf.old }
        ensures count { IsReadSize result buf.new }
        ensures bytes { Gives (Some self.old.left) (Some self.new.left) buf.new result }
        ensures tells { is_some (Some self.new.left) ≡ is_some (Some self.old.left) }
        ensures later { self.old.faults ≤ self.new.faults }
        ensures cause { CountsReadFault self.old.faults self.new.faults result }

        // What it does is known before, by its number.
        ensures planned { result ≡ next_got self.old (length buf.old) }
        ensures calls { self.new.calls ≡ next_call self.old.calls }
        ensures sizes { self.new.sizes ≡ self.old.sizes }
        ensures fails { self.new.fails ≡ self.old.fails }
    {
        let Some(most) = self.plan.next() else {
            self.faults.rise();
            return Got::Failed;
        };
        let n = give(rest_from(&self.bytes, self.at), most, buf);
        if n == 0 {
            return Got::End;
        }
        self.at += n;
        Got::Bytes(n)
    }
}

fn rest_from(bytes: &[u8], from: usize) -> &[u8]
    requires { from ≤ length bytes.now }
    ensures { result.now ≡ drop from bytes.now }
{
    &bytes[from..]
}

// Copies the first bytes of `left` into the front of `buf`, at most so many, and says how many.
fn give(left: &[u8], most: usize, buf: &mut [u8]) -> usize
    ensures count { result ≡ min (min most (length left.now)) (length buf.old) }
    ensures bytes { take result buf.new ≡ take result left.now }
{
    let n = most.min(left.len()).min(buf.len());
    buf[..n].copy_from_slice(&left[..n]);
    n
}

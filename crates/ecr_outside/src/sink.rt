// Where bytes go.
ghost use Rattle.std.specs.Prelude.{◌≡◌, ◌<◌, ◌≤◌, ℕ, List, Option, [], length, is_some, Some, IsTrue};
ghost use Rattle.ecr_outside.specs.Sink.{IsWriteSize, Takes, CountsWriteFault, IsPlanned};
ghost use Rattle.ecr_outside.specs.Plan.{is_failing, next_call};

use crate::faults::Faults;
use crate::plan::Plan;
use std::alloc::Global;
use std::marker::Model;

/// What a write to a sink answers.
#[derive(Clone, Copy, Debug, PartialEq, Eq)]
pub enum Took {
    /// So many bytes of the piece's front, at least 1, were taken.
    Bytes(usize),
    /// The sink failed, which raised its count of faults. Nothing was taken.
    Failed,
}

/// Where bytes go, written once from the first to the last.
pub trait Sink {
    /// The bytes that it holds, where the sink tells them.
    ghost held: { Self → Option (List ℕ) };

    /// How often it has failed.
    ghost faults: { Self → ℕ };

    /// Writes the first bytes of `piece`, which isn't empty, after those that it holds.
    ///
    /// Takes maybe fewer than `piece` has; the rest is the caller's to write again.
    fn write(&mut self, piece: &[u8]) -> Took
        requires not_empty { 0 < length piece.now }
        ensures count { IsWriteSize result piece.now }
        ensures bytes { Takes (held self.old) (held self.new) piece.now result }

        // A sink that tells its bytes goes on to tell them, and no other begins to.
        ensures tells { is_some (held self.new) ≡ is_some (held self.old) }
        ensures later { faults self.old ≤ faults self.new }
        ensures cause { CountsWriteFault (faults self.old) (faults self.new) result };
}

/// A sink in memory. Contracts see the bytes that it holds, which it tells, its faults, and what its
/// writes are to do.
///
/// A write that finds no memory is one of them.
#[derive(Drop)]
pub struct MemSink {
    bytes: Vec<u8>,
    plan: Plan,
    faults: Faults,
}

impl Model for MemSink {
    ghost use Rattle.ecr_outside.specs.Sink.{Store};

    ghost Value = { Store };

    ghost view = { λ s. record {
      held = s.bytes.items;
      faults = s.faults;
      sizes = s.plan.sizes.items;
      fails = s.plan.fails.items;
      calls = s.plan.calls;
    } };
}

impl MemSink {
    /// A sink that holds nothing yet. Its writes count from 0.
    ///
    /// Those of the numbers in `fails` fail. Each other takes at most its size in `sizes`: past the
    /// end the last one, of an empty list any, and 1 for 0.
    pub fn new(alloc: Global, sizes: Vec<usize>, fails: Vec<u64>) -> MemSink
        ensures held { result.held ≡ [] }
        ensures faults { result.faults ≡ 0 }
        ensures sizes { result.sizes ≡ sizes.items }
        ensures fails { result.fails ≡ fails.items }
        ensures calls { result.calls ≡ 0 }
    {
        MemSink {
            bytes: Vec::new(alloc),
            plan: Plan::new(sizes, fails),
            faults: Faults::none(),
        }
    }

    /// The bytes that it holds.
    pub fn held(&self) -> &[u8]
        ensures held { result.now ≡ self.now.held }
    {
        &self.bytes
    }
}

impl Sink for MemSink {
    ghost held = { λ s. Some s.held };

    ghost faults = { λ s. s.faults };

    fn write(&mut self, piece: &[u8]) -> Took
        requires { 0 < length piece.now }
        ensures count { IsWriteSize result piece.now }
        ensures bytes { Takes (Some self.old.held) (Some self.new.held) piece.now result }
        ensures tells { is_some (Some self.new.held) ≡ is_some (Some self.old.held) }
        ensures later { self.old.faults ≤ self.new.faults }
        ensures cause { CountsWriteFault self.old.faults self.new.faults result }

        // What it does is known before, by its number, but for want of memory.
        ensures planned { IsPlanned self.old piece.now result }
        ensures failing { IsTrue (is_failing self.old.fails self.old.calls) → result ≡ Took.Failed }
        ensures calls { self.new.calls ≡ next_call self.old.calls }
        ensures sizes { self.new.sizes ≡ self.old.sizes }
        ensures fails { self.new.fails ≡ self.old.fails }
    {
        if let Some(most) = self.plan.next() {
            let n = most.min(piece.len());
            if self.bytes.extend_from_slice(&piece[..n]).is_ok() {
                return Took::Bytes(n);
            }
        }
        self.faults.rise();
        Took::Failed
    }
}

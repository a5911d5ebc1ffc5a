// Links in memory.
ghost use Rattle.std.specs.Prelude.{◌≡◌, false, length, IfOk, None};
ghost use Rattle.ecr_outside.specs.Accept.{Entrance, GoesOn, Opens, answer_to_open};
ghost use Rattle.ecr_outside.specs.Plan.{next_call};

use crate::faults::Faults;
use crate::plan::Plan;
use crate::{Accept, MemSource, Next, Opened, Sink, Took};
use ecr_model::Mem;
use std::alloc::Global;
use std::collections::VecDeque;
use std::marker::Model;
use std::sync::{Arc, Mutex, Wait};

/// A sink in memory whose bytes several hold, so that they can be read after it is gone. It tells no bytes to
/// contracts, which see how often it failed.
///
/// A write that finds the bytes in use, or no memory, is a fault.
#[derive(Drop)]
pub struct SharedSink {
    bytes: Arc<Mutex<Vec<u8>>, Global>,
    faults: Faults,
}

impl Model for SharedSink {
    ghost use Rattle.std.specs.Prelude.{ℕ};

    ghost Value = { ℕ };

    ghost view = { λ s. s.faults };
}

impl SharedSink {
    /// A sink that holds nothing.
    pub fn new(alloc: Global) -> Result<SharedSink, Mem>
        ensures no_fault { IfOk result (λ s. s ≡ 0) }
    {
        Ok(SharedSink {
            bytes: Arc::new(alloc, Mutex::new(Vec::new(alloc)))?,
            faults: Faults::none(),
        })
    }

    /// Another sink whose bytes go to the same place.
    pub fn share(&self) -> Result<SharedSink, Mem>
        ensures no_fault { IfOk result (λ s. s ≡ 0) }
    {
        Ok(SharedSink {
            bytes: Arc::try_clone(&self.bytes)?,
            faults: Faults::none(),
        })
    }

    /// The bytes that were written so far.
    pub fn held<W: Wait>(&self, rt: &W) -> Result<Vec<u8>, Mem> {
        let bytes = self.bytes.lock(rt);
        let held = bytes.clone()?;
        Ok(held)
    }
}

impl Sink for SharedSink {
    ghost held = { λ _. None };

    ghost faults = { λ s. s };

    fn write(&mut self, piece: &[u8]) -> Took {
        if let Some(mut bytes) = self.bytes.try_lock() {
            if bytes.extend_from_slice(piece).is_ok() {
                return Took::Bytes(piece.len());
            }
        }
        self.faults.rise();
        Took::Failed
    }
}

/// An acceptor in memory. Contracts see its faults, whether it was opened and closed, how many links are left, and what
/// its calls are to do.
#[derive(Drop)]
pub struct MemAccept {
    links: VecDeque<(MemSource, SharedSink)>,
    plan: Plan,
    faults: Faults,
    is_open: bool,
    is_closed: bool,
}

impl Model for MemAccept {
    ghost use Rattle.std.specs.Prelude.{length};
    ghost use Rattle.ecr_outside.specs.Accept.{Hall};

    ghost Value = { Hall };

    ghost view = { λ a. record {
      entrance = record { faults = a.faults; is_open = a.is_open; is_closed = a.is_closed };
      left = length a.links.items;
      fails = a.plan.fails.items;
      calls = a.plan.calls;
    } };
}

impl MemAccept {
    /// An acceptor of these links, in their order, which closes after them. Its calls of `open` and `next` count from
    /// 0, and those of the numbers in `fails` fail.
    pub fn new(
        alloc: Global,
        links: VecDeque<(MemSource, SharedSink)>,
        fails: Vec<u64>,
    ) -> MemAccept
        ensures entrance { result.entrance ≡ record { faults = 0; is_open = false; is_closed = false } }
        ensures left { result.left ≡ length links.items }
        ensures fails { result.fails ≡ fails.items }
        ensures calls { result.calls ≡ 0 }
    {
        MemAccept {
            links,
            plan: Plan::new(Vec::new(alloc), fails),
            faults: Faults::none(),
            is_open: false,
            is_closed: false,
        }
    }
}

impl Accept for MemAccept {
    type In = MemSource;

    type Out = SharedSink;

    ghost entrance = { λ a. a.entrance };

    fn open(&mut self, _address: &str) -> Opened
        ensures opens { Opens self.old.entrance self.new.entrance result }

        // It is known before, by its number.
        ensures planned { result ≡ answer_to_open self.old }
        ensures left { self.new.left ≡ self.old.left }
        ensures calls { self.new.calls ≡ next_call self.old.calls }
        ensures fails { self.new.fails ≡ self.old.fails }
    {
        if self.plan.next().is_none() {
            self.faults.rise();
            return Opened::Failed;
        }
        self.is_open = true;
        Opened::Ready
    }

    fn next(&mut self) -> Next<MemSource, SharedSink>
        ensures goes_on { GoesOn self.old.entrance self.new.entrance result }
    {
        if self.plan.next().is_none() {
            self.faults.rise();
            return Next::Failed;
        }
        match self.links.pop_front() {
            Some((source, sink)) => Next::Link(source, sink),
            None => {
                self.is_closed = true;
                Next::Closed
            }
        }
    }
}

// An entry added to a list: in a turn of a turnstile, and under a lock.
ghost use Rattle.std.specs.Prelude.{◌≡◌, [], IfOk};
ghost use Rattle.ecr_turn.specs.Journals.{MayFollow};
ghost use Rattle.ecr_turn.specs.Passes.{no_frame};

use ecr_model::{Act, Call, Entry, Line, Listed, Mem, Rare};
use ecr_turn::{Journal, Pass, Turnstile};
use std::alloc::Global;
use std::marker::Model;
use std::sync::{Arc, Mutex, Wait};
use std::thread;
use std::time::{Clock, Duration};

/// A list of entries.
#[derive(Drop)]
pub(crate) struct Log {
    lines: Vec<Line>,
    // So that two lists don't share a line of the processor's cache.
    apart: [u64; 16],
}

impl Journal for Log {
    ghost lines = { λ l. l.lines.items };

    ghost frame = { λ _. no_frame };

    fn entries(&self) -> u64 {
        self.lines.len() as u64
    }
}

impl Log {
    /// An empty list with room for so many entries, all of which was written once.
    pub(crate) fn new(alloc: Global, room: usize) -> Result<Log, Mem>
        ensures { IfOk result (λ l. l.lines.items ≡ []) }
    {
        let mut lines = Vec::with_capacity(alloc, room)?;
        for _ in 0..room {
            lines.push(line(alloc, 0, 0))?;
        }
        lines.clear();
        Ok(Log {
            lines,
            apart: [0; 16],
        })
    }

    // Adds the entry, where there is room.
    fn add(&mut self, ticket: u64, caller: u64)
        ensures { MayFollow ticket caller self.old.lines.items self.new.lines.items }
    {
        let line = line(*self.lines.allocator(), ticket, caller);
        match self.lines.push(line) {
            Ok(()) => {}
            Err(_) => {}
        }
    }
}

// A small entry.
fn line(alloc: Global, ticket: u64, caller: u64) -> Line
    ensures { (result.ticket ≡ ticket) × (result.caller ≡ caller) }
{
    Line {
        ticket,
        caller,
        entry: Entry {
            moment: 0,
            act: Act::Called {
                call: Call::Describe,
                destinations: Listed::new(alloc),
                sealed: Rare::none(),
            },
        },
    }
}

/// One of those who add to a list.
pub(crate) trait Hand {
    /// The first, at an empty list with room for so many entries.
    fn first(alloc: Global, room: usize) -> Result<Self, Mem>;

    /// Another one, at the same list.
    fn another<R: Wait>(&mut self, rt: &R) -> Result<Self, Mem>;

    /// Adds an entry.
    fn add<R: Wait>(&mut self, rt: &R);

    /// Holds it for so long.
    fn hold<R: Wait + Clock>(&mut self, rt: &R, time: Duration);
}

/// One who takes the lock before a list.
#[derive(Drop)]
pub(crate) struct Locked {
    list: Arc<Mutex<Log>, Global>,
}

impl Hand for Locked {
    fn first(alloc: Global, room: usize) -> Result<Locked, Mem> {
        let list = Arc::new(alloc, Mutex::new(Log::new(alloc, room)?))?;
        Ok(Locked { list })
    }

    fn another<R: Wait>(&mut self, _rt: &R) -> Result<Locked, Mem> {
        let list = Arc::try_clone(&self.list)?;
        Ok(Locked { list })
    }

    fn add<R: Wait>(&mut self, rt: &R) {
        self.list.lock(rt).add(0, 0);
    }

    fn hold<R: Wait + Clock>(&mut self, rt: &R, time: Duration) {
        let held = self.list.lock(rt);
        thread::sleep(rt, time);
        drop(held);
    }
}

/// One who enters the turnstile before a list. The pass is away only in a turn.
#[derive(Drop)]
pub(crate) struct Visitor {
    turnstile: Arc<Turnstile<Log>, Global>,
    pass: Option<Pass<Log>>,
}

impl Model for Visitor {
    ghost use Rattle.std.specs.Prelude.{◌≡◌, IsSome};
    ghost use Rattle.std.specs.Arc.{arc_value};
    ghost use Rattle.ecr_turn.specs.Passes.{known_in};

    ghost Value = { Unit {0} };

    ghost view = { λ _. tt };

    ghost invariant = { λ v. IsSome v.pass × ((known_in v.pass).gate ≡ arc_value v.turnstile) };
}

impl Hand for Visitor {
    fn first(alloc: Global, room: usize) -> Result<Visitor, Mem> {
        match Turnstile::new(alloc, Log::new(alloc, room)?) {
            Ok((turnstile, pass)) => Ok(Visitor {
                turnstile: Arc::new(alloc, turnstile)?,
                pass: Some(pass),
            }),
            Err(_) => Err(Mem),
        }
    }

    fn another<R: Wait>(&mut self, rt: &R) -> Result<Visitor, Mem> {
        let turnstile = Arc::try_clone(&self.turnstile)?;
        let mut pass = self.pass.take().unwrap();
        let other = turnstile.split(rt, &mut pass);
        self.pass = Some(pass);
        Ok(Visitor {
            turnstile,
            pass: Some(other?),
        })
    }

    fn add<R: Wait>(&mut self, rt: &R) {
        let pass = self.pass.take().unwrap();
        self.pass = Some(one_turn(rt, &self.turnstile, pass));
    }

    fn hold<R: Wait + Clock>(&mut self, rt: &R, time: Duration) {
        let pass = self.pass.take().unwrap();
        self.pass = Some(one_long_turn(rt, &self.turnstile, pass, time));
    }
}

// A turn that takes so long, and adds nothing.
fn one_long_turn<R: Wait + Clock>(
    rt: &R,
    turnstile: &Turnstile<Log>,
    pass: Pass<Log>,
    time: Duration,
) -> Pass<Log>
    requires { pass.gate ≡ turnstile.now }
    ensures { result.gate ≡ turnstile.now }
{
    let turn = turnstile.enter(rt, pass);
    thread::sleep(rt, time);
    turn.leave()
}

// A turn with one entry.
fn one_turn<R: Wait>(rt: &R, turnstile: &Turnstile<Log>, pass: Pass<Log>) -> Pass<Log>
    requires { pass.gate ≡ turnstile.now }
    ensures { result.gate ≡ turnstile.now }
{
    let caller = pass.caller();
    let mut turn = turnstile.enter(rt, pass);
    let ticket = turn.ticket();
    turn.change().add(ticket, caller);
    turn.leave()
}

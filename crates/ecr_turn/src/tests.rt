ghost use Rattle.std.specs.Prelude.{◌≡◌, [], IfOk};
ghost use Rattle.ecr_turn.specs.Journals.{MayFollow};
ghost use Rattle.ecr_turn.specs.Passes.{no_frame};

use crate::register::{Register, get, set};
use crate::{Journal, Pass, Turnstile};
use ecr_model::{Act, Call, Entry, Line, Listed, Mem, Rare};
use std::alloc::Global;
use std::sync::Wait;
use std::test::Fail;
use std::thread;
use std::thread::Threads;

// A state that is nothing but its journal.
#[derive(Drop)]
struct Log {
    lines: Vec<Line>,
}

impl Journal for Log {
    ghost lines = { λ l. l.lines.items };

    ghost frame = { λ _. no_frame };

    fn entries(&self) -> u64 {
        self.lines.len() as u64
    }
}

impl Log {
    fn add(&mut self, ticket: u64, caller: u64)
        ensures { MayFollow ticket caller self.old.lines.items self.new.lines.items }
    {
        let act = Act::Called {
            call: Call::Describe,
            destinations: Listed::new(*self.lines.allocator()),
            sealed: Rare::none(),
        };
        let entry = Entry { moment: 0, act };
        match self.lines.push(Line {
            ticket,
            caller,
            entry,
        }) {
            Ok(()) => {}
            Err(_) => {}
        }
    }
}

// A turnstile with room for so many entries, and its first pass.
fn made(alloc: Global, entries: usize) -> Result<(Turnstile<Log>, Pass<Log>), Mem>
    ensures { IfOk result (λ r. r.1.gate ≡ r.0) }
{
    let lines = Vec::with_capacity(alloc, entries)?;
    match Turnstile::new(alloc, Log { lines }) {
        Ok(made) => Ok(made),
        Err(_) => Err(Mem),
    }
}

// One turn, with one entry.
fn one_turn<R: Wait>(rt: &R, turnstile: &Turnstile<Log>, pass: Pass<Log>) -> Pass<Log>
    requires { pass.gate ≡ turnstile.now }
    ensures { result.gate ≡ turnstile.now }
{
    let caller = pass.caller();
    let mut turn = turnstile.enter(rt, pass);
    let ticket = turn.ticket();
    turn.change().add(ticket, caller);
    turn.leave()
}

fn some_turns<R: Wait>(rt: &R, turnstile: &Turnstile<Log>, pass: Pass<Log>, turns: u32) -> Pass<Log>
    requires { pass.gate ≡ turnstile.now }
    ensures { result.gate ≡ turnstile.now }
{
    let mut pass = pass;
    for _ in 0..turns {
        pass = one_turn(rt, turnstile, pass);
    }
    pass
}

// Two threads, with so many turns each.
fn two_threads<R: Threads + Wait + Sync>(
    rt: &R,
    turnstile: &Turnstile<Log>,
    first: Pass<Log>,
    second: Pass<Log>,
    turns: u32,
) -> (Pass<Log>, Pass<Log>)
    requires { (first.gate ≡ turnstile.now) × (second.gate ≡ turnstile.now) }
    ensures { (result.0.gate ≡ turnstile.now) × (result.1.gate ≡ turnstile.now) }
{
    thread::join(
        rt,
        move || some_turns(rt, turnstile, first, turns),
        move || some_turns(rt, turnstile, second, turns),
    )
}

// How many entries are of this caller, if their tickets rise.
fn in_order(lines: &[Line], caller: u64) -> u64 {
    let mut count = 0u64;
    let mut next = 0;
    for line in lines {
        if line.caller == caller {
            if line.ticket < next || next == u64::MAX {
                return 0;
            }
            next = line.ticket.saturating_add(1);
            count = count.saturating_add(1);
        }
    }
    count
}

// How many entries there are, and how many of each of two callers.
fn counts<R: Wait>(
    rt: &R,
    turnstile: &Turnstile<Log>,
    pass: Pass<Log>,
    callers: (u64, u64),
) -> (u64, u64, u64)
    requires { pass.gate ≡ turnstile.now }
{
    let turn = turnstile.enter(rt, pass);
    let found = {
        let lines = turn.value().lines.as_slice();
        (
            lines.len() as u64,
            in_order(lines, callers.0),
            in_order(lines, callers.1),
        )
    };
    let _last = turn.leave();
    found
}

#[test]
fn two_threads_enter_each_turn_once(rt: HostRuntime) -> Result<(), Fail> {
    let (turnstile, mut first) = made(rt.alloc(), 2000)?;
    let second = turnstile.split(&rt, &mut first)?;
    let callers = (first.caller(), second.caller());
    let (mut first, second) = two_threads(&rt, &turnstile, first, second, 1000);
    turnstile.join(&mut first, second);
    let (all, ones, twos) = counts(&rt, &turnstile, first, callers);
    assert!(rt; all == 2000);
    assert!(rt; ones == 1000);
    assert!(rt; twos == 1000);
    Ok(())
}

// How often a turn looks for a caller that sleeps, and how often it lets others run once it has found one.
const LOOKS: u32 = 1_000_000;

const YIELDS: u32 = 1000;

// Whether a caller sleeps before the looks are used up.
fn has_sleeper(turnstile: &Turnstile<Log>) -> bool {
    for _ in 0..LOOKS {
        if turnstile.bell.sleepers() != 0 {
            for _ in 0..YIELDS {
                thread::yield_now();
            }
            return true;
        }
        thread::yield_now();
    }
    false
}

// One turn, with one entry. If it is the turnstile's first, it lasts until another caller sleeps.
fn long_turn<R: Wait>(rt: &R, turnstile: &Turnstile<Log>, pass: Pass<Log>) -> (Pass<Log>, bool)
    requires { pass.gate ≡ turnstile.now }
    ensures { result.0.gate ≡ turnstile.now }
{
    let caller = pass.caller();
    let mut turn = turnstile.enter(rt, pass);
    let ticket = turn.ticket();
    let slept = turn.value().lines.is_empty() && has_sleeper(turnstile);
    turn.change().add(ticket, caller);
    (turn.leave(), slept)
}

// Two threads, with one such turn each.
fn two_long_turns<R: Threads + Wait + Sync>(
    rt: &R,
    turnstile: &Turnstile<Log>,
    first: Pass<Log>,
    second: Pass<Log>,
) -> ((Pass<Log>, bool), (Pass<Log>, bool))
    requires { (first.gate ≡ turnstile.now) × (second.gate ≡ turnstile.now) }
    ensures { (result.0.0.gate ≡ turnstile.now) × (result.1.0.gate ≡ turnstile.now) }
{
    thread::join(
        rt,
        move || long_turn(rt, turnstile, first),
        move || long_turn(rt, turnstile, second),
    )
}

#[test]
fn a_caller_that_sleeps_is_woken(rt: HostRuntime) -> Result<(), Fail> {
    let (turnstile, mut first) = made(rt.alloc(), 2)?;
    let second = turnstile.split(&rt, &mut first)?;
    let callers = (first.caller(), second.caller());
    let (one, other) = two_long_turns(&rt, &turnstile, first, second);
    assert!(rt; one.1 != other.1);
    assert!(rt; turnstile.bell.sleepers() == 0);
    assert!(rt; counts(&rt, &turnstile, one.0, callers) == (2, 1, 1));
    Ok(())
}

#[test]
fn a_turnstile_has_a_hundred_thousand_turns(rt: HostRuntime) -> Result<(), Fail> {
    let (turnstile, first) = made(rt.alloc(), 100_000)?;
    let callers = (first.caller(), u64::MAX);
    let pass = some_turns(&rt, &turnstile, first, 100_000);
    assert!(rt; counts(&rt, &turnstile, pass, callers) == (100_000, 100_000, 0));
    Ok(())
}

// A pass and another that is split off.
fn pair<R: Wait>(
    rt: &R,
    turnstile: &Turnstile<Log>,
    pass: Pass<Log>,
) -> Result<(Pass<Log>, Pass<Log>), Mem>
    requires { pass.gate ≡ turnstile.now }
    ensures { IfOk result (λ r. (r.0.gate ≡ turnstile.now) × (r.1.gate ≡ turnstile.now)) }
{
    let mut first = pass;
    let second = turnstile.split(rt, &mut first)?;
    Ok((first, second))
}

// Four threads, with 100 turns each.
fn four_threads<R: Threads + Wait + Sync>(
    rt: &R,
    turnstile: &Turnstile<Log>,
    one: (Pass<Log>, Pass<Log>),
    other: (Pass<Log>, Pass<Log>),
) -> Pass<Log>
    requires one { (one.0.gate ≡ turnstile.now) × (one.1.gate ≡ turnstile.now) }
    requires other { (other.0.gate ≡ turnstile.now) × (other.1.gate ≡ turnstile.now) }
    ensures { result.gate ≡ turnstile.now }
{
    let (first, second) = one;
    let (third, fourth) = other;
    let ((mut first, second), (third, fourth)) = thread::join(
        rt,
        move || -> (Pass<Log>, Pass<Log>)
            requires { (first.gate ≡ turnstile.now) × (second.gate ≡ turnstile.now) }
            ensures { (result.0.gate ≡ turnstile.entry.now) × (result.1.gate ≡ turnstile.entry.now) }
        { two_threads(rt, turnstile, first, second, 100) },
        move || -> (Pass<Log>, Pass<Log>)
            requires { (third.gate ≡ turnstile.now) × (fourth.gate ≡ turnstile.now) }
            ensures { (result.0.gate ≡ turnstile.entry.now) × (result.1.gate ≡ turnstile.entry.now) }
        { two_threads(rt, turnstile, third, fourth, 100) },
    );
    turnstile.join(&mut first, second);
    turnstile.join(&mut first, third);
    turnstile.join(&mut first, fourth);
    first
}

// A turnstile of four threads: how many entries there are, and how many of the first two callers.
fn one_turnstile<R: Threads + Wait + Sync>(rt: &R, alloc: Global) -> Result<(u64, u64, u64), Mem> {
    let (turnstile, first) = made(alloc, 400)?;
    let (first, third) = pair(rt, &turnstile, first)?;
    let callers = (first.caller(), third.caller());
    let one = pair(rt, &turnstile, first)?;
    let other = pair(rt, &turnstile, third)?;
    let pass = four_threads(rt, &turnstile, one, other);
    Ok(counts(rt, &turnstile, pass, callers))
}

// Two turnstiles beside each other.
fn two_turnstiles<R: Threads + Wait + Sync>(
    rt: &R,
    alloc: Global,
) -> Result<[(u64, u64, u64); 2], Mem> {
    let (one, other) = thread::join(
        rt,
        move || one_turnstile(rt, alloc),
        move || one_turnstile(rt, alloc),
    );
    Ok([one?, other?])
}

#[test]
fn sixteen_threads_enter_four_turnstiles(rt: HostRuntime) -> Result<(), Fail> {
    let host = &rt;
    let alloc = rt.alloc();
    let (one, other) = thread::join(
        host,
        move || two_turnstiles(host, alloc),
        move || two_turnstiles(host, alloc),
    );
    assert!(rt; one? == [(400, 100, 100); 2]);
    assert!(rt; other? == [(400, 100, 100); 2]);
    Ok(())
}

#[test]
fn a_register_answers_what_was_set_last(rt: HostRuntime) -> Result<(), Fail> {
    let Ok((turnstile, pass)) = Turnstile::new(rt.alloc(), Register::new(rt.alloc())) else {
        return Err(Mem.into());
    };
    let (before, _, pass) = get(&rt, &turnstile, pass);
    let (done, pass) = set(&rt, &turnstile, pass, 7);
    done?;
    let (after, ticket, _last) = get(&rt, &turnstile, pass);
    assert!(rt; before == 0);
    assert!(rt; after == 7);
    assert!(rt; ticket == 2);
    Ok(())
}

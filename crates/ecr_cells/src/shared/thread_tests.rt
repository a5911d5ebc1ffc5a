ghost use Rattle.std.specs.Prelude.{IfOk};
ghost use Rattle.ecr_desk.specs.Desks.{IsOf};
ghost use Rattle.ecr_cells.specs.Shared.{pass_of, shared_of};

use crate::shared::tests::{answered, decided, key_at, made, opened, site_at};
use crate::tests::{FIRST, create};
use crate::{DeskPass, SharedDesk};
use ecr_desk::{Desk, Seen};
use ecr_model::{Call, Mem, Mutability, Page, Refusal, Reply, SiteCall, SiteReply};
use ecr_outside::{Gate, HoldGate, Stage};
use std::alloc::Global;
use std::sync::Wait;
use std::test::Fail;
use std::thread;
use std::thread::Threads;

/// How often a worker waits for another.
const TURNS: u64 = 1_000_000;

/// What a worker does, at the first site.
#[derive(Clone, Copy)]
enum Work {
    /// It creates so many repositories of its own, and as many that each worker creates.
    Create { worker: u32, each: u32 },
    /// It sets the mutability of `app` so many times.
    Set { turns: u32 },
}

/// The reply to a call.
#[derive(Clone, Copy, PartialEq, Eq)]
enum Word {
    Created,
    Exists,
    Full,
    Set(Mutability),
    Other,
}

/// The reply to a call, and the ticket of its last turn, which may have added an entry.
#[derive(Clone, Copy)]
struct Told {
    word: Word,
    ticket: u64,
    changed: bool,
}

fn word_of(reply: &Reply) -> Word {
    match reply {
        Reply::Created { .. } => Word::Created,
        Reply::MutabilitySet { mutability } => Word::Set(*mutability),
        Reply::Refused(Refusal::RepositoryAlreadyExists) => Word::Exists,
        Reply::Refused(Refusal::LimitExceeded { .. }) => Word::Full,
        _ => Word::Other,
    }
}

// Makes the call, and adds what it told.
fn tell<R: Wait>(
    rt: &R,
    alloc: Global,
    desk: &SharedDesk,
    pass: &mut DeskPass,
    name: &str,
    call: Call,
    told: &mut Vec<Told>,
) -> Result<(), Mem>
    requires { IsOf (shared_of desk.now) (pass_of pass.old) }
    ensures { IsOf (shared_of desk.now) (pass_of pass.new) }
{
    let answer = answered(rt, alloc, desk, pass, 0, name, call, FIRST)?;
    if let Some(place) = answer.places.last() {
        told.push(Told {
            word: word_of(&answer.reply),
            ticket: place.ticket,
            changed: place.changed,
        })?;
    }
    Ok(())
}

fn create_all<R: Wait>(
    rt: &R,
    alloc: Global,
    desk: &SharedDesk,
    pass: &mut DeskPass,
    worker: u32,
    each: u32,
) -> Result<Vec<Told>, Mem>
    requires { IsOf (shared_of desk.now) (pass_of pass.old) }
    ensures { IsOf (shared_of desk.now) (pass_of pass.new) }
{
    let mut told = Vec::new(alloc);
    for number in 0..each {
        let own = format!(in alloc; "own{worker}-{number}")?;
        tell(rt, alloc, desk, pass, own.as_str(), create(), &mut told)?;
        let common = format!(in alloc; "common{number}")?;
        tell(rt, alloc, desk, pass, common.as_str(), create(), &mut told)?;
    }
    Ok(told)
}

fn set_often<R: Wait>(
    rt: &R,
    alloc: Global,
    desk: &SharedDesk,
    pass: &mut DeskPass,
    turns: u32,
) -> Result<Vec<Told>, Mem>
    requires { IsOf (shared_of desk.now) (pass_of pass.old) }
    ensures { IsOf (shared_of desk.now) (pass_of pass.new) }
{
    let mut told = Vec::new(alloc);
    for turn in 0..turns {
        let mutability = if turn % 2 == 0 {
            Mutability::Immutable
        } else {
            Mutability::Mutable
        };
        let call = Call::SetMutability { mutability };
        tell(rt, alloc, desk, pass, "app", call, &mut told)?;
    }
    Ok(told)
}

fn at_work<R: Wait>(
    rt: &R,
    alloc: Global,
    desk: &SharedDesk,
    mut pass: DeskPass,
    work: Work,
) -> (DeskPass, Result<Vec<Told>, Mem>)
    requires { IsOf (shared_of desk.now) (pass_of pass) }
    ensures { IsOf (shared_of desk.now) (pass_of result.0) }
{
    let told = match work {
        Work::Create { worker, each } => create_all(rt, alloc, desk, &mut pass, worker, each),
        Work::Set { turns } => set_often(rt, alloc, desk, &mut pass, turns),
    };
    (pass, told)
}

// A desk that threads work at. What they do is one call here, so that a thread needs to know of the desk and its pass
// only that they may cross to it.
trait Workplace: Desk {
    /// The work of one thread.
    fn work<R: Wait>(
        &self,
        rt: &R,
        alloc: Global,
        pass: Self::Pass,
        work: Work,
    ) -> (Self::Pass, Result<Vec<Told>, Mem>)
        requires of { IsOf (Self.shared self.now) (Self.Pass.seen pass) }
        ensures of { IsOf (Self.shared self.now) (Self.Pass.seen result.0) };

    /// Holds `a1` at the gate, and tells the place.
    fn hold_a1<R: Wait>(
        &self,
        rt: &R,
        alloc: Global,
        pass: Self::Pass,
        gate: &HoldGate,
    ) -> Result<String, Mem>
        requires of { IsOf (Self.shared self.now) (Self.Pass.seen pass) };

    /// Describes `b1` once another worker is at the gate, and passes it then.
    fn describe_b1<R: Wait>(
        &self,
        rt: &R,
        alloc: Global,
        pass: Self::Pass,
        gate: &HoldGate,
    ) -> Result<String, Mem>
        requires of { IsOf (Self.shared self.now) (Self.Pass.seen pass) };
}

impl Workplace for SharedDesk {
    fn work<R: Wait>(
        &self,
        rt: &R,
        alloc: Global,
        pass: DeskPass,
        work: Work,
    ) -> (DeskPass, Result<Vec<Told>, Mem>) {
        at_work(rt, alloc, self, pass, work)
    }

    fn hold_a1<R: Wait>(
        &self,
        rt: &R,
        alloc: Global,
        mut pass: DeskPass,
        gate: &HoldGate,
    ) -> Result<String, Mem> {
        hold(rt, alloc, self, &mut pass, "a1", gate)
    }

    fn describe_b1<R: Wait>(
        &self,
        rt: &R,
        alloc: Global,
        pass: DeskPass,
        gate: &HoldGate,
    ) -> Result<String, Mem> {
        describe_beside(rt, alloc, self, pass, gate)
    }
}

// Both at once, each in a thread.
fn both<R: Threads + Wait + Sync, D: Workplace + Sync>(
    rt: &R,
    alloc: Global,
    desk: &D,
    passes: (D::Pass, D::Pass),
    work: (Work, Work),
) -> (
    (D::Pass, Result<Vec<Told>, Mem>),
    (D::Pass, Result<Vec<Told>, Mem>),
)
where
    D::Pass: Send + Drop,
    requires first { IsOf (D.shared desk.now) (D.Pass.seen passes.0) }
    requires second { IsOf (D.shared desk.now) (D.Pass.seen passes.1) }
    ensures first { IsOf (D.shared desk.now) (D.Pass.seen result.0.0) }
    ensures second { IsOf (D.shared desk.now) (D.Pass.seen result.1.0) }
{
    let (first, second) = passes;
    let (one, other) = work;
    thread::join(
        rt,
        move || desk.work(rt, alloc, first, one),
        move || desk.work(rt, alloc, second, other),
    )
}

// Both at a shared desk.
fn both_shared<R: Threads + Wait + Sync>(
    rt: &R,
    alloc: Global,
    desk: &SharedDesk,
    passes: (DeskPass, DeskPass),
    work: (Work, Work),
) -> (
    (DeskPass, Result<Vec<Told>, Mem>),
    (DeskPass, Result<Vec<Told>, Mem>),
)
    requires first { IsOf (shared_of desk.now) (pass_of passes.0) }
    requires second { IsOf (shared_of desk.now) (pass_of passes.1) }
    ensures first { IsOf (shared_of desk.now) (pass_of result.0.0) }
    ensures second { IsOf (shared_of desk.now) (pass_of result.1.0) }
{
    both(rt, alloc, desk, passes, work)
}

// How many names the site has.
fn count_names<R: Wait>(
    rt: &R,
    alloc: Global,
    desk: &SharedDesk,
    pass: &mut DeskPass,
) -> Result<usize, Mem>
    requires { IsOf (shared_of desk.now) (pass_of pass.old) }
    ensures { IsOf (shared_of desk.now) (pass_of pass.new) }
{
    let Some(site) = site_at(desk, 0)? else {
        return Ok(0);
    };
    let page = Page { from: 0, max: 1000 };
    let answer = desk.registry(rt, alloc, pass, &site, SiteCall::Names { page })?;
    match &answer.reply {
        SiteReply::Names { names, .. } => Ok(names.as_slice().len()),
        SiteReply::Refused(_) => Ok(0),
    }
}

// What both workers were told.
fn all_of(mut told: Vec<Told>, others: &[Told]) -> Result<Vec<Told>, Mem> {
    told.extend_from_slice(others)?;
    Ok(told)
}

fn count(told: &[Told], word: Word) -> usize {
    told.iter().filter(|t| t.word == word).count()
}

#[test]
fn two_threads_register_each_name_once(rt: HostRuntime) -> Result<(), Fail> {
    let alloc = rt.alloc();
    let (desk, mut first) = opened(alloc, 100)?;
    let second = desk.split(&rt, alloc, &mut first)?;
    let one = Work::Create {
        worker: 1,
        each: 20,
    };
    let other = Work::Create {
        worker: 2,
        each: 20,
    };
    let (one, other) = both_shared(&rt, alloc, &desk, (first, second), (one, other));
    let (mut first, told) = one;
    let (mut second, others) = other;
    let told = all_of(told?, &others?)?;
    assert_eq!(rt; count(&told, Word::Created), 60);
    assert_eq!(rt; count(&told, Word::Exists), 20);
    assert_eq!(rt; desk.made(&first).saturating_add(desk.made(&second)), 120);
    assert_eq!(rt; count_names(&rt, alloc, &desk, &mut first)?, 60);
    // Each has seen what the other did.
    let words = made(
        &rt,
        alloc,
        &desk,
        &mut first,
        0,
        "own2-19",
        Call::Describe,
        FIRST,
    )?;
    assert_eq!(rt;
        words.as_str(),
        "own2-19 1700000000 Mutable, us-east-1, us-east-1/own2-19"
    );
    let words = made(
        &rt,
        alloc,
        &desk,
        &mut second,
        0,
        "own1-19",
        create(),
        FIRST,
    )?;
    assert_eq!(rt; words.as_str(), "exists, us-east-1, us-east-1/own1-19");
    Ok(())
}

#[test]
fn two_threads_together_keep_to_the_limit_of_names(rt: HostRuntime) -> Result<(), Fail> {
    let alloc = rt.alloc();
    let (desk, mut first) = opened(alloc, 30)?;
    let second = desk.split(&rt, alloc, &mut first)?;
    let one = Work::Create {
        worker: 1,
        each: 20,
    };
    let other = Work::Create {
        worker: 2,
        each: 20,
    };
    let (one, other) = both_shared(&rt, alloc, &desk, (first, second), (one, other));
    let (mut first, told) = one;
    let told = all_of(told?, &other.1?)?;
    assert_eq!(rt; count(&told, Word::Created), 30);
    assert!(rt; count(&told, Word::Full) > 0);
    assert_eq!(rt; count_names(&rt, alloc, &desk, &mut first)?, 30);
    Ok(())
}

// Whether no ticket was used twice, and a change has an entry exactly where it sets another mutability than that before
// it in the order of the tickets.
fn is_in_order(told: &[Told]) -> bool {
    let mut next = 1;
    let mut now = Word::Set(Mutability::Mutable);
    for told in told {
        if told.ticket < next || told.changed == (told.word == now) {
            return false;
        }
        next = told.ticket.saturating_add(1);
        now = told.word;
    }
    true
}

#[test]
fn changes_of_two_threads_follow_their_tickets(rt: HostRuntime) -> Result<(), Fail> {
    let alloc = rt.alloc();
    let (desk, mut first) = opened(alloc, 100)?;
    let second = desk.split(&rt, alloc, &mut first)?;
    let _words = made(&rt, alloc, &desk, &mut first, 0, "app", create(), FIRST)?;
    let (one, other) = (Work::Set { turns: 500 }, Work::Set { turns: 500 });
    let (one, other) = both_shared(&rt, alloc, &desk, (first, second), (one, other));
    let mut told = all_of(one.1?, &other.1?)?;
    told.sort_unstable_by_key(|told| told.ticket);
    assert_eq!(rt; told.len(), 1000);
    assert!(rt; is_in_order(&told));
    Ok(())
}

// The description of `b1`, which begins when another worker is at the gate. The gate is passed once it was answered.
fn describe_beside<R: Wait>(
    rt: &R,
    alloc: Global,
    desk: &SharedDesk,
    mut pass: DeskPass,
    gate: &HoldGate,
) -> Result<String, Mem>
    requires { IsOf (shared_of desk.now) (pass_of pass) }
{
    for _ in 0..TURNS {
        if gate.reached() {
            break;
        }
        thread::yield_now();
    }
    let words = made(rt, alloc, desk, &mut pass, 0, "b1", Call::Describe, FIRST);
    gate.pass(rt, 2, Stage::Answered);
    words
}

// Holds the repository of that name at the gate, and tells the place.
fn hold<R: Wait>(
    rt: &R,
    alloc: Global,
    desk: &SharedDesk,
    pass: &mut DeskPass,
    name: &str,
    gate: &HoldGate,
) -> Result<String, Mem>
    requires { IsOf (shared_of desk.now) (pass_of pass.old) }
    ensures { IsOf (shared_of desk.now) (pass_of pass.new) }
{
    let Some(key) = key_at(desk, alloc, 0, name)? else {
        return Err(Mem);
    };
    let place = desk.hold(rt, alloc, pass, &key, 1, gate)?;
    decided(alloc, &place)
}

// One holds `a1`, and the other asks for `b1`.
fn held_beside<R: Threads + Wait + Sync, D: Workplace + Sync>(
    rt: &R,
    alloc: Global,
    desk: &D,
    first: D::Pass,
    second: D::Pass,
    gate: &HoldGate,
) -> (Result<String, Mem>, Result<String, Mem>)
where
    D::Pass: Send + Drop,
    requires first { IsOf (D.shared desk.now) (D.Pass.seen first) }
    requires second { IsOf (D.shared desk.now) (D.Pass.seen second) }
{
    thread::join(
        rt,
        move || desk.hold_a1(rt, alloc, first, gate),
        move || desk.describe_b1(rt, alloc, second, gate),
    )
}

// Both at a shared desk.
fn held_shared<R: Threads + Wait + Sync>(
    rt: &R,
    alloc: Global,
    desk: &SharedDesk,
    first: DeskPass,
    second: DeskPass,
    gate: &HoldGate,
) -> (Result<String, Mem>, Result<String, Mem>)
    requires first { IsOf (shared_of desk.now) (pass_of first) }
    requires second { IsOf (shared_of desk.now) (pass_of second) }
{
    held_beside(rt, alloc, desk, first, second, gate)
}

#[test]
fn another_repository_is_open_while_one_is_held(rt: HostRuntime) -> Result<(), Fail> {
    let alloc = rt.alloc();
    let (desk, mut first) = opened(alloc, 100)?;
    let gate = HoldGate::new(1, Stage::InTurn, Stage::Answered, TURNS);
    // A name that isn't registered isn't held.
    let place = hold(&rt, alloc, &desk, &mut first, "a1", &gate)?;
    assert_eq!(rt; place.as_str(), ", us-east-1");
    assert!(rt; !gate.reached());
    let _words = made(&rt, alloc, &desk, &mut first, 0, "a1", create(), FIRST)?;
    let _words = made(&rt, alloc, &desk, &mut first, 0, "b1", create(), FIRST)?;
    let second = desk.split(&rt, alloc, &mut first)?;
    let (held, words) = held_shared(&rt, alloc, &desk, first, second, &gate);
    assert_eq!(rt; held?.as_str(), ", us-east-1/a1");
    assert_eq!(rt;
        words?.as_str(),
        "b1 1700000000 Mutable, us-east-1, us-east-1/b1"
    );
    assert!(rt; gate.reached());
    assert!(rt; !gate.spent());
    Ok(())
}

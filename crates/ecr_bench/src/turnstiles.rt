// Turns of turnstiles, beside the same under locks.
ghost use Rattle.std.specs.Prelude.{◌<◌};

use crate::hands::{Hand, Locked, Visitor};
use ecr_model::Mem;
use std::alloc::Global;
use std::sync::Wait;
use std::thread::Threads;
use std::time::{Clock, Instant};
use std::{io, thread};

/// How many places there are in the second half of the table.
const MANY: usize = 16;

/// The numbers of threads.
const THREADS: [usize; 4] = [1, 2, 4, 16];

/// The fewest turns of a run. A run that was too short is made again with four times as many.
const FEWEST: usize = 1 << 10;

/// How often a run is made again. The longest has 2^22 turns, whose entries take 100 MB.
const AGAIN: u32 = 6;

/// A run of so many nanoseconds is long enough.
const ENOUGH: u128 = 50_000_000;

/// What a run does.
#[derive(Clone, Copy)]
struct Case {
    /// How many threads there are.
    threads: usize,
    /// Over how many turnstiles, or locks, they are spread.
    places: usize,
    /// How many turns there are in all.
    turns: usize,
}

impl Case {
    /// How many turns there are at one place.
    fn room(self) -> usize {
        self.turns / self.places.max(1)
    }

    /// How many take turns at one place.
    fn hands(self) -> usize
        ensures { 0 < result }
    {
        (self.threads / self.places.max(1)).max(1)
    }
}

/// Times all cases, each beside the same under locks. Each turn adds one entry.
pub(crate) fn time<R: Threads + Wait + Clock + Print + Sync>(
    rt: &R,
    alloc: Global,
) -> io::Result<()> {
    for threads in THREADS {
        print_case(rt, alloc, threads, 1)?;
    }
    for threads in THREADS {
        print_case(rt, alloc, threads, MANY)?;
    }
    Ok(())
}

fn print_case<R: Threads + Wait + Clock + Print + Sync>(
    rt: &R,
    alloc: Global,
    threads: usize,
    places: usize,
) -> io::Result<()> {
    let turns = rate::<Visitor, R>(rt, alloc, threads, places)?;
    let locks = rate::<Locked, R>(rt, alloc, threads, places)?;
    println!(rt;
        "threads: {threads}, turnstiles: {places}, turns a second: {turns}, with a Mutex: {locks}"
    )
}

/// How many turns there are in a second, by a run that is long enough.
fn rate<H: Hand + Send + Drop, R: Threads + Wait + Clock + Sync>(
    rt: &R,
    alloc: Global,
    threads: usize,
    places: usize,
) -> io::Result<u128> {
    let mut case = Case {
        threads,
        places,
        turns: FEWEST,
    };
    let mut took = time_run::<H, R>(rt, alloc, case)?;
    for _ in 0..AGAIN {
        if took >= ENOUGH {
            break;
        }
        case.turns = case.turns.saturating_mul(4);
        took = time_run::<H, R>(rt, alloc, case)?;
    }
    Ok(case.turns as u128 * 1_000_000_000 / took.max(1))
}

/// The nanoseconds that a run took.
fn time_run<H: Hand + Send + Drop, R: Threads + Wait + Clock + Sync>(
    rt: &R,
    alloc: Global,
    case: Case,
) -> io::Result<u128> {
    let mut hands = hands::<H, R>(rt, alloc, case)?;
    time_hands(rt, hands.as_mut_slice(), case)
}

/// All who take turns, those at one place beside each other.
fn hands<H: Hand + Drop, R: Wait>(rt: &R, alloc: Global, case: Case) -> Result<Vec<H>, Mem> {
    let mut all = Vec::new(alloc);
    for _ in 0..case.places {
        let mut first = H::first(alloc, case.room())?;
        for _ in 1..case.hands() {
            all.push(first.another(rt)?)?;
        }
        all.push(first)?;
    }
    Ok(all)
}

/// The nanoseconds until all threads are through.
fn time_hands<H: Hand + Send, R: Threads + Wait + Clock + Sync>(
    rt: &R,
    hands: &mut [H],
    case: Case,
) -> io::Result<u128> {
    let size = hands.len().div_ceil(case.threads.max(1)).max(1);
    let rounds = case.room() / case.hands();
    let start = Instant::now(rt)?;
    thread::for_each_chunk_mut(rt, hands, size, &|_, part| go_round(rt, part, rounds));
    Ok(start.elapsed(rt)?.as_nanos())
}

/// Each of them adds so many entries, in turn.
fn go_round<H: Hand, R: Wait>(rt: &R, hands: &mut [H], rounds: usize) {
    for _ in 0..rounds {
        for hand in hands.iter_mut() {
            hand.add(rt);
        }
    }
}

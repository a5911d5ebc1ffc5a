// Many threads wait for one turn, or for one lock, while it is held. What they take of the processors in that time is
// for the caller to measure.
use crate::hands::{Hand, Locked, Visitor};
use std::alloc::Global;
use std::sync::Wait;
use std::thread::Threads;
use std::time::{Clock, Duration};
use std::{io, thread};

/// So many threads add an entry each in turns of one turnstile, of which each holds its turn for so many milliseconds
/// shared among them all.
pub(crate) fn wait_for_a_turn<R: Threads + Wait + Clock + Print + Sync>(
    rt: &R,
    alloc: Global,
    threads: usize,
    milliseconds: usize,
) -> io::Result<()> {
    wait::<Visitor, R>(rt, alloc, threads, milliseconds)
}

/// The same with a lock.
pub(crate) fn wait_for_a_lock<R: Threads + Wait + Clock + Print + Sync>(
    rt: &R,
    alloc: Global,
    threads: usize,
    milliseconds: usize,
) -> io::Result<()> {
    wait::<Locked, R>(rt, alloc, threads, milliseconds)
}

fn wait<H: Hand + Send + Drop, R: Threads + Wait + Clock + Print + Sync>(
    rt: &R,
    alloc: Global,
    threads: usize,
    milliseconds: usize,
) -> io::Result<()> {
    let mut first = H::first(alloc, threads)?;
    let mut hands = Vec::new(alloc);
    for _ in 1..threads {
        hands.push(first.another(rt)?)?;
    }
    hands.push(first)?;
    let each = Duration::from_millis((milliseconds / threads.max(1)) as u64);
    thread::for_each_chunk_mut(
        rt,
        hands.as_mut_slice(),
        1,
        &|_, part: &mut [H]| {
            for hand in part.iter_mut() {
                hand.hold(rt, each);
            }
        },
    );
    println!(rt; "{threads} threads held it one after another, {milliseconds} milliseconds in all")
}

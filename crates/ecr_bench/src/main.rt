//! Benchmarks of the library crates. The first word names one; without one the words are told.
#![tactic(auto)]

ghost use Rattle.std.specs.Prelude.{◌≡◌, length};

mod apis;
mod callers;
mod desks;
mod hands;
mod loads;
mod manifests;
mod policies;
mod repos;
mod timing;
mod turnstiles;
mod waiters;

use std::alloc::Global;
use std::net::{Net, TcpListener, TcpStream};
use std::sync::Wait;
use std::thread::Threads;
use std::time::Clock;
use std::{env, io};

const USAGE: &str = "ecr_bench policy | manifest | api | repo | desk | turnstile
ecr_bench callers THREADS REPOSITORIES
ecr_bench turn | lock THREADS MILLISECONDS
ecr_bench floor ADDRESS
ecr_bench load ADDRESS LINKS REQUESTS create | describe | missing";

fn main(rt: HostRuntime) -> io::Result<()> {
    let words: Vec<String> = env::args(&rt)?.skip(1).collect(rt.alloc())?;
    let Some(word) = words.first() else {
        return println!(rt; "{USAGE}");
    };
    // Two that may wait.
    if word.as_str() == "turnstile" {
        turnstiles::time(&rt, rt.alloc())
    } else if word.as_str() == "desk" {
        desks::time(&rt, rt.alloc())?;
        callers::time_all(&rt, rt.alloc())
    } else if let Some((first, second)) = numbers_in(words.as_slice()) {
        run_with(&rt, rt.alloc(), word.as_str(), first, second)
    } else if words.len() == 2 && word.as_str() == "floor" {
        loads::serve_floor(&rt, words[1].as_str())
    } else if words.len() == 5 && word.as_str() == "load" {
        load(&rt, rt.alloc(), words.as_slice())
    } else {
        run(&rt, word.as_str())
    }
}

/// The second and third word, where they are the last and are numbers.
fn numbers_in(words: &[String]) -> Option<(usize, usize)> {
    if words.len() != 3 {
        return None;
    }
    numbers_of(words[1].as_str(), words[2].as_str())
}

/// Runs the benchmark of that name, with these numbers.
fn run_with<R: Threads + Wait + Clock + Print + Sync>(
    rt: &R,
    alloc: Global,
    word: &str,
    first: usize,
    second: usize,
) -> io::Result<()> {
    if word == "callers" {
        callers::print_case(rt, alloc, first, second)
    } else if word == "turn" {
        waiters::wait_for_a_turn(rt, alloc, first, second)
    } else if word == "lock" {
        waiters::wait_for_a_lock(rt, alloc, first, second)
    } else {
        println!(rt; "{USAGE}")
    }
}

/// A load on the address that the second word is, by the words behind it.
fn load<R>(rt: &R, alloc: Global, words: &[String]) -> io::Result<()>
where
    R: Net<Listener = TcpListener, Stream = TcpStream> + Threads + Clock + Print + Sync,
    requires { length words.now ≡ 5 }
{
    match numbers_of(words[2].as_str(), words[3].as_str()) {
        Some((links, requests)) => loads::load(
            rt,
            alloc,
            words[1].as_str(),
            links,
            requests,
            words[4].as_str(),
        ),
        None => println!(rt; "{USAGE}"),
    }
}

/// Both words as numbers.
fn numbers_of(first: &str, second: &str) -> Option<(usize, usize)> {
    Some((first.parse::<usize>().ok()?, second.parse::<usize>().ok()?))
}

/// Runs the benchmark of that name, where it has one thread.
fn run(rt: &HostRuntime, word: &str) -> io::Result<()> {
    if word == "policy" {
        policies::time(rt)
    } else if word == "manifest" {
        manifests::time(rt)
    } else if word == "api" {
        apis::time(rt)
    } else if word == "repo" {
        repos::time(rt)
    } else {
        println!(rt; "{USAGE}")
    }
}

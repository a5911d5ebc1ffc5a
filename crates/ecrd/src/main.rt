//! The program of the registry. It gives the command its words, standard input, standard output, the system's clock
//! and, for a server, the network, and ends with the command's status.
#![tactic(auto)]

use ecr_outside::{OpenGate, RealAccept, RealClock, RealClocks, RealSink, RealSource, Sink};
use ecr_serve::{Ended, serve, solo};
use std::alloc::Global;
use std::net::{Net, TcpListener, TcpStream};
use std::process::ExitCode;
use std::sync::Wait;
use std::thread::Threads;
use std::time::Clock;
use std::{env, io};

/// The status where there is no memory for the words.
const NO_MEMORY: u8 = 5;

fn main(rt: HostRuntime) -> ExitCode {
    let words = match read_words(&rt) {
        Ok(words) => words,
        Err(error) => {
            if error.kind() == io::ErrorKind::OutOfMemory {
                return ExitCode::from(NO_MEMORY);
            }
            // A word isn't UTF-8, so the words are no command, as no words are.
            Vec::new(rt.alloc())
        }
    };
    // What is written goes out at once, since standard output has no buffer here.
    let mut sink = RealSink::new(rt.stdout());
    let ended = if is_server(&words) {
        run_server(&rt, rt.alloc(), &words, &mut sink)
    } else {
        run_alone(&rt, &words, &mut sink)
    };
    ExitCode::from(ended.status)
}

/// The words behind the program's name.
fn read_words(rt: &HostRuntime) -> io::Result<Vec<String>> {
    let words = env::args(rt)?.skip(1).collect(rt.alloc())?;
    Ok(words)
}

/// Whether the command is a server.
fn is_server(words: &[String]) -> bool {
    match words.first() {
        Some(word) => word.as_str() == "serve",
        None => false,
    }
}

/// Runs a command for one caller, who reads standard output and writes standard input.
fn run_alone<K: Sink>(rt: &HostRuntime, words: &[String], sink: &mut K) -> Ended {
    let mut source = RealSource::new(rt.stdin());
    let mut clock = RealClock::new(rt);
    solo(rt.alloc(), words, &mut source, sink, &mut clock)
}

/// Runs a server for the clients of an address.
fn run_server<R, K: Sink>(rt: &R, alloc: Global, words: &[String], sink: &mut K) -> Ended
where
    R: Threads + Wait + Net<Listener = TcpListener, Stream = TcpStream> + Clock + Sync,
{
    let mut accept = RealAccept::new(alloc, rt);
    let clocks = RealClocks::new(rt);
    serve(rt, alloc, words, &mut accept, sink, &clocks, &OpenGate)
}

#[cfg(test)]
mod tests;

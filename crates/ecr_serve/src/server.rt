// A command for many clients.
ghost use Rattle.std.specs.Prelude.{◌≡◌, ◌<◌, ℕ, List, Option, Some, [], true, false, length, map, string_bytes};
ghost use Rattle.ecr_model.specs.sessions.Commands.{RunsServer, SaysUsage, exit_status, ready_line};
ghost use Rattle.ecr_model.specs.declared.names.SiteId.{SiteId};
ghost use Rattle.ecr_serve.specs.Server.{IsNoServer, IsServer};
ghost use Rattle.ecr_serve.specs.Serving.{Begins, front_with};

use crate::command::{Ended, say_usage, with_status};
use crate::server_words::{ServerWords, read_server};
use crate::workers::serve_shared;
use ecr_cells::SharedDesk;
use ecr_http::{Sent, send};
use ecr_model::{End, Limits};
use ecr_outside::{Accept, Clocks, Gate, Opened, Sink};
use std::alloc::Global;
use std::sync::Wait;
use std::thread::Threads;

/// Runs the server that the words are: `serve`, `--workers` and `--copiers` with a number each or not, an address, and
/// the words of 1 to 64 different sites, as `serve --workers 64 127.0.0.1:5000 us-east-1/111122223333`.
///
/// It opens the address, writes the line `ready`, and then takes links until the acceptor closes or fails. Each link is
/// a session of its own, which a worker serves over the one registry. A fault of a session ends that session alone. The
/// registry has nothing in it at first, and goes when the server ends.
pub fn serve<R: Threads + Wait + Sync, A: Accept, K: Sink, T: Clocks + Sync, G: Gate + Sync>(
    rt: &R,
    alloc: Global,
    words: &[String],
    accept: &mut A,
    sink: &mut K,
    clocks: &T,
    gate: &G,
) -> Ended
    requires unopened { (A.entrance accept.old).is_open ≡ false }
    ensures status { result.status ≡ exit_status result.end }
    ensures no_cuts { result.cuts.items ≡ [] }

    // The words are told apart exactly. Other words open nothing.
    ensures usage_only { result.end ≡ End.Usage → IsNoServer (map string_bytes words.now) }
    ensures usage { IsNoServer (map string_bytes words.now)
        → (A.entrance accept.new ≡ A.entrance accept.old)
        × SaysUsage (record { held = K.held sink.old; faults = K.faults sink.old })
        (record { held = K.held sink.new; faults = K.faults sink.new }) result.end }

    // When it is ready, and why it ends.
    ensures runs { (workers copiers : ℕ) (address : List ℕ) (sites : List SiteId)
        → IsServer (map string_bytes words.now) workers copiers address sites
        → RunsServer
        (front_with (A.entrance accept.old) (record { held = K.held sink.old; faults = K.faults sink.old }))
        (front_with (A.entrance accept.new)
        (record { held = K.held sink.new; faults = K.faults sink.new })) result.end }
{
    match read_server(alloc, words) {
        Err(_) => with_status(End::Mem, Vec::new(alloc)),
        Ok(None) => with_status(say_usage(sink), Vec::new(alloc)),
        Ok(Some(server)) => {
            let end = run(rt, alloc, server, accept, sink, clocks, gate);
            with_status(end, Vec::new(alloc))
        }
    }
}

// Makes the registry, and serves it.
fn run<R: Threads + Wait + Sync, A: Accept, K: Sink, T: Clocks + Sync, G: Gate + Sync>(
    rt: &R,
    alloc: Global,
    server: ServerWords,
    accept: &mut A,
    sink: &mut K,
    clocks: &T,
    gate: &G,
) -> End
    requires some { 0 < length server.sites }
    requires unopened { (A.entrance accept.old).is_open ≡ false }
    ensures runs { RunsServer
        (front_with (A.entrance accept.old) (record { held = K.held sink.old; faults = K.faults sink.old }))
        (front_with (A.entrance accept.new) (record { held = K.held sink.new; faults = K.faults sink.new })) result }
{
    let ServerWords {
        workers,
        copiers: _,
        address,
        sites,
    } = server;
    let Ok((desk, pass)) = SharedDesk::new(alloc, sites.into_vec(), Limits::standard()) else {
        return End::Mem;
    };
    if let Some(end) = open(accept, address, sink) {
        return end;
    }
    serve_shared(rt, alloc, &desk, pass, workers, accept, clocks, gate)
}

// Opens the address and says so. The end, where that failed.
fn open<A: Accept, K: Sink>(accept: &mut A, address: &str, sink: &mut K) -> Option<End>
    requires unopened { (A.entrance accept.old).is_open ≡ false }
    ensures begins { Begins
        (front_with (A.entrance accept.old) (record { held = K.held sink.old; faults = K.faults sink.old }))
        (front_with (A.entrance accept.new) (record { held = K.held sink.new; faults = K.faults sink.new })) result }
{
    match accept.open(address) {
        Opened::Failed => Some(End::AcceptFault),
        Opened::Ready => match send(sink, ready_text()) {
            Sent::Done => None,
            Sent::WriteFault => Some(End::WriteFault),
        },
    }
}

fn ready_text() -> &'static [u8]
    ensures { result.now ≡ ready_line }
{
    b"ready\n"
}

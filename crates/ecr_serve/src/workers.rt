// The links of a server, and the threads that serve them.
ghost use Rattle.std.specs.Prelude.{◌≡◌, ◌<◌, true, length, All, IfOk, IfNone, IfSome};
ghost use Rattle.ecr_desk.specs.Desks.{IsOf};
ghost use Rattle.ecr_cells.specs.Shared.{pass_of, shared_of};
ghost use Rattle.ecr_serve.specs.Serving.{ServesLinks};

use crossbeam_channel::{Receiver, Sender, bounded};
use ecr_cells::{DeskPass, SharedDesk};
use ecr_desk::{Desk, Seen};
use ecr_model::{End, Mem};
use ecr_outside::{Accept, Clocks, Gate, Next, Sink, Source};
use ecr_session::{LinkEnd, Mode, serve_link};
use std::alloc::Global;
use std::sync::Wait;
use std::thread;
use std::thread::{Builder, Threads};

/// The most links that wait for a worker.
const QUEUE: usize = 64;

/// The bytes of a worker's stack. The deepest body that is read takes 96 KiB.
const STACK: usize = 1_048_576;

/// A worker: its number, and its pass to the desk.
#[derive(Drop)]
pub struct Worker<'a, D: Desk> {
    number: u32,
    desk: &'a D,
    pass: D::Pass,
    ghost of: { IsOf (D.shared desk.now) (D.Pass.seen pass) },
    ghost some: { 0 < length (D.shared desk.now).realm.served },
}

impl<'a, D: Desk> Worker<'a, D> {
    // Serves a link until its session ends.
    fn serve<W: Wait, S: Source, K: Sink, T: Clocks, G: Gate>(
        self,
        rt: &W,
        alloc: Global,
        mut source: S,
        mut sink: K,
        clocks: &T,
        gate: &G,
    ) -> Worker<'a, D>
    where
        S: Drop,
        K: Drop,
    {
        let Worker { number, desk, pass } = self;
        let mode = Mode {
            control: false,
            fixed: None,
        };
        let mut clock = clocks.one(number);
        let LinkEnd { pass, end: _end } = serve_link(
            rt,
            alloc,
            desk,
            pass,
            mode,
            number,
            &mut source,
            &mut sink,
            &mut clock,
            gate,
        );
        Worker { number, desk, pass }
    }
}

// Serves the links that come, until none does any more.
fn work<W: Wait, D: Desk, S: Source + Drop, K: Sink + Drop, T: Clocks, G: Gate>(
    rt: &W,
    alloc: Global,
    worker: Worker<D>,
    queue: &Receiver<(S, K), Global>,
    clocks: &T,
    gate: &G,
)
where
    D::Pass: Drop,
{
    let mut worker = worker;
    for _ in rt.forever() {
        let Ok((source, sink)) = queue.recv(rt) else {
            return;
        };
        worker = worker.serve(rt, alloc, source, sink, clocks, gate);
    }
}

/// Serves the links of the acceptor, each by the next worker that is free, until the acceptor closes or fails. Then the
/// links that were taken are served, and every worker has ended.
///
/// Each worker is a thread. One for which no thread can be made is left out; where none can be made, the caller's own
/// thread serves each link before it takes the next.
pub(crate) fn serve_links<
    R: Threads + Wait + Sync,
    D: Desk + Sync,
    A: Accept,
    T: Clocks + Sync,
    G: Gate + Sync,
>(
    rt: &R,
    alloc: Global,
    own: Worker<D>,
    workers: Vec<Worker<D>>,
    accept: &mut A,
    clocks: &T,
    gate: &G,
) -> End
where
    D::Pass: Send + Drop,
    requires opened { (A.entrance accept.old).is_open ≡ true }
    ensures serves { ServesLinks (A.entrance accept.old) (A.entrance accept.new) result }
{
    let Ok((links, queue)) = bounded(alloc, QUEUE) else {
        return End::Mem;
    };
    serve_queue(rt, alloc, own, workers, links, &queue, accept, clocks, gate)
}

// Serves the links of the acceptor by that queue, which closes at the end.
fn serve_queue<
    R: Threads + Wait + Sync,
    D: Desk + Sync,
    S: Source + Send + Drop,
    K: Sink + Send + Drop,
    A: Accept<In = S, Out = K>,
    T: Clocks + Sync,
    G: Gate + Sync,
>(
    rt: &R,
    alloc: Global,
    own: Worker<D>,
    workers: Vec<Worker<D>>,
    links: Sender<(S, K), Global>,
    queue: &Receiver<(S, K), Global>,
    accept: &mut A,
    clocks: &T,
    gate: &G,
) -> End
where
    D::Pass: Send + Drop,
    requires opened { (A.entrance accept.old).is_open ≡ true }
    ensures serves { ServesLinks (A.entrance accept.old) (A.entrance accept.new) result }
{
    let (end, _accept) = thread::scope(
        thread::scope_env(),
        rt,
        move |scope| -> (End, &mut A)
            requires { (A.entrance accept.now).is_open ≡ true }
            ensures same { result.1.ghost_name ≡ accept.entry.ghost_name }
            ensures serves { ServesLinks (A.entrance accept.entry.now) (A.entrance result.1.now) result.0 }
        {
            let mut started = false;
            for worker in workers {
                let thread = Builder::new().stack_size(STACK);
                started |= thread
                    .spawn_scoped(scope, move || work(rt, alloc, worker, queue, clocks, gate))
                    .is_ok();
            }
            let way = if started {
                Way::Queue(links)
            } else {
                Way::Own(own)
            };
            let end = take_links(rt, alloc, accept, way, clocks, gate);
            (end, accept)
        },
    );
    end
}

// Where the links go: to the workers, or where there are none to the one that takes them.
#[derive(Drop)]
enum Way<'a, D: Desk, S: Source + Drop, K: Sink + Drop>
where
    D::Pass: Drop,
{
    Queue(Sender<(S, K), Global>),
    Own(Worker<'a, D>),
}

impl<'a, D: Desk, S: Source + Drop, K: Sink + Drop> Way<'a, D, S, K>
where
    D::Pass: Drop,
{
    // Puts the link into the queue, for which it waits where that is full, or serves it.
    fn take<W: Wait, T: Clocks, G: Gate>(
        self,
        rt: &W,
        alloc: Global,
        source: S,
        sink: K,
        clocks: &T,
        gate: &G,
    ) -> Way<'a, D, S, K> {
        match self {
            Way::Queue(links) => {
                // The receiver is there as long as links are taken.
                let _ = links.send(rt, (source, sink));
                Way::Queue(links)
            }
            Way::Own(worker) => Way::Own(worker.serve(rt, alloc, source, sink, clocks, gate)),
        }
    }
}

// Takes links, until none comes any more.
fn take_links<W: Wait, D: Desk, A: Accept, T: Clocks, G: Gate>(
    rt: &W,
    alloc: Global,
    accept: &mut A,
    way: Way<D, A::In, A::Out>,
    clocks: &T,
    gate: &G,
) -> End
where
    D::Pass: Drop,
    requires opened { (A.entrance accept.old).is_open ≡ true }
    ensures serves { ServesLinks (A.entrance accept.old) (A.entrance accept.new) result }
{
    let mut way = way;
    for _ in rt.forever() {
        match accept.next() {
            Next::Link(source, sink) => {
                way = way.take(rt, alloc, source, sink, clocks, gate);
            }
            Next::Closed => return End::Whole,
            Next::Failed => return End::AcceptFault,
        }
    }
    unreachable!()
}

/// Serves the links by so many workers over a registry, to which each has a pass of its own.
pub(crate) fn serve_shared<R: Threads + Wait + Sync, A: Accept, T: Clocks + Sync, G: Gate + Sync>(
    rt: &R,
    alloc: Global,
    desk: &SharedDesk,
    pass: DeskPass,
    count: u32,
    accept: &mut A,
    clocks: &T,
    gate: &G,
) -> End
    requires of { IsOf (shared_of desk.now) (pass_of pass) }
    requires some { 0 < length (shared_of desk.now).realm.served }
    requires opened { (A.entrance accept.old).is_open ≡ true }
    ensures serves { ServesLinks (A.entrance accept.old) (A.entrance accept.new) result }
{
    let mut pass = pass;
    let Ok(workers) = workers_of(rt, alloc, desk, &mut pass, count) else {
        return End::Mem;
    };
    let own = Worker {
        number: 0,
        desk,
        pass,
    };
    serve_links(rt, alloc, own, workers, accept, clocks, gate)
}

// So many workers, with the numbers from 1.
fn workers_of<'a, W: Wait>(
    rt: &W,
    alloc: Global,
    desk: &'a SharedDesk,
    pass: &mut DeskPass,
    count: u32,
) -> Result<Vec<Worker<'a, SharedDesk>>, Mem>
    requires of { IsOf (shared_of desk.now) (pass_of pass.old) }
    requires some { 0 < length (shared_of desk.now).realm.served }
    ensures of { IsOf (shared_of desk.now) (pass_of pass.new) }
{
    let mut workers = Vec::new(alloc);
    for number in 0..count {
        let split = desk.split(rt, alloc, pass)?;
        workers.push(Worker {
            number: number.saturating_add(1),
            desk,
            pass: split,
        })?;
    }
    Ok(workers)
}

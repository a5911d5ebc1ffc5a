// Two sessions at one desk, each in a thread of its own, held so that their requests come in a known order.
ghost use Rattle.std.specs.Prelude.{◌<◌, IfOk, length};
ghost use Rattle.ecr_cells.specs.Shared.{pass_of, shared_of};
ghost use Rattle.ecr_desk.specs.Desks.{IsOf};

use crate::tests::harness::messages;
use ecr_cells::{DeskPass, SharedDesk};
use ecr_desk::{Desk, Seen};
use ecr_model::{CellKey, End, Limits, Mem, Place, SharedText, SiteId};
use ecr_outside::{Gate, HoldGate, MemClock, MemSink, MemSource, Stage};
use ecr_session::{Mode, SessionEnd, serve_session};
use std::alloc::Global;
use std::sync::Wait;
use std::test::Fail;
use std::thread;
use std::thread::Threads;

/// How often a worker waits for another.
const TURNS: u64 = 1_000_000;

// The requests of worker 1, and the replies to them. It is held once the first is answered.
const FIRST: &str = r#"POST / HTTP/1.1
Host: localhost
Content-Length: *
X-Amz-Target: AmazonEC2ContainerRegistry_V20150921.CreateRepository

{"repositoryName":"a1"}
----
POST / HTTP/1.1
Host: localhost
Content-Length: *
X-Amz-Target: AmazonEC2ContainerRegistry_V20150921.DescribeRepositories

{"repositoryNames":["a1","b1"]}
====
HTTP/1.1 200 OK
Content-Length: *
Content-Type: application/x-amz-json-1.1

{"repository":{"createdAt":1700000000,"imageTagMutability":"MUTABLE","registryId":"111122223333","repositoryArn":"arn:aws:ecr:us-east-1:111122223333:repository/a1","repositoryName":"a1","repositoryUri":"111122223333.dkr.ecr.us-east-1.amazonaws.com/a1"}}
----
HTTP/1.1 400 Bad Request
Content-Length: *
Content-Type: application/x-amz-json-1.1

{"__type":"RepositoryNotFoundException","message":"repository not found"}"#;

// Those of worker 2, which begins then.
const SECOND: &str = r#"POST / HTTP/1.1
Host: localhost
Content-Length: *
X-Amz-Target: AmazonEC2ContainerRegistry_V20150921.PutImageTagMutability

{"repositoryName":"a1","imageTagMutability":"IMMUTABLE"}
====
HTTP/1.1 200 OK
Content-Length: *
Content-Type: application/x-amz-json-1.1

{"imageTagMutability":"IMMUTABLE","registryId":"111122223333","repositoryName":"a1"}"#;

// Those of another session of worker 1, after both.
const LAST: &str = r#"POST / HTTP/1.1
Host: localhost
Content-Length: *
X-Amz-Target: AmazonEC2ContainerRegistry_V20150921.DescribeRepositories

{"repositoryNames":["a1"]}
====
HTTP/1.1 200 OK
Content-Length: *
Content-Type: application/x-amz-json-1.1

{"repositories":[{"createdAt":1700000000,"imageTagMutability":"IMMUTABLE","registryId":"111122223333","repositoryArn":"arn:aws:ecr:us-east-1:111122223333:repository/a1","repositoryName":"a1","repositoryUri":"111122223333.dkr.ecr.us-east-1.amazonaws.com/a1"}]}"#;

// The requests of a text.
fn asked(alloc: Global, text: &str) -> Result<Vec<u8>, Mem> {
    let (requests, _replies) = text.split_once("\n====\n").unwrap_or((text, ""));
    messages(alloc, requests)
}

// The replies of a text.
fn expected(alloc: Global, text: &str) -> Result<Vec<u8>, Mem> {
    let (_requests, replies) = text.split_once("\n====\n").unwrap_or((text, ""));
    messages(alloc, replies)
}

// A desk with one site, and the first pass to it.
fn opened(alloc: Global) -> Result<(SharedDesk, DeskPass), Mem>
    ensures of { IfOk result (λ r. IsOf (shared_of r.0) (pass_of r.1)) }
    ensures some { IfOk result (λ r. 0 < length (shared_of r.0).realm.served) }
{
    let mut sites = Vec::new(alloc);
    sites.push(SiteId {
        region: SharedText::copy_of(alloc, b"us-east-1")?,
        account: SharedText::copy_of(alloc, b"111122223333")?,
    })?;
    SharedDesk::new(alloc, sites, Limits::standard())
}

// What a session wrote, and where its requests were decided, in words.
#[derive(Drop)]
struct Heard {
    output: Vec<u8>,
    places: String,
    end: End,
}

fn in_words(alloc: Global, place: &Place) -> Result<String, Mem> {
    let change = if place.changed { "+" } else { "" };
    let ticket = place.ticket;
    match &place.cell {
        CellKey::Directory(_) => format!(in alloc; " {ticket}{change}"),
        CellKey::Repository(key) => {
            let name = str::from_utf8(key.name.text.as_bytes()).unwrap_or("");
            format!(in alloc; " {name} {ticket}{change}")
        }
    }
}

// The places of requests, in words, a comma behind each request.
fn all_in_words(alloc: Global, requests: &[Vec<Place>]) -> Result<String, Mem> {
    let mut words = String::new(alloc);
    for places in requests {
        for place in places {
            words.push_str(in_words(alloc, place)?.as_str())?;
        }
        words.push_str(",")?;
    }
    Ok(words)
}

// A session with that input.
fn served<R: Wait, D: Desk>(
    rt: &R,
    alloc: Global,
    desk: &D,
    pass: D::Pass,
    worker: u32,
    input: Vec<u8>,
    gate: &HoldGate,
) -> (D::Pass, Result<Heard, Mem>)
    requires of { IsOf (D.shared desk.now) (D.Pass.seen pass) }
    requires some { 0 < length (D.shared desk.now).realm.served }
    ensures of { IsOf (D.shared desk.now) (D.Pass.seen result.0) }
{
    let mut source = MemSource::new(input, Vec::new(alloc), Vec::new(alloc));
    let mut sink = MemSink::new(alloc, Vec::new(alloc), Vec::new(alloc));
    let mut clock = MemClock::new(Vec::new(alloc));
    let mode = Mode {
        control: false,
        fixed: Some(1_700_000_000),
    };
    let ended = serve_session(
        rt,
        alloc,
        desk,
        pass,
        mode,
        worker,
        &mut source,
        &mut sink,
        &mut clock,
        gate,
    );
    let SessionEnd {
        pass,
        moments: _moments,
        places,
        cuts: _cuts,
        end,
    } = ended;
    let heard = as_heard(alloc, sink.held(), &places, end);
    (pass, heard)
}

fn as_heard(alloc: Global, held: &[u8], places: &[Vec<Place>], end: End) -> Result<Heard, Mem> {
    Ok(Heard {
        output: Vec::from_slice(alloc, held)?,
        places: all_in_words(alloc, places)?,
        end,
    })
}

// A session that begins once another worker is at the gate.
fn served_then<R: Wait, D: Desk>(
    rt: &R,
    alloc: Global,
    desk: &D,
    pass: D::Pass,
    input: Vec<u8>,
    gate: &HoldGate,
) -> (D::Pass, Result<Heard, Mem>)
    requires of { IsOf (D.shared desk.now) (D.Pass.seen pass) }
    requires some { 0 < length (D.shared desk.now).realm.served }
    ensures of { IsOf (D.shared desk.now) (D.Pass.seen result.0) }
{
    for _ in 0..TURNS {
        if gate.reached() {
            break;
        }
        thread::yield_now();
    }
    served(rt, alloc, desk, pass, 2, input, gate)
}

// Both at once, each in a thread.
fn both<R: Threads + Wait + Sync, D: Desk + Sync>(
    rt: &R,
    alloc: Global,
    desk: &D,
    passes: (D::Pass, D::Pass),
    inputs: (Vec<u8>, Vec<u8>),
    gate: &HoldGate,
) -> ((D::Pass, Result<Heard, Mem>), (D::Pass, Result<Heard, Mem>))
where
    D::Pass: Send + Drop,
    requires first { IsOf (D.shared desk.now) (D.Pass.seen passes.0) }
    requires second { IsOf (D.shared desk.now) (D.Pass.seen passes.1) }
    requires some { 0 < length (D.shared desk.now).realm.served }
    ensures first { IsOf (D.shared desk.now) (D.Pass.seen result.0.0) }
    ensures second { IsOf (D.shared desk.now) (D.Pass.seen result.1.0) }
{
    let (first, second) = passes;
    let (one, other) = inputs;
    thread::join(
        rt,
        move || served(rt, alloc, desk, first, 1, one, gate),
        move || served_then(rt, alloc, desk, second, other, gate),
    )
}

// Both at a shared desk, which may cross threads with its passes.
fn both_shared<R: Threads + Wait + Sync>(
    rt: &R,
    alloc: Global,
    desk: &SharedDesk,
    passes: (DeskPass, DeskPass),
    inputs: (Vec<u8>, Vec<u8>),
    gate: &HoldGate,
) -> (
    (DeskPass, Result<Heard, Mem>),
    (DeskPass, Result<Heard, Mem>),
)
    requires first { IsOf (shared_of desk.now) (pass_of passes.0) }
    requires second { IsOf (shared_of desk.now) (pass_of passes.1) }
    requires some { 0 < length (shared_of desk.now).realm.served }
    ensures first { IsOf (shared_of desk.now) (pass_of result.0.0) }
    ensures second { IsOf (shared_of desk.now) (pass_of result.1.0) }
{
    both(rt, alloc, desk, passes, inputs, gate)
}

#[test]
fn two_sessions_at_one_desk_see_each_other(rt: HostRuntime) -> Result<(), Fail> {
    let alloc = rt.alloc();
    let (desk, mut first) = opened(alloc)?;
    let second = desk.split(&rt, alloc, &mut first)?;
    let gate = HoldGate::new(1, Stage::Answered, Stage::Answered, TURNS);
    let inputs = (asked(alloc, FIRST)?, asked(alloc, SECOND)?);
    let (one, other) = both_shared(&rt, alloc, &desk, (first, second), inputs, &gate);
    let (first, told) = one;
    let told = told?;
    let others = other.1?;
    assert!(rt; told.output.as_slice() == expected(alloc, FIRST)?.as_slice());
    assert!(rt; others.output.as_slice() == expected(alloc, SECOND)?.as_slice());
    assert_eq!(rt; told.places.as_str(), " 0+ a1 0+, 2 a1 2 3,");
    assert_eq!(rt; others.places.as_str(), " 1 a1 1+,");
    assert!(rt; told.end == End::Whole && others.end == End::Whole);
    assert!(rt; gate.reached() && !gate.spent());
    let (_first, told) = served(&rt, alloc, &desk, first, 1, asked(alloc, LAST)?, &gate);
    let told = told?;
    assert!(rt; told.output.as_slice() == expected(alloc, LAST)?.as_slice());
    assert_eq!(rt; told.places.as_str(), " 4 a1 3,");
    Ok(())
}

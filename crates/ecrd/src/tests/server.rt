// Servers over links in memory.
ghost use Rattle.std.specs.Prelude.{None};

use crate::tests::harness::{messages, words};
use ecr_model::{End, Mem, Moment};
use ecr_outside::{
    Clock, Clocks, Gate, HoldGate, MemAccept, MemSink, MemSource, OpenGate, SharedSink, Stage,
};
use ecr_serve::{Ended, serve};
use std::alloc::Global;
use std::collections::VecDeque;
use std::sync::Wait;
use std::test::Fail;
use std::thread::Threads;

/// How often a worker waits for another.
const TURNS: u64 = 1_000_000;

const ADDRESS: &str = "127.0.0.1:5000";

const SITE: &str = "us-east-1/111122223333";

const USAGE: &[u8] =
    b"usage: ecrd session [--control] [--clock S] SITE...\n       ecrd bulk SEED COUNT\n       ecrd serve [--workers N] [--copiers N] ADDRESS SITE...\n";

// A clock that stands still.
#[derive(Clone, Copy)]
struct Still;

impl Clock for Still {
    ghost told = { λ _. None };

    fn now(&mut self) -> Moment {
        1_700_000_000
    }
}

impl Clocks for Still {
    type One = Still;

    fn one(&self, _worker: u32) -> Still {
        Still
    }
}

// A server with those links: how it ended, and what it wrote.
fn run<R: Threads + Wait + Sync, G: Gate + Sync>(
    rt: &R,
    alloc: Global,
    texts: &[&str],
    links: VecDeque<(MemSource, SharedSink)>,
    fails: &[u64],
    gate: &G,
) -> Result<(Ended, Vec<u8>), Mem> {
    let mut accept = MemAccept::new(alloc, links, Vec::from_slice(alloc, fails)?);
    let mut sink = MemSink::new(alloc, Vec::new(alloc), Vec::new(alloc));
    let words = words(alloc, texts)?;
    let ended = serve(rt, alloc, &words, &mut accept, &mut sink, &Still, gate);
    let held = Vec::from_slice(alloc, sink.held())?;
    Ok((ended, held))
}

// pins: IsServer, IsNoServer, RunsServer, SaysReady, IsCaused, Opens, is_ready, GoesOn, ends_links, option_rule
// pins: address_rule, sites_rule, serve_app, IsCount, AreSiteTexts, AreTexts, AreSites, front_with, IsNotRun, sink_of
#[test]
fn words_are_a_servers_or_none(rt: HostRuntime) -> Result<(), Fail> {
    let alloc = rt.alloc();
    let cases: [(&[&str], &[u64], End, &[u8]); 22] = [
        (&["serve", ADDRESS, SITE], &[], End::Whole, b"ready\n"),
        (&["serve", ADDRESS, SITE], &[0], End::AcceptFault, b""),
        (
            &["serve", ADDRESS, SITE],
            &[1],
            End::AcceptFault,
            b"ready\n",
        ),
        (
            &["serve", ADDRESS, SITE, "eu-west-1/111122223333"],
            &[],
            End::Whole,
            b"ready\n",
        ),
        (
            &["serve", "--workers", "64", ADDRESS, SITE],
            &[],
            End::Whole,
            b"ready\n",
        ),
        (
            &["serve", "--workers=1", "--copiers=16", ADDRESS, SITE],
            &[],
            End::Whole,
            b"ready\n",
        ),
        (
            &["serve", ADDRESS, "--copiers", "1", SITE],
            &[],
            End::Whole,
            b"ready\n",
        ),
        (
            &["serve", "--workers", "0", ADDRESS, SITE],
            &[],
            End::Usage,
            USAGE,
        ),
        (
            &["serve", "--workers", "65", ADDRESS, SITE],
            &[],
            End::Usage,
            USAGE,
        ),
        (
            &["serve", "--workers", "04", ADDRESS, SITE],
            &[],
            End::Usage,
            USAGE,
        ),
        (
            &["serve", "--workers", "x", ADDRESS, SITE],
            &[],
            End::Usage,
            USAGE,
        ),
        (
            &["serve", "--workers", "", ADDRESS, SITE],
            &[],
            End::Usage,
            USAGE,
        ),
        (
            &["serve", "--copiers", "0", ADDRESS, SITE],
            &[],
            End::Usage,
            USAGE,
        ),
        (
            &["serve", "--copiers", "17", ADDRESS, SITE],
            &[],
            End::Usage,
            USAGE,
        ),
        (
            &["serve", "--workers", "2", "--workers", "2", ADDRESS, SITE],
            &[],
            End::Usage,
            USAGE,
        ),
        (
            &["serve", "--clock", "5", ADDRESS, SITE],
            &[],
            End::Usage,
            USAGE,
        ),
        (&["serve", ADDRESS], &[], End::Usage, USAGE),
        (&["serve"], &[], End::Usage, USAGE),
        (&["serve", ADDRESS, SITE, SITE], &[], End::Usage, USAGE),
        (&["serve", ADDRESS, "us-east-1/1"], &[], End::Usage, USAGE),
        (&["serve", "--help"], &[], End::Usage, USAGE),
        (&["session", SITE], &[], End::Usage, USAGE),
    ];
    for (number, (texts, fails, end, output)) in cases.iter().enumerate() {
        let links = VecDeque::new(alloc);
        let (ended, held) = run(&rt, alloc, texts, links, fails, &OpenGate)?;
        assert_eq!(rt; ended.end, *end, "{number}");
        assert!(rt; held.as_slice() == *output, "{number}");
        assert!(rt; ended.cuts.is_empty(), "{number}");
    }
    Ok(())
}

// pins: WritesInPart
#[test]
fn a_server_that_cant_say_that_it_is_ready_ends(rt: HostRuntime) -> Result<(), Fail> {
    let alloc = rt.alloc();
    let mut accept = MemAccept::new(alloc, VecDeque::new(alloc), Vec::new(alloc));
    // Its second write fails, and the first one takes two bytes.
    let mut sink = MemSink::new(alloc, vec![in alloc; 2]?, vec![in alloc; 1]?);
    let words = words(alloc, &["serve", ADDRESS, SITE])?;
    let ended = serve(
        &rt,
        alloc,
        &words,
        &mut accept,
        &mut sink,
        &Still,
        &OpenGate,
    );
    assert_eq!(rt; ended.status, 4);
    assert!(rt; sink.held() == b"re".as_slice());
    Ok(())
}

// A link that sends those requests, and where its replies can be read.
fn link_of(
    alloc: Global,
    links: &mut VecDeque<(MemSource, SharedSink)>,
    requests: &str,
) -> Result<SharedSink, Mem> {
    let sink = SharedSink::new(alloc)?;
    let kept = sink.share()?;
    let input = messages(alloc, requests)?;
    let source = MemSource::new(input, Vec::new(alloc), Vec::new(alloc));
    links.push_back((source, sink))?;
    Ok(kept)
}

fn creation(alloc: Global, name: &str) -> Result<String, Mem> {
    format!(in alloc;
        "POST / HTTP/1.1\nHost: localhost\nContent-Length: *\nX-Amz-Target: AmazonEC2ContainerRegistry_V20150921.CreateRepository\n\n{{\"repositoryName\":\"{name}\"}}"
    )
}

// So many links, each of which creates a repository of its own.
fn creations(
    alloc: Global,
    links: &mut VecDeque<(MemSource, SharedSink)>,
    count: u32,
) -> Result<Vec<SharedSink>, Mem> {
    let mut kept = Vec::new(alloc);
    for number in 0..count {
        let name = format!(in alloc; "n{number}")?;
        let request = creation(alloc, name.as_str())?;
        kept.push(link_of(alloc, links, request.as_str())?)?;
    }
    Ok(kept)
}

#[test]
fn every_link_is_served(rt: HostRuntime) -> Result<(), Fail> {
    let alloc = rt.alloc();
    let mut links = VecDeque::new(alloc);
    let kept = creations(alloc, &mut links, 70)?;
    let texts = ["serve", "--workers", "2", ADDRESS, SITE];
    let (ended, held) = run(&rt, alloc, &texts, links, &[], &OpenGate)?;
    assert_eq!(rt; ended.status, 0);
    assert!(rt; held.as_slice() == b"ready\n".as_slice());
    for sink in &kept {
        assert!(rt;
            sink.held(&rt)?
                .as_slice()
                .starts_with(b"HTTP/1.1 200 OK\r\n")
        );
    }
    Ok(())
}

#[test]
fn links_are_served_beside_each_other(rt: HostRuntime) -> Result<(), Fail> {
    let alloc = rt.alloc();
    let mut links = VecDeque::new(alloc);
    let kept = creations(alloc, &mut links, 2)?;
    // Whichever worker is the first waits in its call until the other has answered.
    let gate = HoldGate::new(1, Stage::InCall, Stage::Answered, TURNS);
    let texts = ["serve", "--workers", "2", ADDRESS, SITE];
    let (ended, _held) = run(&rt, alloc, &texts, links, &[], &gate)?;
    assert_eq!(rt; ended.status, 0);
    assert!(rt; !gate.spent());
    for sink in &kept {
        assert!(rt;
            sink.held(&rt)?
                .as_slice()
                .starts_with(b"HTTP/1.1 200 OK\r\n")
        );
    }
    Ok(())
}

// Whole sessions beyond one input to a fresh registry: one after another on a desk, and with a client that waits.
ghost use Rattle.std.specs.Prelude.{◌≡◌, ◌<◌, length, None, Some};
ghost use Rattle.ecr_cells.specs.Desks.{still_state_of};

use crate::tests::harness::{
    BODY, CONTINUE, CREATE, FIELDS, LENGTH, MADE_BODY, MADE_HEAD, POST, Parts, THERE, WORDS,
    check_text, joined, words,
};
use ecr_cells::SoloDesk;
use ecr_model::{CellKey, Cut, End, Limits, Place, SharedText, SiteId};
use ecr_outside::{Got, MemClock, MemSink, MemSource, Sink, Source, Took};
use ecr_serve::solo;
use ecr_session::{Mode, SessionEnd, session_still};
use std::alloc::{AllocError, Global};
use std::cell::Cell;
use std::process::Abort;
use std::test::Fail;

const ABSENT: &str = r#"
POST / HTTP/1.1
Host: localhost
X-Amz-Target: AmazonEC2ContainerRegistry_V20150921.PutImageTagMutability
Content-Length: *

{"repositoryName":"team/app","imageTagMutability":"IMMUTABLE"}
====
HTTP/1.1 400 Bad Request
Content-Length: *
Content-Type: application/x-amz-json-1.1

{"__type":"RepositoryNotFoundException","message":"repository not found"}
"#;

#[test]
fn an_absent_repository_has_no_mutability(rt: HostRuntime) -> Result<(), Fail> {
    check_text(&rt, rt.alloc(), "absent", ABSENT, End::Whole)?;
    Ok(())
}

// Of a place: whether its cell is the site's directory, its ticket, and whether an entry was added.
type At = (bool, u64, bool);

fn at(place: &Place) -> At {
    (
        matches!(place.cell, CellKey::Directory(_)),
        place.ticket,
        place.changed,
    )
}

// The account of a session has one item for each request: so many entries, and turns at these places.
fn check_account(rt: &impl Abort, ended: &SessionEnd<()>, requests: &[(u64, &[At])]) {
    assert_eq!(rt; ended.cuts.len(), requests.len());
    assert_eq!(rt; ended.places.len(), requests.len());
    assert_eq!(rt; ended.moments.len(), requests.len());
    for (number, (entries, places)) in requests.iter().enumerate() {
        let cut = Cut {
            entries: *entries,
            failed: false,
            sealed: None,
        };
        assert_eq!(rt; ended.cuts[number], cut, "{number}");
        assert_eq!(rt; ended.moments[number], 1_700_000_000, "{number}");
        assert_eq!(rt; ended.places[number].len(), places.len(), "{number}");
        for (place, want) in ended.places[number].iter().zip(places.iter()) {
            assert_eq!(rt; at(place), *want, "{number}");
        }
    }
}

// A session at that desk gives that output and that account.
fn serve(
    rt: &impl Abort,
    alloc: Global,
    desk: &mut SoloDesk,
    input: &[u8],
    output: &[u8],
    requests: &[(u64, &[At])],
) -> Result<(), AllocError>
    requires { 0 < length (still_state_of desk.old).realm.served }
    ensures { (still_state_of desk.new).realm ≡ (still_state_of desk.old).realm }
{
    let bytes = Vec::from_slice(alloc, input)?;
    let mut source = MemSource::new(bytes, Vec::new(alloc), Vec::new(alloc));
    let mut sink = MemSink::new(alloc, Vec::new(alloc), Vec::new(alloc));
    let mut clock = MemClock::new(Vec::new(alloc));
    let mode = Mode {
        control: false,
        fixed: Some(1_700_000_000),
    };
    let ended = session_still(alloc, desk, mode, &mut source, &mut sink, &mut clock);
    assert!(rt; sink.held() == output);
    assert!(rt; ended.end == End::Whole);
    check_account(rt, &ended, requests);
    Ok(())
}

// A turn in the directory, and then one in the repository.
const NEW: &[At] = &[(true, 0, true), (false, 0, true)];

const KNOWN: &[At] = &[(true, 1, false), (false, 1, false)];

const CHANGED: &[At] = &[(true, 1, false), (false, 1, true)];

const AGAIN: &[At] = &[(true, 1, false), (false, 2, true)];

const DELETION: &str =
    "POST / HTTP/1.1\r\nHost: localhost\r\nContent-Length: 29\r\nX-Amz-Target: AmazonEC2ContainerRegistry_V20150921.DeleteRepository\r\n\r\n{\"repositoryName\":\"team/app\"}";

// pins: Counts, IsPlaced, IsServed, Chain, ServicedBy, Serves, ServesBy, Serviced, Completed, entries_in
#[test]
fn a_session_finds_what_the_one_before_it_left(rt: HostRuntime) -> Result<(), Fail> {
    let alloc = rt.alloc();
    let site = SiteId {
        region: SharedText::copy_of(alloc, b"us-east-1")?,
        account: SharedText::copy_of(alloc, b"111122223333")?,
    };
    let mut desk = SoloDesk::new(alloc, vec![in alloc; site]?, Limits::standard())?;
    let made = joined(alloc, &[(MADE_HEAD, 1), (MADE_BODY, 1)])?;
    serve(&rt, alloc, &mut desk, CREATE.as_bytes(), &made, &[(2, NEW)])?;
    let input = joined(alloc, &[(CREATE, 2), (DELETION, 1), (CREATE, 1)])?;
    let output = joined(
        alloc,
        &[
            (THERE, 2),
            (MADE_HEAD, 1),
            (MADE_BODY, 1),
            (MADE_HEAD, 1),
            (MADE_BODY, 1),
        ],
    )?;
    serve(
        &rt,
        alloc,
        &mut desk,
        &input,
        &output,
        &[(0, KNOWN), (0, KNOWN), (1, CHANGED), (1, AGAIN)],
    )?;
    Ok(())
}

// A client that sends its next piece once so many bytes were written, and else ends.
#[derive(Drop)]
struct Client<'a> {
    pieces: MemSource,
    needs: &'a [usize],
    at: usize,
    written: &'a Cell<usize>,
}

impl Source for Client<'_> {
    ghost left = { λ _. None };

    ghost faults = { λ c. c.pieces.faults };

    fn read(&mut self, buf: &mut [u8]) -> Got {
        if self.at < self.needs.len() && self.written.get() < self.needs[self.at] {
            return Got::End;
        }
        self.at = self.at.saturating_add(1);
        self.pieces.read(buf)
    }
}

// A sink that says how many bytes it holds.
#[derive(Drop)]
struct Counted<'a> {
    sink: MemSink,
    written: &'a Cell<usize>,
}

impl Sink for Counted<'_> {
    ghost held = { λ c. Some c.sink.held };

    ghost faults = { λ c. c.sink.faults };

    fn write(&mut self, piece: &[u8]) -> Took {
        let took = self.sink.write(piece);
        self.written.set(self.sink.held().len());
        took
    }
}

// A client that waits for the 100 before it sends a body, and for the reply before it asks again, so many bytes each,
// is given that output.
fn check_waits(
    rt: &impl Abort,
    alloc: Global,
    needs: &[usize],
    output: Parts,
    end: End,
) -> Result<(), AllocError> {
    let head = joined(
        alloc,
        &[
            (POST, 1),
            (FIELDS, 1),
            ("Expect: 100-continue\r\n", 1),
            (LENGTH, 1),
        ],
    )?;
    let sizes = vec![in alloc; head.len(), BODY.len(), CREATE.len()]?;
    let mut input = head;
    input.extend_from_slice(BODY.as_bytes())?;
    input.extend_from_slice(CREATE.as_bytes())?;
    let written = Cell::new(0);
    let mut client = Client {
        pieces: MemSource::new(input, sizes, Vec::new(alloc)),
        needs,
        at: 0,
        written: &written,
    };
    let mut sink = Counted {
        sink: MemSink::new(alloc, Vec::new(alloc), Vec::new(alloc)),
        written: &written,
    };
    let mut clock = MemClock::new(Vec::new(alloc));
    let words = words(alloc, &WORDS)?;
    let ended = solo(alloc, &words, &mut client, &mut sink, &mut clock);
    let output = joined(alloc, output)?;
    assert!(rt; sink.sink.held() == output.as_slice());
    assert!(rt; ended.end == end);
    Ok(())
}

#[test]
fn each_answer_is_written_before_more_is_read(rt: HostRuntime) -> Result<(), Fail> {
    let told = CONTINUE.len();
    let replied = told + MADE_HEAD.len() + MADE_BODY.len();
    let cases: [([usize; 3], Parts, End); 3] = [
        (
            [0, told, replied],
            &[(CONTINUE, 1), (MADE_HEAD, 1), (MADE_BODY, 1), (THERE, 1)],
            End::Whole,
        ),
        // A client that waits for one byte more than is written ends where it waits.
        (
            [0, told + 1, replied],
            &[(CONTINUE, 1)],
            End::Truncated { at: 0 },
        ),
        (
            [0, told, replied + 1],
            &[(CONTINUE, 1), (MADE_HEAD, 1), (MADE_BODY, 1)],
            End::Whole,
        ),
    ];
    for (needs, output, end) in cases {
        check_waits(&rt, rt.alloc(), &needs, output, end)?;
    }
    Ok(())
}

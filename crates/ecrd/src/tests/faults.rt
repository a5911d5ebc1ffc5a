// Sessions whose source or sink fails: what was written before, and how they end. The real ones are among them.
use crate::tests::harness::{
    BAD, BODY, CONTINUE, CREATE, FIELDS, LENGTH, MADE_BODY, MADE_HEAD, POST, Parts, THERE, WORDS,
    joined, words,
};
use ecr_model::End;
use ecr_outside::{MemClock, MemSink, MemSource, RealSink, RealSource};
use ecr_serve::solo;
use std::alloc::{AllocError, Global};
use std::io;
use std::io::{ErrorKind, Read, Write};
use std::process::Abort;
use std::test::Fail;

// An input; the sizes of the reads and the writes, and the numbers of those that fail; the bytes that are written, and
// the end with its status.
struct Case {
    input: Parts,
    reads: (&'static [usize], &'static [u64]),
    writes: (&'static [usize], &'static [u64]),
    output: Parts,
    end: End,
    status: u8,
}

const WAITS: Parts = &[
    (POST, 1),
    (FIELDS, 1),
    ("Expect: 100-continue\r\n", 1),
    (LENGTH, 1),
    (BODY, 1),
];

fn check_fault(
    rt: &impl Abort,
    alloc: Global,
    number: usize,
    case: &Case,
) -> Result<(), AllocError> {
    let (sizes, fails) = case.reads;
    let mut source = MemSource::new(
        joined(alloc, case.input)?,
        Vec::from_slice(alloc, sizes)?,
        Vec::from_slice(alloc, fails)?,
    );
    let (sizes, fails) = case.writes;
    let mut sink = MemSink::new(
        alloc,
        Vec::from_slice(alloc, sizes)?,
        Vec::from_slice(alloc, fails)?,
    );
    let mut clock = MemClock::new(Vec::new(alloc));
    let words = words(alloc, &WORDS)?;
    let ended = solo(alloc, &words, &mut source, &mut sink, &mut clock);
    let output = joined(alloc, case.output)?;
    assert!(rt; sink.held() == output.as_slice(), "case {number}");
    assert_eq!(rt; ended.end, case.end, "case {number}");
    assert_eq!(rt; ended.status, case.status, "case {number}");
    Ok(())
}

const READS: [Case; 2] = [
    Case {
        input: &[(CREATE, 1)],
        reads: (&[], &[0]),
        writes: (&[], &[]),
        output: &[],
        end: End::ReadFault,
        status: 3,
    },
    // The first request was read whole by two reads.
    Case {
        input: &[(CREATE, 2)],
        reads: (&[100, 54], &[2]),
        writes: (&[], &[]),
        output: &[(MADE_HEAD, 1), (MADE_BODY, 1)],
        end: End::ReadFault,
        status: 3,
    },
];

const WRITES: [Case; 5] = [
    Case {
        input: &[(CREATE, 2)],
        reads: (&[], &[]),
        writes: (&[], &[0]),
        output: &[],
        end: End::WriteFault,
        status: 4,
    },
    // A reply takes as many writes as it needs, and the first part of it stays.
    Case {
        input: &[(CREATE, 2)],
        reads: (&[], &[]),
        writes: (&[17], &[1]),
        output: &[("HTTP/1.1 200 OK\r\n", 1)],
        end: End::WriteFault,
        status: 4,
    },
    // The 100 fails, and the request isn't answered.
    Case {
        input: WAITS,
        reads: (&[], &[]),
        writes: (&[8], &[1]),
        output: &[("HTTP/1.1", 1)],
        end: End::WriteFault,
        status: 4,
    },
    Case {
        input: WAITS,
        reads: (&[], &[]),
        writes: (&[25, 17], &[2]),
        output: &[(CONTINUE, 1), ("HTTP/1.1 200 OK\r\n", 1)],
        end: End::WriteFault,
        status: 4,
    },
    // The reply to what is no request fails.
    Case {
        input: &[("GET\r\n\r\n", 1)],
        reads: (&[], &[]),
        writes: (&[26], &[1]),
        output: &[("HTTP/1.1 400 Bad Request\r\n", 1)],
        end: End::WriteFault,
        status: 4,
    },
];

// pins: CutOffBy, IsLast, CompletedBy, Sends, Ends
#[test]
fn a_fault_ends_a_session(rt: HostRuntime) -> Result<(), Fail> {
    for (number, case) in READS.iter().chain(WRITES.iter()).enumerate() {
        check_fault(&rt, rt.alloc(), number, case)?;
    }
    Ok(())
}

// A reader of bytes one by one, of which each call but the second of two is interrupted; at the end it fails or has
// ended.
#[derive(Drop)]
struct Slow<'a> {
    bytes: &'a [u8],
    at: usize,
    ready: bool,
    fails: bool,
}

impl Read for Slow<'_> {
    fn read(&mut self, buf: &mut [u8]) -> io::Result<usize> {
        self.ready = !self.ready;
        if !self.ready {
            return Err(ErrorKind::Interrupted.into());
        }
        let (Some(first), Some(byte)) = (buf.first_mut(), self.bytes.get(self.at)) else {
            if self.fails {
                return Err(ErrorKind::ConnectionReset.into());
            }
            return Ok(0);
        };
        *first = *byte;
        self.at = self.at.saturating_add(1);
        Ok(1)
    }
}

// A writer that takes at most two bytes at a time, after a call that is interrupted, and has room for so many in all.
#[derive(Drop)]
struct Narrow {
    held: Vec<u8>,
    room: usize,
    ready: bool,
}

impl Write for Narrow {
    fn write(&mut self, piece: &[u8]) -> io::Result<usize> {
        self.ready = !self.ready;
        if !self.ready {
            return Err(ErrorKind::Interrupted.into());
        }
        let size = piece.len().min(2).min(self.room);
        self.held.extend_from_slice(&piece[..size])?;
        self.room = self.room.saturating_sub(size);
        Ok(size)
    }

    fn flush(&mut self) -> io::Result<()> {
        Ok(())
    }
}

// Two creations, over a real source that fails at its end or doesn't and a real sink of that room, end so and write the
// first bytes of both replies.
fn check_real(
    rt: &impl Abort,
    alloc: Global,
    fails: bool,
    room: usize,
    end: End,
) -> Result<(), AllocError> {
    let input = joined(alloc, &[(CREATE, 2)])?;
    let output = joined(alloc, &[(MADE_HEAD, 1), (MADE_BODY, 1), (THERE, 1)])?;
    let mut source = RealSource::new(Slow {
        bytes: &input,
        at: 0,
        ready: true,
        fails,
    });
    let mut narrow = Narrow {
        held: Vec::new(alloc),
        room,
        ready: true,
    };
    let mut sink = RealSink::new(&mut narrow);
    let mut clock = MemClock::new(Vec::new(alloc));
    let words = words(alloc, &WORDS)?;
    let ended = solo(alloc, &words, &mut source, &mut sink, &mut clock);
    drop(sink);
    assert_eq!(rt; ended.end, end, "{room}");
    assert!(rt;
        narrow.held.as_slice() == &output[..room.min(output.len())],
        "{room}"
    );
    Ok(())
}

#[test]
fn a_slow_reader_and_a_narrow_writer_serve_a_session(rt: HostRuntime) -> Result<(), Fail> {
    check_real(&rt, rt.alloc(), false, 10_000, End::Whole)?;
    check_real(&rt, rt.alloc(), true, 10_000, End::ReadFault)?;
    check_real(&rt, rt.alloc(), false, 100, End::WriteFault)?;
    check_real(&rt, rt.alloc(), false, 0, End::WriteFault)?;
    Ok(())
}

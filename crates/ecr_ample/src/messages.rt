// Requests as they are read, and replies without a body.
ghost use Rattle.std.specs.Prelude.{◌≡◌, false, IfOk};

use crate::fixtures::{MEBIBYTE, filled};
use ecr_http::{Event, Reader, write_empty};
use ecr_model::{Mem, Section};
use ecr_outside::{MemSink, MemSource};
use std::alloc::Global;
use std::process::Abort;
use std::test::Fail;

/// The longest body of a call, in bytes.
const MOST: usize = 33_554_432;

/// A reader that has read nothing.
fn opened(alloc: Global) -> Result<Reader, Mem>
    ensures { IfOk result (λ r. r.closed ≡ false) }
{
    Reader::new(alloc)
}

/// What comes first of those bytes, in pieces of at most that size.
fn first_of(alloc: Global, bytes: &[u8], size: usize) -> Result<Event, Mem> {
    let mut reader = opened(alloc)?;
    let sizes = vec![in alloc; size]?;
    let mut source = MemSource::new(Vec::from_slice(alloc, bytes)?, sizes, Vec::new(alloc));
    let mut sink = MemSink::new(alloc, Vec::new(alloc), Vec::new(alloc));
    Ok(reader.next(alloc, &mut source, &mut sink))
}

/// An event in words, and the length of a request's body.
fn told(event: &Event) -> (&'static str, usize) {
    match event {
        Event::Request(request) => ("a request", request.body.as_bytes().len()),
        Event::End => ("the end", 0),
        Event::Truncated(_) => ("a part", 0),
        Event::Bad(_) => ("no request", 0),
        Event::TooLong {
            section: Section::Body,
            ..
        } => ("a long body", 0),
        Event::TooLong { .. } => ("a long head", 0),
        Event::ReadFault | Event::WriteFault | Event::Spent => ("a fault", 0),
        Event::Mem => ("no memory", 0),
    }
}

/// What comes first of the bytes is that, however they are cut.
fn check(
    rt: &impl Abort,
    alloc: Global,
    bytes: &[u8],
    pieces: &[usize],
    found: (&'static str, usize),
) -> Result<(), Mem> {
    for piece in pieces {
        let event = first_of(alloc, bytes, *piece)?;
        let size = bytes.len();
        assert_eq!(rt; told(&event), found, "{size} bytes in pieces of {piece}");
    }
    Ok(())
}

#[test]
fn messages_are_requests_or_none(rt: HostRuntime) -> Result<(), Fail> {
    let alloc = rt.alloc();
    for (text, found) in [
        ("", ("the end", 0)),
        ("\r\n", ("the end", 0)),
        ("GET / HTTP/1.0\r\n", ("a part", 0)),
        ("GET\r\n\r\n", ("no request", 0)),
        ("\u{0}\r\n\r\n", ("no request", 0)),
        ("GET / HTTP/2.0\r\n\r\n", ("no request", 0)),
        ("GET / HTTP/1.0\r\nA b: c\r\n\r\n", ("no request", 0)),
        ("GET / HTTP/1.0\r\n: c\r\n\r\n", ("no request", 0)),
        (
            "GET / HTTP/1.0\r\nContent-Length: x\r\n\r\n",
            ("no request", 0),
        ),
        (
            "GET / HTTP/1.0\r\nContent-Length: 1, 2\r\n\r\n",
            ("no request", 0),
        ),
        (
            "GET / HTTP/1.0\r\nTransfer-Encoding: gzip\r\n\r\n",
            ("no request", 0),
        ),
        (
            "GET / HTTP/1.0\r\nTransfer-Encoding: chunked\r\n\r\nx\r\n",
            ("no request", 0),
        ),
        (
            "GET / HTTP/1.0\r\nTransfer-Encoding: chunked\r\n\r\n1\r\nabc",
            ("no request", 0),
        ),
        ("GET / HTTP/1.0\r\n\r\n", ("a request", 0)),
        (
            "GET / HTTP/1.0\r\nContent-Length: 3\r\n\r\nabc",
            ("a request", 3),
        ),
        (
            "GET / HTTP/1.0\r\nContent-Length: 33554433\r\n\r\n",
            ("a long body", 0),
        ),
        (
            "GET / HTTP/1.0\r\nTransfer-Encoding: chunked\r\n\r\n3\r\nabc\r\n0\r\nA: b\r\n\r\n",
            ("a request", 3),
        ),
    ] {
        check(&rt, alloc, text.as_bytes(), &[MEBIBYTE, 1, 7], found)?;
    }
    Ok(())
}

#[test]
fn the_longest_heads_are_read_or_refused(rt: HostRuntime) -> Result<(), Fail> {
    let alloc = rt.alloc();
    for (front, piece, back, size, found) in [
        (
            "GET / HTTP/1.0\r\nA: ",
            "a",
            "\r\n\r\n",
            65_536,
            "a request",
        ),
        (
            "GET / HTTP/1.0\r\nA: ",
            "a",
            "\r\n\r\n",
            65_537,
            "a long head",
        ),
        (
            "GET / HTTP/1.0\r\nA: ",
            "\u{1}",
            "\r\n\r\n",
            65_536,
            "no request",
        ),
        ("GET /", "a", " HTTP/1.0\r\n\r\n", 65_536, "a request"),
        ("GET / HTTP/1.0\r\n", "a:\r\n", "\r\n", 65_534, "a request"),
        (
            "GET / HTTP/1.0\r\n",
            "a:\r\n",
            "b\r\n\r\n",
            65_533,
            "no request",
        ),
        (
            "GET / HTTP/1.0\r\nTransfer-Encoding: chunked\r\n\r\n0\r\nA: ",
            "a",
            "\r\n\r\n",
            65_585,
            "a request",
        ),
    ] {
        let text = filled(alloc, front, piece, back, size)?;
        check(&rt, alloc, text.as_bytes(), &[MEBIBYTE, 7], (found, 0))?;
    }
    Ok(())
}

#[test]
fn the_longest_bodies_are_taken(rt: HostRuntime) -> Result<(), Fail> {
    let alloc = rt.alloc();
    for size in [MEBIBYTE, MOST] {
        let front = format!(in alloc; "POST / HTTP/1.0\r\nContent-Length: {size}\r\n\r\n")?;
        let text = filled(
            alloc,
            front.as_str(),
            "x",
            "",
            front.len().saturating_add(size),
        )?;
        check(
            &rt,
            alloc,
            text.as_bytes(),
            &[MEBIBYTE, 4_093],
            ("a request", size),
        )?;
        let front = format!(in alloc;
            "POST / HTTP/1.0\r\nTransfer-Encoding: chunked\r\n\r\n{size:x}\r\n"
        )?;
        let whole = front.len().saturating_add(size).saturating_add(7);
        let text = filled(alloc, front.as_str(), "x", "\r\n0\r\n\r\n", whole)?;
        check(
            &rt,
            alloc,
            text.as_bytes(),
            &[MEBIBYTE, 4_093],
            ("a request", size),
        )?;
    }
    Ok(())
}

#[test]
fn replies_without_a_body_are_written(rt: HostRuntime) -> Result<(), Fail> {
    for status in [
        "200 OK",
        "404 Not Found",
        "431 Request Header Fields Too Large",
    ] {
        for close in [false, true] {
            assert!(rt; write_empty(rt.alloc(), close, status).is_ok(), "{status}");
        }
    }
    Ok(())
}

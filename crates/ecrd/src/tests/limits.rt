// Sessions at the limits of a head, a chunk's line, the trailers and a body: one byte less, as much, and one byte more.
use crate::tests::harness::{
    BAD, BODY, CHUNKED, FIELDS, LONG_BODY, LONG_HEAD, MADE_BODY, MADE_HEAD, NOT_FOUND, POST, Parts,
    check_in, joined,
};
use ecr_model::End;
use std::alloc::{AllocError, Global};
use std::process::Abort;
use std::test::Fail;

// A text of a size in bytes, filled between its front and its back, and the parts before and behind it.
type Filled = (Parts, &'static str, &'static str, Parts);

const HEAD: Filled = (&[], "GET / HTTP/1.1\r\nHost: x\r\nA: ", "\r\n\r\n", &[]);

const LINE: Filled = (
    &[(POST, 1), (FIELDS, 1), (CHUNKED, 1)],
    "1d;",
    "\r\n",
    &[(BODY, 1), ("\r\n0\r\n\r\n", 1)],
);

const TRAILERS: Filled = (
    &[
        (POST, 1),
        (FIELDS, 1),
        (CHUNKED, 1),
        ("1d\r\n", 1),
        (BODY, 1),
        ("\r\n0\r\n", 1),
    ],
    "A: ",
    "\r\n\r\n",
    &[],
);

const MADE: Parts = &[(MADE_HEAD, 1), (MADE_BODY, 1)];

const LONG: End = End::TooLong {
    at: 0,
    limit: 65_536,
};

fn filled(alloc: Global, text: &Filled, size: usize) -> Result<Vec<u8>, AllocError> {
    let (before, front, back, after) = *text;
    let mut bytes = joined(alloc, before)?;
    bytes.extend_from_slice(front.as_bytes())?;
    for _ in front.len()..size.saturating_sub(back.len()) {
        bytes.push(b'a')?;
    }
    bytes.extend_from_slice(back.as_bytes())?;
    bytes.extend_from_slice(&joined(alloc, after)?)?;
    Ok(bytes)
}

// pins: IsEnd, HasNoEnd, EndsAt, IsFront, Says, IsPart, Comes, IsChunked, Meets, Lacks
#[test]
fn heads_lines_and_trailers_end_at_their_limits(rt: HostRuntime) -> Result<(), Fail> {
    let cases: [(Filled, usize, Parts, End); 9] = [
        (HEAD, 65_535, &[(NOT_FOUND, 1)], End::Whole),
        (HEAD, 65_536, &[(NOT_FOUND, 1)], End::Whole),
        (HEAD, 65_537, &[(LONG_HEAD, 1)], LONG),
        (LINE, 1_023, MADE, End::Whole),
        (LINE, 1_024, MADE, End::Whole),
        (LINE, 1_025, &[(BAD, 1)], End::Bad { at: 0 }),
        (TRAILERS, 65_535, MADE, End::Whole),
        (TRAILERS, 65_536, MADE, End::Whole),
        (TRAILERS, 65_537, &[(LONG_HEAD, 1)], LONG),
    ];
    let alloc = rt.alloc();
    for (number, (text, size, output, end)) in cases.iter().enumerate() {
        let input = filled(alloc, text, *size)?;
        let output = joined(alloc, output)?;
        for piece in [1_000_000, 1, 7] {
            check_in(&rt, alloc, number, &input, &output, *end, piece)?;
        }
    }
    Ok(())
}

// The greatest size of a body, in bytes.
const MOST: u64 = 33_554_432;

// A body that is said to have that size, of which nothing or its first chunk comes, ends the session like that.
fn check_stated(
    rt: &impl Abort,
    alloc: Global,
    size: u64,
    output: &str,
    end: End,
) -> Result<(), AllocError> {
    let rest = size.saturating_sub(BODY.len() as u64);
    let inputs = [
        format!(in alloc; "{POST}{FIELDS}Content-Length: {size}\r\n\r\n")?,
        format!(in alloc; "{POST}{FIELDS}{CHUNKED}{size:x}\r\n")?,
        format!(in alloc; "{POST}{FIELDS}{CHUNKED}1d\r\n{BODY}\r\n{rest:x}\r\n")?,
    ];
    for (number, input) in inputs.iter().enumerate() {
        for piece in [1_000_000, 1, 7] {
            check_in(
                rt,
                alloc,
                number,
                input.as_bytes(),
                output.as_bytes(),
                end,
                piece,
            )?;
        }
    }
    Ok(())
}

#[test]
fn a_stated_size_past_the_limit_is_refused_at_once(rt: HostRuntime) -> Result<(), Fail> {
    let open = End::Truncated { at: 0 };
    let long = End::TooLong { at: 0, limit: MOST };
    check_stated(&rt, rt.alloc(), MOST - 1, "", open)?;
    check_stated(&rt, rt.alloc(), MOST, "", open)?;
    check_stated(&rt, rt.alloc(), MOST + 1, LONG_BODY, long)?;
    Ok(())
}

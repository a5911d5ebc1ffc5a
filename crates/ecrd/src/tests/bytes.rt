// Inputs that don't read as text: blank bytes, chunks, and input that ends or goes on too long (RFC 9112, sections 2.2
// and
// 7.1), in pieces of several sizes.
use crate::tests::harness::{
    BAD, BAD_NAME, BODY, CHUNKED, CONTINUE, CREATE, FIELDS, LENGTH, LONG_BODY, LONG_HEAD,
    MADE_BODY, MADE_HEAD, NOT_FOUND, POST, Parts, THERE, WORDS, check, joined, run,
};
use ecr_model::End;
use std::alloc::{AllocError, Global};
use std::process::Abort;
use std::test::Fail;

type Case = (Parts, Parts, End);

const MADE: Parts = &[(MADE_HEAD, 1), (MADE_BODY, 1)];

const LONG: End = End::TooLong {
    at: 0,
    limit: 65_536,
};

// Blank bytes before requests, as many fields as a head can have, and a name that is too long.
const WHOLE: [Case; 4] = [
    (&[], &[], End::Whole),
    (
        &[(CREATE, 1), ("\r\n\n", 1), (CREATE, 1), ("\r", 1)],
        &[(MADE_HEAD, 1), (MADE_BODY, 1), (THERE, 1)],
        End::Whole,
    ),
    (
        &[
            ("GET / HTTP/1.1\r\nHost: x\r\n", 1),
            ("a:\n", 21_836),
            ("\n", 1),
        ],
        &[(NOT_FOUND, 1)],
        End::Whole,
    ),
    (
        &[
            (POST, 1),
            (FIELDS, 1),
            ("Content-Length: 278\r\n\r\n{\"repositoryName\":\"", 1),
            ("a", 257),
            ("\"}", 1),
        ],
        &[(BAD_NAME, 1)],
        End::Whole,
    ),
];

// Heads that end too soon, are none, or are too long.
const HEADS: [Case; 6] = [
    (
        &[("POST / HTTP/1.1\r\nHost: x\r\n", 1)],
        &[],
        End::Truncated { at: 0 },
    ),
    (
        &[(CREATE, 1), ("\r\nPOST / HTTP/1.1\r\n", 1)],
        MADE,
        End::Truncated { at: 156 },
    ),
    (&[("GET\r\n\r\n", 1)], &[(BAD, 1)], End::Bad { at: 0 }),
    (
        &[("\n", 1), ("GET / HTTP/1.1\r\n\r\n", 1), (CREATE, 1)],
        &[(BAD, 1)],
        End::Bad { at: 1 },
    ),
    (
        &[(CREATE, 1), ("a", 65_536)],
        &[(MADE_HEAD, 1), (MADE_BODY, 1), (LONG_HEAD, 1)],
        End::TooLong {
            at: 154,
            limit: 65_536,
        },
    ),
    (&[("a", 65_535)], &[], End::Truncated { at: 0 }),
];

// What stands behind a head that says `chunked`, with its output and end.
const CHUNKS: [Case; 8] = [
    (
        &[(CHUNKED, 1), ("1d\r\n", 1), (BODY, 1), ("\r\n0\r\n\r\n", 1)],
        MADE,
        End::Whole,
    ),
    (
        &[
            (CHUNKED, 1),
            (
                "12;x=y\r\n{\"repositoryName\":\r\n00b \t\r\n\"team/app\"}\r\n000\r\nA: b\n\r\n",
                1,
            ),
            (CREATE, 1),
        ],
        &[(MADE_HEAD, 1), (MADE_BODY, 1), (THERE, 1)],
        End::Whole,
    ),
    (
        &[("Expect: 100-continue\r\n", 1), (CHUNKED, 1), ("x\r\n", 1)],
        &[(CONTINUE, 1), (BAD, 1)],
        End::Bad { at: 0 },
    ),
    (
        &[(CHUNKED, 1), ("2\r\nabc", 1)],
        &[(BAD, 1)],
        End::Bad { at: 0 },
    ),
    (
        &[(CHUNKED, 1), ("1;", 1), ("a", 1_022)],
        &[(BAD, 1)],
        End::Bad { at: 0 },
    ),
    (
        &[(CHUNKED, 1), ("2000001\r\n", 1)],
        &[(LONG_BODY, 1)],
        End::TooLong {
            at: 0,
            limit: 33_554_432,
        },
    ),
    (
        &[(CHUNKED, 1), ("0\r\n", 1), ("a", 65_536)],
        &[(LONG_HEAD, 1)],
        LONG,
    ),
    (
        &[("Content-Length: 1\r\n", 1), (CHUNKED, 1), ("0\r\n\r\n", 1)],
        &[(BAD, 1)],
        End::Bad { at: 0 },
    ),
];

#[test]
fn other_inputs_end_as_they_must(rt: HostRuntime) -> Result<(), Fail> {
    for (number, case) in WHOLE.iter().enumerate() {
        check(&rt, rt.alloc(), number, &[], case)?;
    }
    for (number, case) in HEADS.iter().enumerate() {
        check(&rt, rt.alloc(), number, &[], case)?;
    }
    for (number, case) in CHUNKS.iter().enumerate() {
        check(&rt, rt.alloc(), number, &[(POST, 1), (FIELDS, 1)], case)?;
    }
    Ok(())
}

// The input, cut in two, gives that output; its first `cut` bytes alone give `interim` where a head of `head` bytes is
// among them, and end inside the request.
fn check_cut(
    rt: &impl Abort,
    alloc: Global,
    input: &[u8],
    head: usize,
    interim: &str,
    output: &[u8],
    cut: usize,
) -> Result<(), AllocError> {
    let (ended, held) = run(alloc, &WORDS, &[], input, &[cut, 65_536])?;
    assert!(rt; held.as_slice() == output, "in two pieces at {cut}");
    assert!(rt; ended.end == End::Whole, "in two pieces at {cut}");
    let (ended, held) = run(alloc, &WORDS, &[], &input[..cut.min(input.len())], &[])?;
    let told = if cut < head { "" } else { interim };
    assert!(rt; held.as_slice() == told.as_bytes(), "the first {cut}");
    assert!(rt; ended.end == End::Truncated { at: 0 }, "the first {cut}");
    Ok(())
}

#[test]
fn each_cut_of_a_request_ends_as_it_must(rt: HostRuntime) -> Result<(), Fail> {
    let cases: [(Parts, Parts, &str); 2] = [
        (
            &[
                (POST, 1),
                (FIELDS, 1),
                ("Expect: 100-continue\r\n", 1),
                (LENGTH, 1),
                (BODY, 1),
            ],
            &[(CONTINUE, 1), (MADE_HEAD, 1), (MADE_BODY, 1)],
            CONTINUE,
        ),
        (
            &[
                (POST, 1),
                (FIELDS, 1),
                (CHUNKED, 1),
                ("1d\r\n", 1),
                (BODY, 1),
                ("\r\n0\r\n\r\n", 1),
            ],
            &[(MADE_HEAD, 1), (MADE_BODY, 1)],
            "",
        ),
    ];
    for (input, output, interim) in cases {
        let input = joined(rt.alloc(), input)?;
        let output = joined(rt.alloc(), output)?;
        let head = input.len() - input.len().min(29);
        for cut in 1..input.len() {
            check_cut(&rt, rt.alloc(), &input, head, interim, &output, cut)?;
        }
    }
    Ok(())
}

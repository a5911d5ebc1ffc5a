// What bodies ask for, and the bodies of replies and refusals.
use crate::fixtures::{MEBIBYTE, NO_MEMORY, filled, key, named, site};
use ecr_api::{ApiRefusal, Asked, read_call, read_call_in, write_refused, write_reply};
use ecr_errors::refusal_body;
use ecr_json::Builder;
use ecr_model::{Described, Digest, Listed, Mem, Mutability, Page, Refusal, Reply};
use json::Scratch;
use std::alloc::Global;
use std::process::Abort;
use std::test::Fail;

/// The longest body of a call, in bytes.
const MOST: usize = 33_554_432;

/// What a reading comes to, in words.
fn told(reading: &Result<Asked, ApiRefusal>) -> &'static str {
    match reading {
        Ok(Asked::Cell { .. }) => "a call",
        Ok(_) => "a page",
        Err(ApiRefusal::Refused(Refusal::UnknownOperation)) => "no action",
        Err(ApiRefusal::Refused(Refusal::Serialization)) => "no JSON",
        Err(ApiRefusal::Refused(_)) => "a bad member",
        Err(ApiRefusal::Mem) => NO_MEMORY,
    }
}

/// The body asks that of the action, by a scratch of its own and by one that is kept.
fn check_call(
    rt: &impl Abort,
    alloc: Global,
    scratch: &mut Scratch,
    action: &str,
    body: &[u8],
    asked: &str,
) -> Result<(), Mem> {
    let target = format!(in alloc; "AmazonEC2ContainerRegistry_V20150921.{action}")?;
    let base = site(alloc)?;
    let served = vec![in alloc; site(alloc)?]?;
    let size = body.len();
    let read = read_call(alloc, target.as_bytes(), body, &base, &served);
    assert_eq!(rt; told(&read), asked, "{action} of {size} bytes");
    let read = read_call_in(alloc, scratch, target.as_bytes(), body, &base, &served);
    assert_eq!(rt; told(&read), asked, "{action} of {size} bytes, again");
    Ok(())
}

#[test]
fn bodies_are_read_or_refused(rt: HostRuntime) -> Result<(), Fail> {
    let alloc = rt.alloc();
    let mut scratch = Scratch::new(alloc);
    for (action, body, asked) in [
        ("CreateRepository", r#""#, "no JSON"),
        ("CreateRepository", r#"{"#, "no JSON"),
        ("CreateRepository", r#"{"repositoryName":"ab""#, "no JSON"),
        ("CreateRepository", r#"{"repositoryName":"ab",}"#, "no JSON"),
        ("CreateRepository", r#"{"x":"\ud800"}"#, "no JSON"),
        ("CreateRepository", r#"{"x":1e999}"#, "no JSON"),
        ("CreateRepository", r#"[]"#, "no JSON"),
        ("CreateRepository", r#"{"repositoryName":1}"#, "no JSON"),
        (
            "CreateRepository",
            r#"{"repositoryName":"A"}"#,
            "a bad member",
        ),
        ("CreateRepository", r#"{"repositoryName":"ab"}"#, "a call"),
        ("PutImageTagMutability", r#"tru"#, "no JSON"),
        (
            "PutImageTagMutability",
            r#"{"repositoryName":"ab"}"#,
            "a bad member",
        ),
        (
            "PutImageTagMutability",
            r#"{"repositoryName":"ab","imageTagMutability":"MUTABLE"}"#,
            "a call",
        ),
        ("DeleteRepository", r#"{]"#, "no JSON"),
        ("DeleteRepository", r#"{"force":1}"#, "no JSON"),
        ("DeleteRepository", r#"{"force":true}"#, "a bad member"),
        (
            "DeleteRepository",
            r#"{"repositoryName":"ab","force":true}"#,
            "a call",
        ),
        (
            "DescribeRepositories",
            r#"{"repositoryNames":["ab",1]}"#,
            "no JSON",
        ),
        (
            "DescribeRepositories",
            r#"{"maxResults":0}"#,
            "a bad member",
        ),
        (
            "DescribeRepositories",
            r#"{"repositoryNames":["ab"]}"#,
            "a page",
        ),
        ("DescribeRepositories", r#"{}"#, "a page"),
        ("PutImage", r#"{}"#, "no action"),
    ] {
        check_call(&rt, alloc, &mut scratch, action, body.as_bytes(), asked)?;
    }
    check_call(
        &rt,
        alloc,
        &mut scratch,
        "DeleteRepository",
        b"{\"x\":\"\xff\"}",
        "no JSON",
    )?;
    Ok(())
}

#[test]
fn the_longest_bodies_are_read_or_refused(rt: HostRuntime) -> Result<(), Fail> {
    let alloc = rt.alloc();
    let mut scratch = Scratch::new(alloc);
    let (create, describe) = ("CreateRepository", "DescribeRepositories");
    let member = r#"{"repositoryName":"ab","x":""#;
    let name = r#"{"repositoryName":""#;
    for (action, front, piece, back, size, asked) in [
        (create, member, "x", r#""}"#, MEBIBYTE, "a call"),
        (create, member, "x", r#""}"#, MOST, "a call"),
        (create, member, "x", r#""]"#, MEBIBYTE, "no JSON"),
        (create, member, "x", r#""]"#, MOST, "no JSON"),
        (create, name, "x", r#""}"#, MEBIBYTE, "a bad member"),
        (create, "{\"x\":", "[", "}", MEBIBYTE, "no JSON"),
        (
            describe,
            "{\"x\":[",
            r#"{"a":1},"#,
            "0]}",
            MEBIBYTE,
            "a page",
        ),
        (
            describe,
            "{\"x\":[",
            r#"{"a":1},"#,
            "0}",
            MEBIBYTE,
            "no JSON",
        ),
    ] {
        let body = filled(alloc, front, piece, back, size)?;
        check_call(&rt, alloc, &mut scratch, action, body.as_bytes(), asked)?;
    }
    Ok(())
}

#[test]
fn a_hundred_longest_names_are_asked_for(rt: HostRuntime) -> Result<(), Fail> {
    let alloc = rt.alloc();
    let mut scratch = Scratch::new(alloc);
    for (count, asked) in [(1usize, "a page"), (100, "a page"), (101, "a bad member")] {
        let name = filled(alloc, "\"", "a", "\"", 258)?;
        let mut body = String::from_str(alloc, "{\"repositoryNames\":[")?;
        for _ in 1..count {
            body.push_str(name.as_str())?;
            body.push(',')?;
        }
        body.push_str(name.as_str())?;
        body.push_str("]}")?;
        check_call(
            &rt,
            alloc,
            &mut scratch,
            "DescribeRepositories",
            body.as_bytes(),
            asked,
        )?;
    }
    Ok(())
}

/// So many digests.
fn digests(alloc: Global, count: usize) -> Result<Listed<Digest>, Mem> {
    let mut digests = Vec::new(alloc);
    for _ in 0..count {
        digests.push(Digest { bytes: [0xab; 32] })?;
    }
    Ok(Listed::from_vec(digests))
}

/// The length of a refusal's body; 0 where there was no memory.
fn length_of(alloc: Global, refusal: &Refusal) -> usize {
    match refusal_body(alloc, refusal, None, None) {
        Ok(body) => body.len(),
        Err(_) => 0,
    }
}

#[test]
fn refusals_of_many_digests_are_written(rt: HostRuntime) -> Result<(), Fail> {
    let alloc = rt.alloc();
    // `sha256:` and 64 digits each, with commas between them.
    for (count, layers, images) in [
        (1usize, 138usize, 159usize),
        (8, 642, 663),
        (9, 714, 735),
        (10, 786, 807),
        (100, 7_266, 7_287),
        (10_000, 720_066, 720_087),
    ] {
        let refusal = Refusal::LayersNotFound {
            digests: digests(alloc, count)?,
        };
        assert_eq!(rt; length_of(alloc, &refusal), layers, "{count} layers");
        assert!(rt;
            write_refused(alloc, &refusal, false).is_ok(),
            "{count} layers"
        );
        let refusal = Refusal::ReferencedImagesNotFound {
            digests: digests(alloc, count)?,
        };
        assert_eq!(rt; length_of(alloc, &refusal), images, "{count} images");
    }
    Ok(())
}

/// A page of so many rows, each of a name of 256 bytes.
fn rows(alloc: Global, count: usize) -> Result<Reply, Mem> {
    let name = filled(alloc, "", "a", "", 256)?;
    let mut rows = Vec::new(alloc);
    for _ in 0..count {
        rows.push(Described {
            name: named(alloc, name.as_str())?,
            created: 253_402_300_799,
            mutability: Mutability::Immutable,
        })?;
    }
    Ok(Reply::Described {
        rows: Listed::from_vec(rows),
        next: Some(9_223_372_036_854_775_807),
    })
}

#[test]
fn replies_of_many_rows_are_written(rt: HostRuntime) -> Result<(), Fail> {
    let alloc = rt.alloc();
    let asked = Asked::Many {
        site: key(alloc, "ab")?.site,
        names: None,
        page: Page { from: 0, max: 1000 },
    };
    for count in [0, 1, 70, 1000] {
        let reply = rows(alloc, count)?;
        assert!(rt;
            write_reply(alloc, &asked, &reply, &[], true).is_ok(),
            "{count} rows"
        );
    }
    Ok(())
}

#[test]
fn an_object_of_many_members_is_built(rt: HostRuntime) -> Result<(), Fail> {
    let alloc = rt.alloc();
    let mut builder = Builder::new(alloc);
    for number in 0..2_000u64 {
        let member = format!(in alloc; "m{number}")?;
        assert!(rt;
            builder.put_whole(member.as_str(), number).is_ok(),
            "{number}"
        );
    }
    let long = filled(alloc, "", "x", "", MEBIBYTE)?;
    assert!(rt; builder.put_text("long", long.as_str()).is_ok());
    match builder.bytes(alloc) {
        Ok(bytes) => assert!(rt; bytes.len() > MEBIBYTE),
        Err(_) => assert!(rt; false, "no memory"),
    }
    Ok(())
}

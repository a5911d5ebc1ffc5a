// Whole sessions over a source and a sink in memory, cut into pieces: how they are run, and the texts of which they are
// made.
use ecr_model::End;
use ecr_outside::{MemClock, MemSink, MemSource};
use ecr_serve::{Ended, solo};
use std::alloc::{AllocError, Global};
use std::process::Abort;

pub(crate) const WORDS: [&str; 4] = ["session", "--clock", "1700000000", "us-east-1/111122223333"];

pub(crate) const SITES: [&str; 6] = [
    "session",
    "--clock",
    "1700000000",
    "us-east-1/111122223333",
    "eu-west-1/111122223333",
    "eu-west-1/444455556666",
];

// Texts, each as often as its number says.
pub(crate) type Parts = &'static [(&'static str, usize)];

pub(crate) fn words(alloc: Global, texts: &[&str]) -> Result<Vec<String>, AllocError> {
    let mut words = Vec::new(alloc);
    for text in texts {
        words.push(String::from_str(alloc, text)?)?;
    }
    Ok(words)
}

// The texts, one after another.
pub(crate) fn joined(alloc: Global, parts: &[(&str, usize)]) -> Result<Vec<u8>, AllocError> {
    let mut bytes = Vec::new(alloc);
    for (text, times) in parts {
        for _ in 0..*times {
            bytes.extend_from_slice(text.as_bytes())?;
        }
    }
    Ok(bytes)
}

// A session of those words and that input, in pieces of those sizes (the last one again at the end, any where there is
// none), with a clock of those moments: how it ended, and what was written.
pub(crate) fn run(
    alloc: Global,
    texts: &[&str],
    moments: &[u64],
    input: &[u8],
    sizes: &[usize],
) -> Result<(Ended, Vec<u8>), AllocError> {
    let sizes = Vec::from_slice(alloc, sizes)?;
    let mut source = MemSource::new(Vec::from_slice(alloc, input)?, sizes, Vec::new(alloc));
    let mut sink = MemSink::new(alloc, Vec::new(alloc), Vec::new(alloc));
    let mut clock = MemClock::new(Vec::from_slice(alloc, moments)?);
    let words = words(alloc, texts)?;
    let ended = solo(alloc, &words, &mut source, &mut sink, &mut clock);
    let held = Vec::from_slice(alloc, sink.held())?;
    Ok((ended, held))
}

// The session of that case writes that output and ends like that, in pieces of at most that size.
pub(crate) fn check_in(
    rt: &impl Abort,
    alloc: Global,
    number: usize,
    input: &[u8],
    output: &[u8],
    end: End,
    size: usize,
) -> Result<(), AllocError> {
    let (ended, held) = run(alloc, &WORDS, &[], input, &[size])?;
    assert!(rt;
        held.as_slice() == output,
        "case {number} in pieces of {size}"
    );
    assert!(rt; ended.end == end, "case {number} in pieces of {size}");
    Ok(())
}

// The parts of that case as an input, behind those parts, give those of its output, in large pieces, and in pieces of
// 1, 2 and 7 bytes.
pub(crate) fn check(
    rt: &impl Abort,
    alloc: Global,
    number: usize,
    front: Parts,
    case: &(Parts, Parts, End),
) -> Result<(), AllocError> {
    let mut input = joined(alloc, front)?;
    input.extend_from_slice(&joined(alloc, case.0)?)?;
    let output = joined(alloc, case.1)?;
    for size in [1_000_000, 1, 2, 7] {
        check_in(rt, alloc, number, &input, &output, case.2, size)?;
    }
    Ok(())
}

// The message as bytes. `@` and a name stand for one of those below. Each line of a head ends with CR LF, `*` is the
// length of the body in bytes, and the body is what stands behind the first empty line.
fn put_message(alloc: Global, bytes: &mut Vec<u8>, message: &str) -> Result<(), AllocError> {
    let message = match message.strip_prefix("@") {
        Some(name) => named(name),
        None => message,
    };
    match message.split_once("\n\n") {
        Some((head, body)) => {
            put_head(alloc, bytes, head, body.len())?;
            bytes.extend_from_slice(body.as_bytes())
        }
        None => put_head(alloc, bytes, message, 0),
    }
}

fn put_head(alloc: Global, bytes: &mut Vec<u8>, head: &str, size: usize) -> Result<(), AllocError> {
    for line in head.split("\n") {
        match line.strip_suffix("*") {
            Some(front) => {
                let line = format!(in alloc; "{front}{size}")?;
                bytes.extend_from_slice(line.as_bytes())?;
            }
            None => bytes.extend_from_slice(line.as_bytes())?,
        }
        bytes.extend_from_slice(b"\r\n")?;
    }
    bytes.extend_from_slice(b"\r\n")
}

// The messages of a text, between lines of `----`, as bytes.
pub(crate) fn messages(alloc: Global, text: &str) -> Result<Vec<u8>, AllocError> {
    let mut bytes = Vec::new(alloc);
    for message in text.trim().split("\n----\n") {
        put_message(alloc, &mut bytes, message)?;
    }
    Ok(bytes)
}

// The session of that name writes that output and ends like that, in pieces of at most that size.
fn check_text_in(
    rt: &impl Abort,
    alloc: Global,
    name: &str,
    input: &[u8],
    output: &[u8],
    end: End,
    size: usize,
) -> Result<(), AllocError> {
    let (ended, held) = run(alloc, &WORDS, &[], input, &[size])?;
    assert!(rt; held.as_slice() == output, "{name} in pieces of {size}");
    assert!(rt; ended.end == end, "{name} in pieces of {size}");
    Ok(())
}

// The requests before `====` are answered by the replies behind it, and the session ends like that, in large pieces,
// and in pieces of 1, 2 and 7 bytes.
pub(crate) fn check_text(
    rt: &impl Abort,
    alloc: Global,
    name: &str,
    text: &str,
    end: End,
) -> Result<(), AllocError> {
    let (requests, replies) = text.split_once("\n====\n").unwrap_or((text, ""));
    let input = messages(alloc, requests)?;
    let output = messages(alloc, replies)?;
    for size in [1_000_000, 1, 2, 7] {
        check_text_in(rt, alloc, name, &input, &output, end, size)?;
    }
    Ok(())
}

// The message of that name.
fn named(name: &str) -> &'static str {
    match name {
        "create" => CREATE_TEXT,
        "made" => MADE_TEXT,
        "made and closed" => MADE_AND_CLOSED_TEXT,
        "there" => THERE_TEXT,
        "bad name" => BAD_NAME_TEXT,
        "not found" => NOT_FOUND_TEXT,
        _ => BAD_TEXT,
    }
}

// A request that creates `team/app`.
const CREATE_TEXT: &str = r#"POST / HTTP/1.1
Host: localhost
Content-Length: *
X-Amz-Target: AmazonEC2ContainerRegistry_V20150921.CreateRepository

{"repositoryName":"team/app"}"#;

// The reply to it, and that where the session closes after it.
const MADE_TEXT: &str = r#"HTTP/1.1 200 OK
Content-Length: *
Content-Type: application/x-amz-json-1.1

{"repository":{"createdAt":1700000000,"imageTagMutability":"MUTABLE","registryId":"111122223333","repositoryArn":"arn:aws:ecr:us-east-1:111122223333:repository/team/app","repositoryName":"team/app","repositoryUri":"111122223333.dkr.ecr.us-east-1.amazonaws.com/team/app"}}"#;

const MADE_AND_CLOSED_TEXT: &str = r#"HTTP/1.1 200 OK
Connection: close
Content-Length: *
Content-Type: application/x-amz-json-1.1

{"repository":{"createdAt":1700000000,"imageTagMutability":"MUTABLE","registryId":"111122223333","repositoryArn":"arn:aws:ecr:us-east-1:111122223333:repository/team/app","repositoryName":"team/app","repositoryUri":"111122223333.dkr.ecr.us-east-1.amazonaws.com/team/app"}}"#;

// The reply to it where the repository is there.
const THERE_TEXT: &str = r#"HTTP/1.1 400 Bad Request
Content-Length: *
Content-Type: application/x-amz-json-1.1

{"__type":"RepositoryAlreadyExistsException","message":"repository already exists"}"#;

const BAD_NAME_TEXT: &str = r#"HTTP/1.1 400 Bad Request
Content-Length: *
Content-Type: application/x-amz-json-1.1

{"__type":"InvalidParameterException","message":"invalid parameter: repositoryName"}"#;

const NOT_FOUND_TEXT: &str = r#"HTTP/1.1 404 Not Found
Content-Length: 0"#;

// The reply to what is no request.
const BAD_TEXT: &str = r#"HTTP/1.1 400 Bad Request
Connection: close
Content-Length: 0"#;

// A request that creates `team/app`, of 154 bytes.
pub(crate) const CREATE: &str =
    "POST / HTTP/1.1\r\nHost: localhost\r\nContent-Length: 29\r\nX-Amz-Target: AmazonEC2ContainerRegistry_V20150921.CreateRepository\r\n\r\n{\"repositoryName\":\"team/app\"}";

// The same up to its fields, and its fields but for what delimits its body.
pub(crate) const POST: &str = "POST / HTTP/1.1\r\n";

pub(crate) const FIELDS: &str =
    "Host: localhost\r\nX-Amz-Target: AmazonEC2ContainerRegistry_V20150921.CreateRepository\r\n";

pub(crate) const LENGTH: &str = "Content-Length: 29\r\n\r\n";

pub(crate) const CHUNKED: &str = "Transfer-Encoding: chunked\r\n\r\n";

pub(crate) const BODY: &str = "{\"repositoryName\":\"team/app\"}";

pub(crate) const MADE_HEAD: &str =
    "HTTP/1.1 200 OK\r\nContent-Length: 271\r\nContent-Type: application/x-amz-json-1.1\r\n\r\n";

pub(crate) const MADE_BODY: &str =
    "{\"repository\":{\"createdAt\":1700000000,\"imageTagMutability\":\"MUTABLE\",\"registryId\":\"111122223333\",\"repositoryArn\":\"arn:aws:ecr:us-east-1:111122223333:repository/team/app\",\"repositoryName\":\"team/app\",\"repositoryUri\":\"111122223333.dkr.ecr.us-east-1.amazonaws.com/team/app\"}}";

pub(crate) const THERE: &str =
    "HTTP/1.1 400 Bad Request\r\nContent-Length: 83\r\nContent-Type: application/x-amz-json-1.1\r\n\r\n{\"__type\":\"RepositoryAlreadyExistsException\",\"message\":\"repository already exists\"}";

pub(crate) const BAD_NAME: &str =
    "HTTP/1.1 400 Bad Request\r\nContent-Length: 84\r\nContent-Type: application/x-amz-json-1.1\r\n\r\n{\"__type\":\"InvalidParameterException\",\"message\":\"invalid parameter: repositoryName\"}";

pub(crate) const CONTINUE: &str = "HTTP/1.1 100 Continue\r\n\r\n";

pub(crate) const NOT_FOUND: &str = "HTTP/1.1 404 Not Found\r\nContent-Length: 0\r\n\r\n";

pub(crate) const BAD: &str =
    "HTTP/1.1 400 Bad Request\r\nConnection: close\r\nContent-Length: 0\r\n\r\n";

pub(crate) const LONG_HEAD: &str =
    "HTTP/1.1 431 Request Header Fields Too Large\r\nConnection: close\r\nContent-Length: 0\r\n\r\n";

pub(crate) const LONG_BODY: &str =
    "HTTP/1.1 413 Content Too Large\r\nConnection: close\r\nContent-Length: 0\r\n\r\n";

// A request that creates a repository of that name, for that host.
pub(crate) fn creation(alloc: Global, host: &str, name: &str) -> Result<String, AllocError> {
    let size = name.len().saturating_add(21);
    format!(in alloc;
        "POST / HTTP/1.1\r\nHost: {host}\r\nContent-Length: {size}\r\nX-Amz-Target: AmazonEC2ContainerRegistry_V20150921.CreateRepository\r\n\r\n{{\"repositoryName\":\"{name}\"}}"
    )
}

// What is answered to it at that site and moment.
pub(crate) fn created(
    alloc: Global,
    moment: u64,
    site: (&str, &str),
    name: &str,
) -> Result<String, AllocError> {
    let (region, account) = site;
    let body = format!(in alloc;
        "{{\"repository\":{{\"createdAt\":{moment},\"imageTagMutability\":\"MUTABLE\",\"registryId\":\"{account}\",\"repositoryArn\":\"arn:aws:ecr:{region}:{account}:repository/{name}\",\"repositoryName\":\"{name}\",\"repositoryUri\":\"{account}.dkr.ecr.{region}.amazonaws.com/{name}\"}}}}"
    )?;
    let size = body.len();
    format!(in alloc;
        "HTTP/1.1 200 OK\r\nContent-Length: {size}\r\nContent-Type: application/x-amz-json-1.1\r\n\r\n{body}"
    )
}

// A session of those words and a clock of that moment creates that name, for that host, at that site.
pub(crate) fn check_created(
    rt: &impl Abort,
    alloc: Global,
    texts: &[&str],
    moment: u64,
    host: &str,
    site: (&str, &str),
    name: &str,
) -> Result<(), AllocError> {
    let input = creation(alloc, host, name)?;
    let output = created(alloc, moment, site, name)?;
    let (ended, held) = run(alloc, texts, &[moment], input.as_bytes(), &[])?;
    assert!(rt; held.as_slice() == output.as_bytes(), "{host} {name}");
    assert!(rt; ended.end == End::Whole, "{host} {name}");
    Ok(())
}

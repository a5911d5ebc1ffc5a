// A load on a server over loopback, and the least server that can answer it.
ghost use Rattle.std.specs.Prelude.{◌<◌};

use ecr_model::Mem;
use std::alloc::Global;
use std::io::{ErrorKind, Read, Write};
use std::net::{Net, TcpListener, TcpStream};
use std::sync::Wait;
use std::thread::{Builder, Threads};
use std::time::{Clock, Instant};
use std::{io, thread};

/// What the least server answers to each request: the reply to a target at which nothing is served.
const FIXED: &[u8] = b"HTTP/1.1 404 Not Found\r\nContent-Length: 0\r\n\r\n";

/// The most bytes of a request, and of a reply, that are read at once.
const PIECE: usize = 16_384;

const SERVICE: &str = "AmazonEC2ContainerRegistry_V20150921";

/// Answers each piece that it reads by the same bytes, on each link in a thread of its own, and keeps nothing. What a
/// client sends at once has to be one request.
pub(crate) fn serve_floor<R>(rt: &R, address: &str) -> io::Result<()>
where
    R: Net<Listener = TcpListener, Stream = TcpStream> + Threads + Wait + Print + Sync,
{
    let listener = TcpListener::bind(rt, address)?;
    println!(rt; "ready")?;
    thread::scope(thread::scope_env(), rt, |scope| {
        for _ in rt.forever() {
            let Ok((stream, _)) = listener.accept() else {
                return;
            };
            let _ = Builder::new().spawn_scoped(scope, move || {
                let _ = answer_all(rt, stream);
            });
        }
    });
    Ok(())
}

fn answer_all<R: Wait>(rt: &R, stream: TcpStream) -> io::Result<()> {
    let mut stream = stream;
    stream.set_nodelay(true)?;
    let mut piece = [0; PIECE];
    for _ in rt.forever() {
        if stream.read(&mut piece)? == 0 {
            break;
        }
        stream.write_all(FIXED)?;
    }
    Ok(())
}

/// A kind of request.
#[derive(Clone, Copy, PartialEq, Eq)]
enum Kind {
    Create,
    Describe,
    Missing,
}

/// A link, with what it asks and how long each reply took.
#[derive(Drop)]
struct Link {
    stream: TcpStream,
    number: usize,
    asked: usize,
    kind: Kind,
    nanoseconds: Vec<u64>,
    is_whole: bool,
}

/// Asks so many times in all over so many links, each of which waits for a reply before it asks again, and prints how
/// many replies came a second, and after how many microseconds half of them and 99 of 100.
pub(crate) fn load<R>(
    rt: &R,
    alloc: Global,
    address: &str,
    links: usize,
    requests: usize,
    kind: &str,
) -> io::Result<()>
where
    R: Net<Listener = TcpListener, Stream = TcpStream> + Threads + Clock + Print + Sync,
{
    let kind = match kind {
        "create" => Kind::Create,
        "describe" => Kind::Describe,
        _ => Kind::Missing,
    };
    let asked = requests / links.max(1);
    let mut all = Vec::new(alloc);
    for number in 0..links {
        let stream = TcpStream::connect(rt, address)?;
        stream.set_nodelay(true)?;
        all.push(Link {
            stream,
            number,
            asked,
            kind,
            nanoseconds: Vec::with_capacity(alloc, asked)?,
            is_whole: true,
        })?;
    }
    let start = Instant::now(rt)?;
    thread::for_each_chunk_mut(
        rt,
        all.as_mut_slice(),
        1,
        &|_, part: &mut [Link]| {
            for link in part.iter_mut() {
                link.is_whole = ask_all(rt, alloc, link).is_ok();
            }
        },
    );
    let took = start.elapsed(rt)?.as_nanos().max(1);
    if all.iter().any(|link| !link.is_whole) {
        return Err(ErrorKind::UnexpectedEof.into());
    }
    let mut times = Vec::new(alloc);
    for link in all.iter() {
        for time in link.nanoseconds.iter() {
            times.push(*time)?;
        }
    }
    times.as_mut_slice().sort_unstable();
    let a_second = (times.len() as u128).saturating_mul(1_000_000_000) / took;
    let half = share_of(times.as_slice(), 50) / 1000;
    let most = share_of(times.as_slice(), 99) / 1000;
    println!(rt; "{links} links, {a_second} a second, {half} and {most} microseconds")
}

/// The least time within which so many of a hundred are.
fn share_of(times: &[u64], hundredths: usize) -> u64 {
    let at = times.len().saturating_mul(hundredths) / 100;
    if at < times.len() { times[at] } else { 0 }
}

fn ask_all<R: Clock>(rt: &R, alloc: Global, link: &mut Link) -> io::Result<()> {
    let mut reply = [0; PIECE];
    for number in 0..link.asked {
        let asked = request_of(alloc, link.kind, link.number, number)?;
        let start = Instant::now(rt)?;
        link.stream.write_all(asked.as_slice())?;
        if link.stream.read(&mut reply)? == 0 {
            return Err(ErrorKind::UnexpectedEof.into());
        }
        let time = u64::try_from(start.elapsed(rt)?.as_nanos()).unwrap_or(u64::MAX);
        link.nanoseconds.push(time)?;
    }
    Ok(())
}

/// The request of that kind. Names are of the link and of the request, but for the one that is described.
fn request_of(alloc: Global, kind: Kind, link: usize, number: usize) -> Result<Vec<u8>, Mem> {
    let text = match kind {
        Kind::Missing => format!(in alloc; "GET /v2/ HTTP/1.1\r\nHost: localhost\r\n\r\n")?,
        Kind::Create => {
            let body = format!(in alloc; "{{\"repositoryName\":\"link{link}/app{number}\"}}")?;
            posted(alloc, "CreateRepository", body.as_str())?
        }
        Kind::Describe => posted(
            alloc,
            "DescribeRepositories",
            "{\"repositoryNames\":[\"team/app\"]}",
        )?,
    };
    Ok(text.into_bytes())
}

fn posted(alloc: Global, action: &str, body: &str) -> Result<String, Mem> {
    let length = body.len();
    let text = format!(in alloc;
        "POST / HTTP/1.1\r\nHost: localhost\r\nX-Amz-Target: {SERVICE}.{action}\r\nContent-Length: {length}\r\n\r\n{body}"
    )?;
    Ok(text)
}

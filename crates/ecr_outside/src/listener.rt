// Links from the network: the trusted edge of a server.
ghost use Rattle.std.specs.Prelude.{◌≡◌, None, false, true, IfOk};
ghost use Rattle.ecr_outside.specs.Accept.{Entrance, GoesOn, Opens};

use crate::faults::Faults;
use crate::real::{read_some, write_some};
use crate::{Accept, Got, Next, Opened, Sink, Source, Took};
use std::alloc::Global;
use std::io::{ErrorKind, Read};
use std::marker::Model;
use std::net::{Net, Shutdown, TcpListener, TcpStream};
use std::sync::Arc;
use std::time::{Clock, Duration, Instant};
use std::{io, thread};

/// How many seconds a read or a write of a link may take before it counts as a fault.
const IDLE: u64 = 60;

/// How many seconds a closing link waits for the rest of what its peer sends, in all and for each piece.
const LINGER: u64 = 10;

const LINGER_PIECE: u64 = 2;

/// The most that a closing link reads of what its peer still sends, in pieces of `PIECE` bytes.
const LINGER_PIECES: u32 = 65_536;

const PIECE: usize = 16_384;

/// How often an acceptor tries again that finds too many files open or a link that is gone, and how many milliseconds
/// it waits each time.
const TRIES: u32 = 1000;

const PAUSE: u64 = 10;

/// The first byte of a TLS client's first record (RFC 8446, section 5.1).
const TLS_HANDSHAKE: u8 = 22;

/// What the peer of a link sends. It tells no bytes; contracts see how often it failed.
///
/// Each error is a fault, but one that was only interrupted is tried again first. So is a read that brings nothing for
/// 60 seconds, and a first byte with which TLS begins, since its client would wait for an answer.
#[derive(Drop)]
pub struct LinkSource {
    stream: Arc<TcpStream, Global>,
    has_begun: bool,
    faults: Faults,
}

impl Model for LinkSource {
    ghost use Rattle.std.specs.Prelude.{ℕ};

    ghost Value = { ℕ };

    ghost view = { λ s. s.faults };
}

impl LinkSource {
    // Whether the client of the link speaks TLS, by its first byte.
    fn is_tls(&mut self, front: &[u8]) -> bool
        ensures kept { self.new ≡ self.old }
    {
        if self.has_begun {
            return false;
        }
        self.has_begun = true;
        front.first() == Some(&TLS_HANDSHAKE)
    }
}

impl Source for LinkSource {
    ghost left = { λ _. None };

    ghost faults = { λ s. s };

    fn read(&mut self, buf: &mut [u8]) -> Got {
        let mut stream = &*self.stream;
        let read = read_some(&mut stream, buf);
        match read {
            Some(0) => Got::End,
            Some(n) if !self.is_tls(buf) => Got::Bytes(n),
            _ => {
                self.faults.rise();
                Got::Failed
            }
        }
    }
}

/// Where the replies to the peer of a link go. It tells no bytes; contracts see how often it failed.
///
/// Each error is a fault, but one that was only interrupted is tried again first. So is a write that takes nothing, and
/// one that takes nothing for 60 seconds. Where it is dropped the link closes: nothing more is written, and what the
/// peer still sends is read and dropped, for at most 10 seconds and 1 GiB, so that a peer that writes on still gets the
/// reply.
pub struct LinkSink<'a, R: Clock> {
    stream: Arc<TcpStream, Global>,
    clock: &'a R,
    faults: Faults,
}

impl<'a, R: Clock> Model for LinkSink<'a, R> {
    ghost use Rattle.std.specs.Prelude.{ℕ};

    ghost Value = { ℕ };

    ghost view = { λ s. s.faults };
}

impl<'a, R: Clock> Sink for LinkSink<'a, R> {
    ghost held = { λ _. None };

    ghost faults = { λ s. s };

    fn write(&mut self, piece: &[u8]) -> Took {
        let mut stream = &*self.stream;
        match write_some(&mut stream, piece) {
            Some(n) if n > 0 => Took::Bytes(n),
            _ => {
                self.faults.rise();
                Took::Failed
            }
        }
    }
}

impl<'a, R: Clock> Drop for LinkSink<'a, R> {
    fn drop(self) {
        let LinkSink {
            stream,
            clock,
            faults: _,
        } = self;
        linger(clock, &stream);
    }
}

// Says that no more comes, and reads on until the peer has ended.
fn linger<R: Clock>(clock: &R, stream: &TcpStream) {
    if stream.shutdown(Shutdown::Write).is_err() {
        return;
    }
    if stream
        .set_read_timeout(Some(Duration::from_secs(LINGER_PIECE)))
        .is_err()
    {
        return;
    }
    let Ok(begun) = Instant::now(clock) else {
        return;
    };
    let mut piece = [0; PIECE];
    for _ in 0..LINGER_PIECES {
        if !has_more(stream, &mut piece) || !is_within(clock, begun) {
            return;
        }
    }
}

// Whether the peer sent something more.
fn has_more(stream: &TcpStream, piece: &mut [u8]) -> bool {
    let mut stream = stream;
    read_some(&mut stream, piece).is_some_and(|n| n > 0)
}

// Whether a closing link still has time.
fn is_within<R: Clock>(clock: &R, begun: Instant) -> bool {
    match Instant::now(clock) {
        Ok(now) => now.saturating_duration_since(begun) < Duration::from_secs(LINGER),
        Err(_) => false,
    }
}

/// An acceptor of links over TCP. Contracts see its faults, and whether it was opened and closed.
///
/// It never closes by itself: an error of the listener is a fault, and ends it. A link that is gone before it was taken
/// is passed over, and where too many files are open, or there is no memory for a link, it waits and tries again for a
/// while.
#[derive(Drop)]
pub struct RealAccept<'a, R: Net<Listener = TcpListener, Stream = TcpStream> + Clock> {
    alloc: Global,
    rt: &'a R,
    listener: Option<TcpListener>,
    is_open: bool,
    faults: Faults,
}

impl<'a, R: Net<Listener = TcpListener, Stream = TcpStream> + Clock> Model for RealAccept<'a, R> {
    ghost use Rattle.std.specs.Prelude.{false};
    ghost use Rattle.ecr_outside.specs.Accept.{Entrance};

    ghost Value = { Entrance };

    ghost view = { λ a. record { faults = a.faults; is_open = a.is_open; is_closed = false } };
}

impl<'a, R: Net<Listener = TcpListener, Stream = TcpStream> + Clock> RealAccept<'a, R> {
    /// An acceptor that isn't opened yet.
    pub fn new(alloc: Global, rt: &'a R) -> RealAccept<'a, R>
        ensures entrance { result ≡ record { faults = 0; is_open = false; is_closed = false } }
    {
        RealAccept {
            alloc,
            rt,
            listener: None,
            is_open: false,
            faults: Faults::none(),
        }
    }

    /// The port that was opened, which the system chose where the address has port 0. `None` where none is open.
    pub fn port(&self) -> Option<u16> {
        let address = self.listener.as_ref()?.local_addr().ok()?;
        Some(address.port())
    }

    // The next link of the listener.
    fn take_link(&self) -> io::Result<(LinkSource, LinkSink<'a, R>)> {
        let Some(listener) = &self.listener else {
            return Err(ErrorKind::NotConnected.into());
        };
        for _ in 0..TRIES {
            match self.try_link(listener) {
                Ok(link) => return Ok(link),
                Err(error) => self.pause_or_fail(error)?,
            }
        }
        Err(ErrorKind::TimedOut.into())
    }

    fn try_link(&self, listener: &TcpListener) -> io::Result<(LinkSource, LinkSink<'a, R>)> {
        let (stream, _) = listener.accept()?;
        stream.set_nodelay(true)?;
        stream.set_read_timeout(Some(Duration::from_secs(IDLE)))?;
        stream.set_write_timeout(Some(Duration::from_secs(IDLE)))?;
        let stream = Arc::new(self.alloc, stream)?;
        let source = LinkSource {
            stream: Arc::try_clone(&stream)?,
            has_begun: false,
            faults: Faults::none(),
        };
        let sink = LinkSink {
            stream,
            clock: self.rt,
            faults: Faults::none(),
        };
        Ok((source, sink))
    }

    // Waits a while where another try may succeed.
    fn pause_or_fail(&self, error: io::Error) -> io::Result<()> {
        match error.kind() {
            ErrorKind::Interrupted | ErrorKind::ConnectionAborted | ErrorKind::ConnectionReset => {
                Ok(())
            }
            ErrorKind::InvalidInput | ErrorKind::NotConnected | ErrorKind::Unsupported => {
                Err(error)
            }
            _ => {
                thread::sleep(self.rt, Duration::from_millis(PAUSE));
                Ok(())
            }
        }
    }
}

impl<'a, R: Net<Listener = TcpListener, Stream = TcpStream> + Clock + Sync> Accept
    for RealAccept<'a, R> {
    type In = LinkSource;

    type Out = LinkSink<'a, R>;

    ghost entrance = { λ a. a };

    fn open(&mut self, address: &str) -> Opened {
        match TcpListener::bind(self.rt, address) {
            Ok(listener) => {
                self.listener = Some(listener);
                self.is_open = true;
                Opened::Ready
            }
            Err(_) => {
                self.faults.rise();
                Opened::Failed
            }
        }
    }

    fn next(&mut self) -> Next<LinkSource, LinkSink<'a, R>> {
        match self.take_link() {
            Ok((source, sink)) => Next::Link(source, sink),
            Err(_) => {
                self.faults.rise();
                Next::Failed
            }
        }
    }
}

#[cfg(test)]
mod tests {
    use crate::{Accept, Got, Next, Opened, RealAccept, Sink, Source, Took};
    use std::io;
    use std::io::{ErrorKind, Read, Write};
    use std::net::{Net, Shutdown, TcpListener, TcpStream};
    use std::test::Fail;
    use std::time::Clock;

    // Opens a port that the system chooses.
    fn opened<R: Net<Listener = TcpListener, Stream = TcpStream> + Clock + Sync>(
        accept: &mut RealAccept<R>,
    ) -> io::Result<()>
        requires closed { accept.old.is_open ≡ false }
        ensures open { IfOk result (λ _. accept.new.is_open ≡ true) }
    {
        match accept.open("127.0.0.1:0") {
            Opened::Ready => Ok(()),
            Opened::Failed => Err(ErrorKind::AddrNotAvailable.into()),
        }
    }

    // A client sends the bytes and no more. What two reads of its link and a write answer, and how many bytes the
    // client gets.
    fn answered<R: Net<Listener = TcpListener, Stream = TcpStream> + Clock + Sync>(
        rt: &R,
        accept: &mut RealAccept<R>,
        sent: &[u8],
    ) -> io::Result<(Got, Got, Took, usize)>
        requires open { accept.old.is_open ≡ true }
        ensures still { IfOk result (λ _. accept.new.is_open ≡ true) }
    {
        let port = accept.port().unwrap_or(0);
        let mut client = TcpStream::connect(rt, ("127.0.0.1", port))?;
        client.write_all(sent)?;
        client.shutdown(Shutdown::Write)?;
        let Next::Link(mut source, mut sink) = accept.next() else {
            return Err(ErrorKind::NotConnected.into());
        };
        let mut buf = [0; 8];
        let first = source.read(&mut buf);
        let second = source.read(&mut buf);
        let took = sink.write(b"ok");
        drop(sink);
        let got = client.read(&mut buf)?;
        Ok((first, second, took, got))
    }

    #[test]
    fn a_listener_is_an_acceptor(rt: HostRuntime) -> Result<(), Fail> {
        let mut without_port = RealAccept::new(rt.alloc(), &rt);
        assert_eq!(rt; without_port.open("127.0.0.1"), Opened::Failed);
        let mut accept = RealAccept::new(rt.alloc(), &rt);
        assert_eq!(rt; accept.port(), None);
        opened(&mut accept)?;
        let said = answered(&rt, &mut accept, b"abc")?;
        assert_eq!(rt; said, (Got::Bytes(3), Got::End, Took::Bytes(2), 2));
        // A client that begins as TLS does is refused at once.
        let said = answered(&rt, &mut accept, b"\x16\x03\x01")?;
        assert_eq!(rt; said, (Got::Failed, Got::End, Took::Bytes(2), 2));
        Ok(())
    }
}

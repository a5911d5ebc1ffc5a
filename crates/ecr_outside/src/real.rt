// The outside itself: a reader, a writer and the system's clock.
ghost use Rattle.std.specs.Prelude.{◌≡◌, ◌<◌, ◌≤◌, length, None, IfSome};
ghost use Rattle.ecr_model.specs.declared.names.TheConstants.{MAX_MOMENT};

use crate::faults::Faults;
use crate::{Clock, Clocks, Got, Sink, Source, Took};
use ecr_model::{MAX_MOMENT, Moment};
use std::io::{ErrorKind, Read, Write};
use std::marker::Model;
use std::time::{SystemTime, UNIX_EPOCH};
use std::{io, time};

// How often a call that was interrupted is tried before it counts as a fault.
const TRIES: u32 = 1000;

/// A source over any reader. It tells no bytes; contracts see how often it has failed.
///
/// Each error of the reader is a fault, but one that was only interrupted is tried again first.
#[derive(Drop)]
pub struct RealSource<R> {
    reader: R,
    faults: Faults,
}

impl<R> Model for RealSource<R> {
    ghost use Rattle.std.specs.Prelude.{ℕ};

    ghost Value = { ℕ };

    ghost view = { λ s. s.faults };
}

impl<R: Read> RealSource<R> {
    /// A source of what the reader gives from now on.
    pub fn new(reader: R) -> RealSource<R>
        ensures no_fault { result ≡ 0 }
    {
        RealSource {
            reader,
            faults: Faults::none(),
        }
    }
}

impl<R: Read> Source for RealSource<R> {
    ghost left = { λ _. None };

    ghost faults = { λ s. s };

    fn read(&mut self, buf: &mut [u8]) -> Got {
        match read_some(&mut self.reader, buf) {
            Some(0) => Got::End,
            Some(n) => Got::Bytes(n),
            None => {
                self.faults.rise();
                Got::Failed
            }
        }
    }
}

// How many bytes the reader gave, or `None` where it failed.
pub(crate) fn read_some<R: Read>(reader: &mut R, buf: &mut [u8]) -> Option<usize>
    ensures { IfSome result (λ n. n ≤ length buf.new) }
{
    for _ in 0..TRIES {
        match reader.read(buf) {
            Ok(n) => return Some(n),
            Err(error) => {
                if !is_interrupted(&error) {
                    return None;
                }
            }
        }
    }
    None
}

/// A sink over any writer. It tells no bytes; contracts see how often it has failed.
///
/// Each error of the writer is a fault, but one that was only interrupted is tried again first. So
/// is a write that takes nothing. Nothing is held back here and nothing flushed: a writer that
/// holds bytes back is the owner's to flush.
#[derive(Drop)]
pub struct RealSink<W> {
    writer: W,
    faults: Faults,
}

impl<W> Model for RealSink<W> {
    ghost use Rattle.std.specs.Prelude.{ℕ};

    ghost Value = { ℕ };

    ghost view = { λ s. s.faults };
}

impl<W: Write> RealSink<W> {
    /// A sink whose bytes go to the writer.
    pub fn new(writer: W) -> RealSink<W>
        ensures no_fault { result ≡ 0 }
    {
        RealSink {
            writer,
            faults: Faults::none(),
        }
    }
}

impl<W: Write> Sink for RealSink<W> {
    ghost held = { λ _. None };

    ghost faults = { λ s. s };

    fn write(&mut self, piece: &[u8]) -> Took {
        match write_some(&mut self.writer, piece) {
            Some(n) if n > 0 => Took::Bytes(n),
            _ => {
                self.faults.rise();
                Took::Failed
            }
        }
    }
}

// How many bytes the writer took, or `None` where it failed.
pub(crate) fn write_some<W: Write>(writer: &mut W, piece: &[u8]) -> Option<usize>
    ensures { IfSome result (λ n. n ≤ length piece.now) }
{
    for _ in 0..TRIES {
        match writer.write(piece) {
            Ok(n) => return Some(n),
            Err(error) => {
                if !is_interrupted(&error) {
                    return None;
                }
            }
        }
    }
    None
}

fn is_interrupted(error: &io::Error) -> bool {
    error.kind() == ErrorKind::Interrupted
}

/// The system's clock, which tells no moments.
///
/// Where it fails, and before 1970, it gives its last moment again, at first 0. A later moment than
/// [`MAX_MOMENT`] is given as that.
#[derive(Drop)]
pub struct RealClock<C> {
    clock: C,
    last: Moment,
    ghost in_range: { last ≤ MAX_MOMENT },
}

impl<C: time::Clock> RealClock<C> {
    /// The system's clock, as `&rt`.
    ///
    /// No clause is owed: the real clock tells no moments.
    pub fn new(clock: C) -> RealClock<C> {
        RealClock { clock, last: 0 }
    }
}

impl<C: time::Clock> Clock for RealClock<C> {
    ghost told = { λ _. None };

    fn now(&mut self) -> Moment {
        if let Some(moment) = system_moment(&self.clock) {
            self.last = moment.min(MAX_MOMENT);
        }
        self.last
    }
}

/// The system's clock for each worker.
#[derive(Clone, Copy)]
pub struct RealClocks<'a, C> {
    clock: &'a C,
}

impl<'a, C: time::Clock + Sync> RealClocks<'a, C> {
    /// The system's clock, as `&rt`, for each worker.
    pub fn new(clock: &'a C) -> RealClocks<'a, C> {
        RealClocks { clock }
    }
}

impl<'a, C: time::Clock + Sync> Clocks for RealClocks<'a, C> {
    type One = RealClock<&'a C>;

    fn one(&self, _worker: u32) -> RealClock<&'a C> {
        RealClock::new(self.clock)
    }
}

// The whole seconds since 1970, where the clock gives them.
fn system_moment<C: time::Clock>(clock: &C) -> Option<Moment> {
    let now = SystemTime::now(clock).ok()?;
    let since = now.duration_since(UNIX_EPOCH).ok()?;
    Some(since.as_secs())
}

#[cfg(test)]
mod tests {
    use super::*;
    use std::sync::atomic::{AtomicU64, Ordering};
    use std::time::Duration;

    // Is interrupted, gives a byte, fails, and is at its end.
    #[derive(Drop)]
    struct Broken {
        reads: u8,
    }

    impl Read for Broken {
        fn read(&mut self, buf: &mut [u8]) -> io::Result<usize> {
            let read = self.reads;
            self.reads = read.saturating_add(1);
            match (read, buf) {
                (0, _) => Err(ErrorKind::Interrupted.into()),
                (1, [first, ..]) => {
                    *first = b'c';
                    Ok(1)
                }
                (2, _) => Err(ErrorKind::ConnectionReset.into()),
                _ => Ok(0),
            }
        }
    }

    #[test]
    fn a_reader_is_a_source(rt: HostRuntime) {
        let mut source = RealSource::new(b"ab".as_slice().chain(Broken { reads: 0 }));
        let mut buf = [0; 4];
        for want in [Got::Bytes(2), Got::Bytes(1), Got::Failed, Got::End] {
            assert_eq!(rt; source.read(&mut buf), want);
        }
        assert_eq!(rt; buf, *b"cb\0\0");
    }

    #[test]
    fn a_writer_is_a_sink(rt: HostRuntime) {
        let mut room = [0; 3];
        let mut sink = RealSink::new(room.as_mut_slice());
        for want in [Took::Bytes(2), Took::Bytes(1), Took::Failed] {
            assert_eq!(rt; sink.write(b"ab"), want);
        }
        drop(sink);
        assert_eq!(rt; room, *b"aba");
    }

    #[test]
    fn the_systems_clock_is_a_clock(rt: HostRuntime) {
        let before = system_moment(&rt);
        let moment = RealClock::new(&rt).now();
        let after = system_moment(&rt);
        assert!(rt; before <= Some(moment) && Some(moment) <= after);
    }

    // Fails at every second call, and tells the moments of its plan at the others.
    #[derive(Drop)]
    struct Planned {
        calls: AtomicU64,
    }

    impl time::Clock for Planned {
        fn monotonic(&self) -> io::Result<Duration> {
            self.since_1970()
        }

        fn since_1970(&self) -> io::Result<Duration> {
            match self.calls.fetch_add(1, Ordering::Relaxed) {
                1 => Ok(Duration::new(1_700_000_000, 999_999_999)),
                3 => Ok(Duration::new(1_600_000_000, 0)),
                5 => Ok(Duration::new(253_402_300_799, 1)),
                7 => Ok(Duration::new(253_402_300_800, 0)),
                9 => Ok(Duration::new(0, 1)),
                _ => Err(ErrorKind::Other.into()),
            }
        }
    }

    #[test]
    fn a_clock_is_followed_in_whole_seconds(rt: HostRuntime) {
        let calls = AtomicU64::new(0);
        let mut clock = RealClock::new(Planned { calls });
        for want in [
            0,
            1_700_000_000,
            1_700_000_000,
            1_600_000_000,
            1_600_000_000,
            MAX_MOMENT,
            MAX_MOMENT,
            MAX_MOMENT,
            MAX_MOMENT,
            0,
            0,
        ] {
            assert_eq!(rt; clock.now(), want);
        }
    }
}

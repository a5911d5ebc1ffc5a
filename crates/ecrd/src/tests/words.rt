// The words of commands: which are a session's, and that others read nothing.
use crate::tests::harness::words;
use ecr_model::End;
use ecr_outside::{Clock, Got, MemClock, MemSink, MemSource, Source};
use ecr_serve::solo;
use std::alloc::{AllocError, Global};
use std::process::Abort;
use std::test::Fail;

const SITE: &str = "us-east-1/111122223333";

const USAGE: &[u8] =
    b"usage: ecrd session [--control] [--clock S] SITE...\n       ecrd bulk SEED COUNT\n       ecrd serve [--workers N] [--copiers N] ADDRESS SITE...\n";

// The words are a session's, which ends in the one byte that it reads, or are answered by the lines of usage alone.
fn check_words(
    rt: &impl Abort,
    alloc: Global,
    number: usize,
    words: &[String],
    is_session: bool,
) -> Result<(), AllocError> {
    let byte = Vec::from_slice(alloc, b"x")?;
    let mut source = MemSource::new(byte, Vec::new(alloc), Vec::new(alloc));
    let mut sink = MemSink::new(alloc, Vec::new(alloc), Vec::new(alloc));
    let mut clock = MemClock::new(vec![in alloc; 5, 6]?);
    let ended = solo(alloc, words, &mut source, &mut sink, &mut clock);
    let next = source.read(&mut [0; 4]);
    if is_session {
        assert_eq!(rt; ended.end, End::Truncated { at: 0 }, "{number}");
        assert_eq!(rt; ended.status, 7, "{number}");
        assert!(rt; sink.held().is_empty(), "{number}");
        assert_eq!(rt; next, Got::End, "{number}");
    } else {
        assert_eq!(rt; ended.end, End::Usage, "{number}");
        assert_eq!(rt; ended.status, 2, "{number}");
        assert!(rt; ended.cuts.is_empty(), "{number}");
        assert!(rt; sink.held() == USAGE, "{number}");
        assert_eq!(rt; next, Got::Bytes(1), "{number}");
        assert_eq!(rt; clock.now(), 5, "{number}");
    }
    Ok(())
}

// The words of a session at so many different sites.
fn many_sites(alloc: Global, count: usize) -> Result<Vec<String>, AllocError> {
    let mut words = words(alloc, &["session"])?;
    for n in 0..count {
        words.push(format!(in alloc; "r{n}/111122223333")?)?;
    }
    Ok(words)
}

// pins: IsSession, IsNoCommand, IsIdle, SaysUsage, RunsSession
#[test]
fn words_are_a_session_or_none(rt: HostRuntime) -> Result<(), Fail> {
    let alloc = rt.alloc();
    let cases: [(&[&str], bool); 22] = [
        (&["session", SITE], true),
        (&["session", SITE, "us-east-1/444455556666"], true),
        (&["session", SITE, "us-east-2/111122223333"], true),
        (&["session", SITE, SITE], false),
        (&["session", SITE, "eu-west-1/1", SITE], false),
        (&["session", "--clock", "0", SITE], true),
        // The last second of the year 9999, and the one after it.
        (&["session", "--clock", "253402300799", SITE], true),
        (&["session", "--clock", "253402300800", SITE], false),
        (&["session", "--clock", "00", SITE], false),
        (&["session", "--clock", "01700000000", SITE], false),
        (&["session", "--clock", "+1", SITE], false),
        (&["session", "--clock", "1.0", SITE], false),
        (&["session", "--clock", "", SITE], false),
        (&["session", "--clock", SITE], false),
        (&["session", "--clock", "1"], false),
        (&["session", SITE, "--clock", "1"], false),
        (&["session", "us-east-1/11112222333"], false),
        (&["session", "/111122223333"], false),
        (&["session", "US-EAST-1/111122223333"], false),
        (&["session"], false),
        (&[], false),
        (&["Session", SITE], false),
    ];
    for (number, (texts, is_session)) in cases.iter().enumerate() {
        check_words(&rt, alloc, number, &words(alloc, texts)?, *is_session)?;
    }
    check_words(&rt, alloc, 64, &many_sites(alloc, 64)?, true)?;
    check_words(&rt, alloc, 65, &many_sites(alloc, 65)?, false)?;
    Ok(())
}

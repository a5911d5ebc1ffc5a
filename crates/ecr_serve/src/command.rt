// A command for one caller.
ghost use Rattle.std.specs.Prelude.{◌≡◌, ◌<◌, [], ℕ, List, Option, length, map, string_bytes};
ghost use Rattle.ecr_model.specs.sessions.Commands.{IsNoCommand, IsSession, IsNotRun, RunsSession, SaysUsage, exit_status, usage_lines};
ghost use Rattle.ecr_model.specs.declared.names.SiteId.{SiteId};
ghost use Rattle.ecr_http.specs.Sends.{Sends};

use crate::words::{SessionWords, read_words};
use ecr_cells::SoloDesk;
use ecr_http::{Sent, send};
use ecr_model::{Cut, End, Limits};
use ecr_outside::{Clock, Sink, Source};
use ecr_session::{Mode, session_still};
use std::alloc::Global;

/// How a command ended.
#[derive(Drop)]
pub struct Ended {
    /// The exit status: 0 `Whole`, 2 `Usage`, 3 `ReadFault`, 4 `WriteFault`, 5 `Mem`, 6 `AcceptFault`, 7 `Truncated`, 8
    /// `Bad` and `TooLong`, 9 `Spent`.
    pub status: u8,
    pub end: End,
    /// One for each request that was answered.
    pub cuts: Vec<Cut>,
}

/// Runs the command that the words are: `session`, then `--clock` and a moment in seconds or neither, and then the
/// words of 1 to 64 different sites, as `us-east-1/111122223333`.
///
/// A session reads requests from the source and writes the replies to the sink, each as soon as its request was
/// answered. It begins with a registry in which nothing is, and which goes when it ends. Where a moment is given it is
/// that of each answer, and the clock isn't asked; else the clock is asked once for each request. Other words are
/// answered by the lines of usage, and then nothing was answered and there are no cuts.
pub fn solo<S: Source, K: Sink, C: Clock>(
    alloc: Global,
    words: &[String],
    source: &mut S,
    sink: &mut K,
    clock: &mut C,
) -> Ended
    ensures status { result.status ≡ exit_status result.end }

    // The words are told apart exactly.
    ensures usage_only { result.end ≡ End.Usage → IsNoCommand (map string_bytes words.now) }
    ensures usage { IsNoCommand (map string_bytes words.now) → IsNotRun
        (record {
          left = S.left source.old;
          held = K.held sink.old;
          told = C.told clock.old;
          read_faults = S.faults source.old;
          write_faults = K.faults sink.old;
        })
        (record {
          left = S.left source.new;
          held = K.held sink.new;
          told = C.told clock.new;
          read_faults = S.faults source.new;
          write_faults = K.faults sink.new;
        })
        result.end }
    ensures no_cuts { IsNoCommand (map string_bytes words.now) → result.cuts.items ≡ [] }

    // What a session reads, answers and writes, and how it ends.
    ensures session { (fixed : Option ℕ) (sites : List SiteId) → IsSession (map string_bytes words.now) fixed sites
        → RunsSession sites fixed
        (record {
          left = S.left source.old;
          held = K.held sink.old;
          told = C.told clock.old;
          read_faults = S.faults source.old;
          write_faults = K.faults sink.old;
        })
        (record {
          left = S.left source.new;
          held = K.held sink.new;
          told = C.told clock.new;
          read_faults = S.faults source.new;
          write_faults = K.faults sink.new;
        })
        result.cuts.items result.end }
{
    match read_words(alloc, words) {
        Err(_) => with_status(End::Mem, Vec::new(alloc)),
        Ok(None) => with_status(say_usage(sink), Vec::new(alloc)),
        Ok(Some(command)) => serve(alloc, command, source, sink, clock),
    }
}

// Serves one session over a registry in which nothing is.
fn serve<S: Source, K: Sink, C: Clock>(
    alloc: Global,
    command: SessionWords,
    source: &mut S,
    sink: &mut K,
    clock: &mut C,
) -> Ended
    requires { 0 < length command.sites }
    ensures status { result.status ≡ exit_status result.end }
    ensures runs { RunsSession command.sites command.fixed
        (record {
          left = S.left source.old;
          held = K.held sink.old;
          told = C.told clock.old;
          read_faults = S.faults source.old;
          write_faults = K.faults sink.old;
        })
        (record {
          left = S.left source.new;
          held = K.held sink.new;
          told = C.told clock.new;
          read_faults = S.faults source.new;
          write_faults = K.faults sink.new;
        })
        result.cuts.items result.end }
{
    let SessionWords { fixed, sites } = command;
    match SoloDesk::new(alloc, sites.into_vec(), Limits::standard()) {
        Err(_) => with_status(End::Mem, Vec::new(alloc)),
        Ok(mut desk) => {
            let mode = Mode {
                control: false,
                fixed,
            };
            let ended = session_still(alloc, &mut desk, mode, source, sink, clock);
            with_status(ended.end, ended.cuts)
        }
    }
}

// Writes the lines of usage, and says how the command ends.
pub(crate) fn say_usage<K: Sink>(sink: &mut K) -> End
    ensures { SaysUsage (record { held = K.held sink.old; faults = K.faults sink.old })
        (record { held = K.held sink.new; faults = K.faults sink.new }) result }
{
    match send(sink, usage_text()) {
        Sent::Done => End::Usage,
        Sent::WriteFault => End::WriteFault,
    }
}

fn usage_text() -> &'static [u8]
    ensures { result.now ≡ usage_lines }
{
    b"usage: ecrd session [--control] [--clock S] SITE...\n\
      \x20      ecrd bulk SEED COUNT\n\
      \x20      ecrd serve [--workers N] [--copiers N] ADDRESS SITE...\n"
}

pub(crate) fn with_status(end: End, cuts: Vec<Cut>) -> Ended
    ensures status { result.status ≡ exit_status end }
    ensures end { result.end ≡ end }
    ensures cuts { result.cuts.items ≡ cuts.items }
{
    let status = match end {
        End::Whole => 0,
        End::Usage => 2,
        End::ReadFault => 3,
        End::WriteFault => 4,
        End::Mem => 5,
        End::AcceptFault => 6,
        End::Truncated { .. } => 7,
        End::Bad { .. } => 8,
        End::TooLong { .. } => 8,
        End::Spent => 9,
    };
    Ended { status, end, cuts }
}

// Calls of many callers on one desk, each in a thread of its own.
ghost use Rattle.std.specs.Prelude.{◌<◌, Contains, IfOk, IfSome, length};
ghost use Rattle.ecr_desk.specs.Desks.{IsOf};
ghost use Rattle.ecr_cells.specs.Shared.{pass_of, shared_of};

use crate::desks::{call_of, sites};
use ecr_blob_upload::Load;
use ecr_cells::{DeskPass, SharedDesk};
use ecr_desk::{Desk, Seen};
use ecr_model::{Call, Limits, Mem, Mutability, Name, RepoKey, SharedText, SiteId};
use std::alloc::Global;
use std::sync::Wait;
use std::thread::Threads;
use std::time::{Clock, Instant};
use std::{io, thread};

/// How many calls each case has in all, where each repository isn't touched once.
const CALLS: usize = 1_000_000;

/// One of the callers, and how often it calls on which of the names.
#[derive(Drop)]
struct Caller<'a, D: Desk> {
    desk: &'a D,
    pass: D::Pass,
    names: Vec<Name>,
    first: usize,
    calls: usize,
    ghost of: { IsOf (D.shared desk.now) (D.Pass.seen pass) },
}

impl<'a, D: Desk> Caller<'a, D> {
    // A description and a change by turns, of one name after another.
    fn go_round<R: Wait>(&mut self, rt: &R, alloc: Global) {
        for turn in 0..self.calls {
            if self.names.is_empty() {
                return;
            }
            let at = self.first.wrapping_add(turn) % self.names.len();
            let Ok(name) = self.names[at].clone() else {
                return;
            };
            let _ = self.call_once(rt, alloc, name, call_of(turn as u64));
        }
    }

    fn call_once<R: Wait>(
        &mut self,
        rt: &R,
        alloc: Global,
        name: Name,
        call: Call,
    ) -> Result<(), Mem> {
        let served = self.desk.served();
        if served.is_empty() {
            return Ok(());
        }
        let key = RepoKey {
            site: served[0].clone()?,
            name,
        };
        let Caller { desk, pass, .. } = self;
        let _answer = desk.call(rt, alloc, pass, &key, call, Load::Nothing, 1_700_000_000)?;
        Ok(())
    }
}

/// The cases of the page of figures.
pub(crate) fn time_all<R: Threads + Wait + Clock + Print + Sync>(
    rt: &R,
    alloc: Global,
) -> io::Result<()> {
    for threads in [1, 2, 4, 16] {
        print_case(rt, alloc, threads, 1)?;
    }
    for threads in [1, 2, 4, 16] {
        print_case(rt, alloc, threads, 16)?;
    }
    for threads in [1, 2, 4, 16] {
        print_case(rt, alloc, threads, 100_000)?;
    }
    Ok(())
}

/// Calls a second of so many threads on so many repositories. Where there are many, each caller touches each once, so
/// that what the program has in memory at last shows what a cell and a pass take.
pub(crate) fn print_case<R: Threads + Wait + Clock + Print + Sync>(
    rt: &R,
    alloc: Global,
    threads: usize,
    repositories: usize,
) -> io::Result<()> {
    let calls = if repositories > 16 {
        repositories
    } else {
        CALLS / threads.max(1)
    };
    let (desk, pass) = SharedDesk::new(alloc, sites(alloc)?, Limits::standard())?;
    let mut callers = callers_of(rt, alloc, &desk, pass, threads, repositories, calls)?;
    let took = time_callers::<R, SharedDesk>(rt, alloc, callers.as_mut_slice())?;
    let all = calls.saturating_mul(threads) as u128;
    let a_second = all * 1_000_000_000 / took.max(1);
    println!(rt; "threads: {threads}, repositories: {repositories}, calls a second: {a_second}")
}

/// So many callers, after the first of them has created the repositories.
fn callers_of<'a, R: Wait>(
    rt: &R,
    alloc: Global,
    desk: &'a SharedDesk,
    pass: DeskPass,
    threads: usize,
    repositories: usize,
    calls: usize,
) -> Result<Vec<Caller<'a, SharedDesk>>, Mem>
    requires of { IsOf (shared_of desk.now) (pass_of pass) }
{
    let mut pass = pass;
    let mut callers = Vec::new(alloc);
    for number in 1..threads {
        callers.push(Caller {
            desk,
            pass: desk.split(rt, alloc, &mut pass)?,
            names: names_of(alloc, repositories)?,
            first: number,
            calls,
        })?;
    }
    let mut first = Caller {
        desk,
        pass,
        names: names_of(alloc, repositories)?,
        first: 0,
        calls,
    };
    for at in 0..repositories {
        let create = Call::Create {
            mutability: Mutability::Mutable,
        };
        if at < first.names.len() {
            let name = first.names[at].clone()?;
            first.call_once(rt, alloc, name, create)?;
        }
    }
    callers.push(first)?;
    Ok(callers)
}

/// The names `team/app0`, `team/app1` and so on.
fn names_of(alloc: Global, count: usize) -> Result<Vec<Name>, Mem> {
    let mut names = Vec::with_capacity(alloc, count)?;
    for number in 0..count {
        let text = format!(in alloc; "team/app{number}")?;
        names.push(Name {
            text: SharedText::copy_of(alloc, text.as_bytes())?,
        })?;
    }
    Ok(names)
}

/// The nanoseconds until all callers are through.
fn time_callers<R: Threads + Wait + Clock + Sync, D: Desk + Sync>(
    rt: &R,
    alloc: Global,
    callers: &mut [Caller<D>],
) -> io::Result<u128>
where
    D::Pass: Send + Drop,
{
    let start = Instant::now(rt)?;
    thread::for_each_chunk_mut(
        rt,
        callers,
        1,
        &|_, part: &mut [Caller<D>]| {
            for caller in part.iter_mut() {
                caller.go_round(rt, alloc);
            }
        },
    );
    Ok(start.elapsed(rt)?.as_nanos())
}

// Calls on one repository, by a caller that is alone and by one at a desk of many.
ghost use Rattle.std.specs.Prelude.{Contains, IfOk, IfSome};

use ecr_blob_upload::Load;
use ecr_cells::{SharedDesk, SoloDesk};
use ecr_desk::{AnyDesk, AtDesk};
use ecr_model::{Call, Limits, Mem, Mutability, Name, RepoKey, SharedText, SiteId};
use std::alloc::Global;
use std::io;
use std::sync::Wait;
use std::time::{Clock, Instant};

const CALLS: u64 = 1_000_000;

/// A million calls on each of the desks, by one thread: a description and a change by turns.
pub(crate) fn time<R: Wait + Clock + Print>(rt: &R, alloc: Global) -> io::Result<()> {
    let mut solo = SoloDesk::new(alloc, sites(alloc)?, Limits::standard())?;
    time_calls(rt, alloc, "the desk of one caller", &mut solo)?;
    let (desk, pass) = SharedDesk::new(alloc, sites(alloc)?, Limits::standard())?;
    let mut caller = AtDesk::new(rt, &desk, pass);
    let timed = time_calls(rt, alloc, "the desk of many, by one of them", &mut caller);
    let _pass = caller.into_pass();
    timed
}

pub(crate) fn sites(alloc: Global) -> Result<Vec<SiteId>, Mem> {
    let site = SiteId {
        region: SharedText::copy_of(alloc, b"us-east-1")?,
        account: SharedText::copy_of(alloc, b"111122223333")?,
    };
    let sites = vec![in alloc; site]?;
    Ok(sites)
}

fn time_calls<R: Clock + Print, D: AnyDesk>(
    rt: &R,
    alloc: Global,
    name: &str,
    desk: &mut D,
) -> io::Result<()> {
    let app = Name {
        text: SharedText::copy_of(alloc, b"team/app")?,
    };
    let create = Call::Create {
        mutability: Mutability::Mutable,
    };
    call_once(alloc, desk, &app, create)?;
    let start = Instant::now(rt)?;
    for turn in 0..CALLS {
        call_once(alloc, desk, &app, call_of(turn))?;
    }
    let microseconds = start.elapsed(rt)?.as_micros().max(1);
    let a_second = (CALLS as u128 * 1_000_000) / microseconds;
    println!(rt; "{CALLS} calls on {name}: {a_second} a second")
}

/// A description in each even turn, and in the odd ones the tags are made immutable and mutable by turns.
pub(crate) fn call_of(turn: u64) -> Call {
    let mutability = if turn % 4 == 1 {
        Mutability::Immutable
    } else {
        Mutability::Mutable
    };
    if turn % 2 == 0 {
        Call::Describe
    } else {
        Call::SetMutability { mutability }
    }
}

fn call_once<D: AnyDesk>(alloc: Global, desk: &mut D, name: &Name, call: Call) -> Result<(), Mem> {
    let Some(site) = first_site(desk)? else {
        return Ok(());
    };
    let key = RepoKey {
        site,
        name: name.clone()?,
    };
    let _answer = desk.call(alloc, &key, call, Load::Nothing, 1_700_000_000)?;
    Ok(())
}

/// A copy of the first served site.
fn first_site<D: AnyDesk>(desk: &D) -> Result<Option<SiteId>, Mem>
    ensures { IfOk result (λ o. IfSome o (λ site. Contains (D.seen desk.now).realm.served site)) }
{
    let served = desk.served();
    if served.len() > 0 {
        return Ok(Some(served[0].clone()?));
    }
    Ok(None)
}

// Changes of one repository.
ghost use Rattle.std.specs.Prelude.{◌≡◌, ◌≤◌, ◌+◌, ◌<◌, ◌^◌, [], IfOk, OnOk};
ghost use Rattle.ecr_model.specs.registry.Journals.{past};

use ecr_blob_upload::Load;
use ecr_model::{Call, Limits, Line, Mem, Mutability, Name, RepoKey, SharedText, SiteId};
use ecr_repo::RepoState;
use std::alloc::Global;
use std::io;
use std::mem::size_of;
use std::time::Instant;

const CHANGES: u64 = 1_000_000;

/// A million changes of one repository, each of which has an entry.
pub(crate) fn time(rt: &HostRuntime) -> io::Result<()> {
    let alloc = rt.alloc();
    let mut state = app(alloc)?;
    let start = Instant::now(rt)?;
    change_often(alloc, &mut state)?;
    let microseconds = start.elapsed(rt)?.as_micros().max(1);
    let a_second = (state.entries() as u128 * 1_000_000) / microseconds;
    println!(rt;
        "{} changes of one repository: {a_second} a second",
        state.entries()
    )?;
    println!(rt; "{} bytes an entry", size_of::<Line>())
}

/// A name that was never used.
fn app(alloc: Global) -> Result<RepoState, Mem>
    ensures { IfOk result (λ s. s.journal ≡ []) }
{
    let site = SiteId {
        region: SharedText::copy_of(alloc, b"us-east-1")?,
        account: SharedText::copy_of(alloc, b"111122223333")?,
    };
    let name = Name {
        text: SharedText::copy_of(alloc, b"team/app")?,
    };
    Ok(RepoState::new(alloc, RepoKey { site, name }, Limits::standard()))
}

fn change_often(alloc: Global, state: &mut RepoState) -> Result<(), Mem>
    requires { past state.old.journal ≤ 0 }
{
    let mut ticket = 0u64;
    while ticket < CHANGES {
        change_once(alloc, state, ticket)?;
        ticket += 1;
    }
    Ok(())
}

/// Creates the repository in each even turn, and deletes it in each odd one.
fn change_once(alloc: Global, state: &mut RepoState, ticket: u64) -> Result<(), Mem>
    requires later { past state.old.journal ≤ ticket }
    ensures { OnOk result (past state.new.journal ≤ ticket + 1) }
{
    let call = call_of(ticket);
    let nowhere = Vec::new(alloc);
    let _outcome = state.change(
        alloc,
        ticket,
        0,
        &call,
        Load::Nothing,
        nowhere,
        1_700_000_000,
    )?;
    Ok(())
}

fn call_of(ticket: u64) -> Call {
    if ticket % 2 == 0 {
        Call::Create {
            mutability: Mutability::Mutable,
        }
    } else {
        Call::Delete { force: false }
    }
}

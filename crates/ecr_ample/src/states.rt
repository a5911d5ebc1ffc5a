// A directory and a repository after thousands of entries.
ghost use Rattle.std.specs.Prelude.{◌≡◌, ◌≤◌, ◌+◌, [], IfOk, OnOk};
ghost use Rattle.ecr_model.specs.registry.Journals.{past};

use crate::fixtures::{key, named, site};
use ecr_blob_upload::Load;
use ecr_model::{Call, Limits, Mem, Mutability, Page, SiteCall};
use ecr_repo::RepoState;
use ecr_site::SiteState;
use std::alloc::Global;
use std::test::Fail;

/// A site with no name.
fn directory(alloc: Global) -> Result<SiteState, Mem>
    ensures { IfOk result (λ s. s.journal ≡ []) }
{
    Ok(SiteState::new(alloc, site(alloc)?, Vec::new(alloc), Limits::standard()))
}

/// Three thousand entries: each name is entered, and then known.
fn register_often(alloc: Global, state: &mut SiteState) -> Result<(), Mem>
    requires { past state.old.journal ≤ 0 }
{
    let mut ticket = 0u64;
    while ticket < 3_000 {
        register_once(alloc, state, ticket)?;
        ticket += 1;
    }
    Ok(())
}

fn register_once(alloc: Global, state: &mut SiteState, ticket: u64) -> Result<(), Mem>
    requires later { past state.old.journal ≤ ticket }
    ensures { OnOk result (past state.new.journal ≤ ticket + 1) }
{
    let text = format!(in alloc; "farm/r{}", ticket / 2)?;
    let name = named(alloc, text.as_str())?;
    let _registered = state.register(ticket, 0, &name)?;
    Ok(())
}

#[test]
fn a_directory_answers_after_thousands_of_names(rt: HostRuntime) -> Result<(), Fail> {
    let alloc = rt.alloc();
    let mut state = directory(alloc)?;
    register_often(alloc, &mut state)?;
    for (from, max) in [
        (0, 1),
        (0, 1000),
        (1_400, 1000),
        (1_500, 1),
        (18_446_744_073_709_551_615, 1),
    ] {
        let call = SiteCall::Names {
            page: Page { from, max },
        };
        assert!(rt; state.names(alloc, from, max).is_ok(), "{from} {max}");
        assert!(rt; state.answer(alloc, call).is_ok(), "{from} {max}");
    }
    Ok(())
}

/// A name that was never used.
fn repository(alloc: Global) -> Result<RepoState, Mem>
    ensures { IfOk result (λ s. s.journal ≡ []) }
{
    Ok(RepoState::new(alloc, key(alloc, "team/app")?, Limits::standard()))
}

/// Five thousand calls, of which each but a description has an entry.
fn change_often(alloc: Global, state: &mut RepoState) -> Result<(), Mem>
    requires { past state.old.journal ≤ 0 }
{
    let mut ticket = 0u64;
    while ticket < 5_000 {
        change_once(alloc, state, ticket)?;
        ticket += 1;
    }
    Ok(())
}

fn change_once(alloc: Global, state: &mut RepoState, ticket: u64) -> Result<(), Mem>
    requires later { past state.old.journal ≤ ticket }
    ensures { OnOk result (past state.new.journal ≤ ticket + 1) }
{
    let call = call_of(ticket);
    let nowhere = Vec::new(alloc);
    let _outcome = state.change(
        alloc,
        ticket,
        0,
        &call,
        Load::Nothing,
        nowhere,
        1_700_000_000,
    )?;
    Ok(())
}

/// The call of that turn: a repository is made, described, set, deleted by turns.
fn call_of(turn: u64) -> Call {
    let mutability = Mutability::Mutable;
    match turn % 5 {
        0 => Call::Create { mutability },
        1 => Call::Describe,
        2 => Call::SetMutability {
            mutability: Mutability::Immutable,
        },
        3 => Call::SetMutability { mutability },
        _ => Call::Delete {
            force: turn % 2 == 0,
        },
    }
}

#[test]
fn a_repository_answers_after_thousands_of_entries(rt: HostRuntime) -> Result<(), Fail> {
    let alloc = rt.alloc();
    let mut state = repository(alloc)?;
    change_often(alloc, &mut state)?;
    assert_eq!(rt; state.entries(), 4_000);
    assert!(rt; state.answer(alloc, &Call::Describe).is_ok());
    Ok(())
}

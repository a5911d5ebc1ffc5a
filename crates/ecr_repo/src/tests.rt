ghost use Rattle.std.specs.Prelude.{◌≡◌, ◌≤◌, ◌+◌, ◌<◌, ◌^◌, [], IfOk};
ghost use Rattle.ecr_model.specs.registry.Journals.{past};

use crate::RepoState;
use ecr_blob_upload::{Load, Outcome};
use ecr_model::{
    Call, Described, Limits, Line, Mem, Moment, Mutability, Name, Refusal, Reply, RepoKey,
    SharedText, SiteId,
};
use std::alloc::Global;
use std::mem::size_of;
use std::test::Fail;

// The moment of the first turn, in seconds. Each turn is a second after the one before.
const FIRST: Moment = 1_700_000_000;

// A call, in short.
#[derive(Clone, Copy)]
enum Ask {
    Create(Mutability),
    Delete(bool),
    Describe,
    Set(Mutability),
}

// A repository comes and goes: the caller of each turn, its call, and what comes of it.
const TURNS: [(u64, Ask, &str); 13] = [
    (9, Ask::Describe, "not found"),
    (9, Ask::Delete(true), "not found"),
    (9, Ask::Set(Mutability::Mutable), "not found"),
    (
        1,
        Ask::Create(Mutability::Mutable),
        "created 1700000003 Mutable, changed",
    ),
    (9, Ask::Create(Mutability::Immutable), "exists"),
    (9, Ask::Set(Mutability::Mutable), "set Mutable"),
    (2, Ask::Set(Mutability::Immutable), "set Immutable, changed"),
    (9, Ask::Describe, "team/app 1700000003 Immutable"),
    (
        3,
        Ask::Delete(false),
        "deleted 1700000003 Immutable, changed",
    ),
    (9, Ask::Describe, "not found"),
    (9, Ask::Delete(false), "not found"),
    (
        4,
        Ask::Create(Mutability::Mutable),
        "created 1700000011 Mutable, changed",
    ),
    (9, Ask::Set(Mutability::Mutable), "set Mutable"),
];

fn call_of(ask: Ask) -> Call {
    match ask {
        Ask::Create(mutability) => Call::Create { mutability },
        Ask::Delete(force) => Call::Delete { force },
        Ask::Describe => Call::Describe,
        Ask::Set(mutability) => Call::SetMutability { mutability },
    }
}

// A name that was never used.
fn app(alloc: Global) -> Result<RepoState, Mem>
    ensures { IfOk result (λ s. s.journal ≡ []) }
{
    let site = SiteId {
        region: SharedText::copy_of(alloc, b"us-east-1")?,
        account: SharedText::copy_of(alloc, b"111122223333")?,
    };
    let name = Name {
        text: SharedText::copy_of(alloc, b"team/app")?,
    };
    Ok(RepoState::new(alloc, RepoKey { site, name }, Limits::standard()))
}

// Makes the call in that turn, and tells what came of it.
fn made(
    alloc: Global,
    state: &mut RepoState,
    ticket: u64,
    caller: u64,
    ask: Ask,
) -> Result<String, Mem>
    requires now { ticket < 2 ^ 32 }
    requires later { past state.old.journal ≤ ticket }
    ensures later { past state.new.journal ≤ ticket + 1 }
{
    let moment = FIRST + ticket;
    let nowhere = Vec::new(alloc);
    let call = call_of(ask);
    let outcome = state.change(alloc, ticket, caller, &call, Load::Nothing, nowhere, moment)?;
    spent(alloc, outcome)
}

// What came of a call, which is then let go.
fn spent(alloc: Global, outcome: Outcome) -> Result<String, Mem> {
    told(alloc, &outcome)
}

// What came of a call, in words.
fn told(alloc: Global, outcome: &Outcome) -> Result<String, Mem> {
    let change = if outcome.changed { ", changed" } else { "" };
    match &outcome.reply {
        Reply::Created {
            created,
            mutability,
        } => format!(in alloc; "created {created} {mutability:?}{change}"),
        Reply::Deleted {
            created,
            mutability,
        } => format!(in alloc; "deleted {created} {mutability:?}{change}"),
        Reply::MutabilitySet { mutability } => format!(in alloc; "set {mutability:?}{change}"),
        Reply::Described { rows, next: None } => match rows.as_slice() {
            [row] => shown(alloc, row),
            _ => format!(in alloc; "rows"),
        },
        Reply::Refused(Refusal::RepositoryAlreadyExists) => format!(in alloc; "exists{change}"),
        Reply::Refused(Refusal::RepositoryNotFound) => format!(in alloc; "not found{change}"),
        _ => format!(in alloc; "another"),
    }
}

// One row of a reply, in words.
fn shown(alloc: Global, row: &Described) -> Result<String, Mem> {
    let name = str::from_utf8(row.name.text.as_bytes()).unwrap_or("no text");
    format!(in alloc; "{name} {} {:?}", row.created, row.mutability)
}

#[test]
fn a_repository_comes_and_goes(rt: HostRuntime) -> Result<(), Fail> {
    let alloc = rt.alloc();
    let mut state = app(alloc)?;
    for (ticket, (caller, ask, expected)) in TURNS.iter().enumerate() {
        let words = made(alloc, &mut state, ticket as u64, *caller, *ask)?;
        assert_eq!(rt; words.as_str(), *expected, "{ticket}");
    }
    let now = state.answer(alloc, &Call::Describe)?;
    assert_eq!(rt; spent(alloc, now)?.as_str(), "team/app 1700000011 Mutable");
    assert_eq!(rt; state.entries(), 4);
    let entered = [
        (3, 1, 1_700_000_003),
        (6, 2, 1_700_000_006),
        (8, 3, 1_700_000_008),
        (11, 4, 1_700_000_011),
    ];
    for (line, expected) in state.journal().iter().zip(entered.iter()) {
        assert_eq!(rt; (line.ticket, line.caller, line.entry.moment), *expected);
    }
    Ok(())
}

#[test]
fn an_entry_is_small(rt: HostRuntime) -> Result<(), Fail> {
    assert_eq!(rt; size_of::<Line>(), 72);
    Ok(())
}

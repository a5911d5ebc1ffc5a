ghost use Rattle.std.specs.Prelude.{Contains, IfOk, IfSome};
ghost use Rattle.ecr_cells.specs.Desks.{still_state_of};

use crate::SoloDesk;
use crate::cells::copy_of;
use ecr_blob_upload::Load;
use ecr_desk::{Answer, AnyDesk};
use ecr_model::{
    Call, CellKey, Described, Limits, Mem, Moment, Mutability, Name, Page, Place, Refusal, Reply,
    RepoKey, SharedText, SiteCall, SiteId, SiteReply,
};
use std::alloc::Global;
use std::test::Fail;

// The moment of the first call, in seconds. Each call is a second after the one before.
pub(crate) const FIRST: Moment = 1_700_000_000;

// A desk with two sites, and this limit of names.
pub(crate) fn two_sites(alloc: Global, names: u64) -> Result<SoloDesk, Mem> {
    let mut limits = Limits::standard();
    limits.names = names;
    SoloDesk::new(alloc, sites(alloc)?, limits)
}

// The two sites.
pub(crate) fn sites(alloc: Global) -> Result<Vec<SiteId>, Mem> {
    let sites = vec![in alloc; site(alloc, b"us-east-1")?, site(alloc, b"eu-west-1")?]?;
    Ok(sites)
}

fn site(alloc: Global, region: &[u8]) -> Result<SiteId, Mem> {
    Ok(SiteId {
        region: SharedText::copy_of(alloc, region)?,
        account: SharedText::copy_of(alloc, b"111122223333")?,
    })
}

// A copy of the desk's site at that place.
fn site_at(desk: &SoloDesk, at: usize) -> Result<Option<SiteId>, Mem>
    ensures { IfOk result (λ o. IfSome o (λ site. Contains (still_state_of desk.now).realm.served site)) }
{
    let served = desk.served();
    if at < served.len() {
        return Ok(Some(copy_of(&served[at])?));
    }
    Ok(None)
}

// Makes the call at the site of that place, and tells what came of it.
fn made(
    alloc: Global,
    desk: &mut SoloDesk,
    at: usize,
    name: &str,
    call: Call,
    moment: Moment,
) -> Result<String, Mem> {
    let answer = answered(alloc, desk, at, name, call, moment)?;
    told(alloc, &answer)
}

// Makes the call at the site of that place.
pub(crate) fn answered(
    alloc: Global,
    desk: &mut SoloDesk,
    at: usize,
    name: &str,
    call: Call,
    moment: Moment,
) -> Result<Answer, Mem> {
    let Some(site) = site_at(desk, at)? else {
        return Err(Mem);
    };
    let name = Name {
        text: SharedText::copy_of(alloc, name.as_bytes())?,
    };
    desk.call(alloc, &RepoKey { site, name }, call, Load::Nothing, moment)
}

// What came of a call, and where it was decided, in words.
fn told(alloc: Global, answer: &Answer) -> Result<String, Mem> {
    let mut words = replied(alloc, &answer.reply)?;
    for place in answer.places.iter() {
        words.push_str(decided(alloc, place)?.as_str())?;
    }
    Ok(words)
}

pub(crate) fn replied(alloc: Global, reply: &Reply) -> Result<String, Mem> {
    match reply {
        Reply::Created { created, .. } => format!(in alloc; "created {created}"),
        Reply::Deleted { created, .. } => format!(in alloc; "deleted {created}"),
        Reply::MutabilitySet { mutability } => format!(in alloc; "set {mutability:?}"),
        Reply::Described { rows, .. } => match rows.as_slice() {
            [row] => shown(alloc, row),
            _ => format!(in alloc; "rows"),
        },
        Reply::Refused(Refusal::RepositoryAlreadyExists) => format!(in alloc; "exists"),
        Reply::Refused(Refusal::RepositoryNotFound) => format!(in alloc; "not found"),
        Reply::Refused(Refusal::LimitExceeded { limit, count }) => {
            format!(in alloc; "full {limit} {count}")
        }
        _ => format!(in alloc; "another"),
    }
}

fn shown(alloc: Global, row: &Described) -> Result<String, Mem> {
    format!(in alloc;
        "{} {} {:?}",
        read(&row.name.text),
        row.created,
        row.mutability
    )
}

fn decided(alloc: Global, place: &Place) -> Result<String, Mem> {
    let change = if place.changed { "+" } else { "" };
    let ticket = place.ticket;
    match &place.cell {
        CellKey::Directory(site) => {
            format!(in alloc; ", {} {ticket}{change}", read(&site.region))
        }
        CellKey::Repository(key) => {
            let region = read(&key.site.region);
            format!(in alloc; ", {region}/{} {ticket}{change}", read(&key.name.text))
        }
    }
}

pub(crate) fn read(text: &SharedText) -> &str {
    str::from_utf8(text.as_bytes()).unwrap_or("no text")
}

pub(crate) fn create() -> Call {
    Call::Create {
        mutability: Mutability::Mutable,
    }
}

#[test]
fn a_repository_comes_and_goes(rt: HostRuntime) -> Result<(), Fail> {
    let alloc = rt.alloc();
    let mut desk = two_sites(alloc, 100)?;
    let mutability = Mutability::Immutable;
    let calls = [
        (0, Call::Describe, "not found, us-east-1 0", 0),
        (
            0,
            create(),
            "created 1700000001, us-east-1 0+, us-east-1/app 0+",
            2,
        ),
        (0, create(), "exists, us-east-1 1, us-east-1/app 1", 2),
        (
            0,
            Call::SetMutability { mutability },
            "set Immutable, us-east-1 1, us-east-1/app 1+",
            3,
        ),
        (
            0,
            Call::Describe,
            "app 1700000001 Immutable, us-east-1 1, us-east-1/app 2",
            3,
        ),
        (1, Call::Describe, "not found, eu-west-1 0", 3),
        (
            1,
            create(),
            "created 1700000006, eu-west-1 0+, eu-west-1/app 0+",
            5,
        ),
        (
            0,
            Call::Delete { force: false },
            "deleted 1700000001, us-east-1 1, us-east-1/app 2+",
            6,
        ),
        (
            0,
            Call::Describe,
            "not found, us-east-1 1, us-east-1/app 3",
            6,
        ),
        (
            1,
            Call::Describe,
            "app 1700000006 Mutable, eu-west-1 1, eu-west-1/app 1",
            6,
        ),
        (
            0,
            create(),
            "created 1700000010, us-east-1 1, us-east-1/app 3+",
            7,
        ),
    ];
    for (turn, (at, call, expected, count)) in calls.iter().enumerate() {
        let words = made(
            alloc,
            &mut desk,
            *at,
            "app",
            call.clone()?,
            FIRST + turn as u64,
        )?;
        assert_eq!(rt; words.as_str(), *expected);
        assert_eq!(rt; desk.made(), *count);
    }
    Ok(())
}

#[test]
fn a_name_too_many_is_refused(rt: HostRuntime) -> Result<(), Fail> {
    let alloc = rt.alloc();
    let mut desk = two_sites(alloc, 2)?;
    let calls = [
        (
            "b",
            create(),
            "created 1700000000, us-east-1 0+, us-east-1/b 0+",
        ),
        (
            "a",
            create(),
            "created 1700000000, us-east-1 1+, us-east-1/a 0+",
        ),
        ("c", create(), "full 2 2, us-east-1 2"),
        ("c", Call::Describe, "not found, us-east-1 2"),
        ("a", create(), "exists, us-east-1 2, us-east-1/a 1"),
    ];
    for (name, call, expected) in calls.iter() {
        let words = made(alloc, &mut desk, 0, name, call.clone()?, FIRST)?;
        assert_eq!(rt; words.as_str(), *expected);
    }
    assert_eq!(rt; desk.made(), 4);
    let pages = [
        (0, 0, 1, "a, more, us-east-1 2"),
        (0, 0, 2, "a, b, us-east-1 2"),
        (0, 1, 5, "b, us-east-1 2"),
        (0, 0, 0, "more, us-east-1 2"),
        (0, 18_446_744_073_709_551_615, 4_294_967_295, "us-east-1 2"),
        (1, 0, 5, "eu-west-1 0"),
    ];
    for (at, from, max, expected) in pages.iter() {
        let page = Page {
            from: *from,
            max: *max,
        };
        assert_eq!(rt; listed(alloc, &mut desk, *at, page)?.as_str(), *expected);
    }
    Ok(())
}

// The names of the page at the site of that place, whether there are more, and where that was decided.
fn listed(alloc: Global, desk: &mut SoloDesk, at: usize, page: Page) -> Result<String, Mem> {
    let Some(site) = site_at(desk, at)? else {
        return format!(in alloc; "not served");
    };
    let answer = desk.registry(alloc, &site, SiteCall::Names { page })?;
    let mut words = String::new(alloc);
    match &answer.reply {
        SiteReply::Names { names, more } => {
            for name in names.as_slice() {
                words.push_str(read(&name.text))?;
                words.push_str(", ")?;
            }
            if *more {
                words.push_str("more, ")?;
            }
        }
        SiteReply::Refused(_) => words.push_str("refused, ")?,
    }
    match &answer.place.cell {
        CellKey::Directory(site) => words.push_str(read(&site.region))?,
        CellKey::Repository(_) => words.push_str("another")?,
    }
    words.push_str(format!(in alloc; " {}", answer.place.ticket)?.as_str())?;
    Ok(words)
}

ghost use Rattle.std.specs.Prelude.{Contains, IfOk, IfSome};
ghost use Rattle.ecr_desk.specs.Desks.{IsOf};
ghost use Rattle.ecr_cells.specs.Shared.{pass_of, shared_of};

use crate::cells::copy_of;
use crate::tests::{FIRST, answered as on_solo, create, read, replied, sites, two_sites};
use crate::{DeskPass, SharedDesk};
use ecr_blob_upload::Load;
use ecr_desk::{Answer, AnyDesk, Desk};
use ecr_model::{
    Call, CellKey, Limits, Mem, Moment, Mutability, Name, Place, RepoKey, SharedText, SiteId,
};
use std::alloc::Global;
use std::sync::Wait;
use std::test::Fail;

// A desk with two sites and this limit of names, and the first pass to it.
pub(crate) fn opened(alloc: Global, names: u64) -> Result<(SharedDesk, DeskPass), Mem>
    ensures { IfOk result (λ r. IsOf (shared_of r.0) (pass_of r.1)) }
{
    let mut limits = Limits::standard();
    limits.names = names;
    SharedDesk::new(alloc, sites(alloc)?, limits)
}

// A copy of the desk's site at that place.
pub(crate) fn site_at(desk: &SharedDesk, at: usize) -> Result<Option<SiteId>, Mem>
    ensures { IfOk result (λ o. IfSome o (λ site. Contains (shared_of desk.now).realm.served site)) }
{
    let served = desk.served();
    if at < served.len() {
        return Ok(Some(copy_of(&served[at])?));
    }
    Ok(None)
}

// The repository of that name at the site of that place.
pub(crate) fn key_at(
    desk: &SharedDesk,
    alloc: Global,
    at: usize,
    name: &str,
) -> Result<Option<RepoKey>, Mem>
    ensures { IfOk result (λ o. IfSome o (λ key. Contains (shared_of desk.now).realm.served key.site)) }
{
    let Some(site) = site_at(desk, at)? else {
        return Ok(None);
    };
    let name = Name {
        text: SharedText::copy_of(alloc, name.as_bytes())?,
    };
    Ok(Some(RepoKey { site, name }))
}

// Makes the call at the site of that place.
pub(crate) fn answered<W: Wait>(
    rt: &W,
    alloc: Global,
    desk: &SharedDesk,
    pass: &mut DeskPass,
    at: usize,
    name: &str,
    call: Call,
    moment: Moment,
) -> Result<Answer, Mem>
    requires { IsOf (shared_of desk.now) (pass_of pass.old) }
    ensures { IsOf (shared_of desk.now) (pass_of pass.new) }
{
    let Some(key) = key_at(desk, alloc, at, name)? else {
        return Err(Mem);
    };
    desk.call(rt, alloc, pass, &key, call, Load::Nothing, moment)
}

// Makes the call at the site of that place, and tells what came of it.
pub(crate) fn made<W: Wait>(
    rt: &W,
    alloc: Global,
    desk: &SharedDesk,
    pass: &mut DeskPass,
    at: usize,
    name: &str,
    call: Call,
    moment: Moment,
) -> Result<String, Mem>
    requires { IsOf (shared_of desk.now) (pass_of pass.old) }
    ensures { IsOf (shared_of desk.now) (pass_of pass.new) }
{
    let answer = answered(rt, alloc, desk, pass, at, name, call, moment)?;
    told(alloc, &answer)
}

// What came of a call, and in which cells it was decided, in words.
fn told(alloc: Global, answer: &Answer) -> Result<String, Mem> {
    let mut words = replied(alloc, &answer.reply)?;
    for place in answer.places.iter() {
        words.push_str(decided(alloc, place)?.as_str())?;
    }
    Ok(words)
}

pub(crate) fn decided(alloc: Global, place: &Place) -> Result<String, Mem> {
    let change = if place.changed { "+" } else { "" };
    match &place.cell {
        CellKey::Directory(site) => format!(in alloc; ", {}{change}", read(&site.region)),
        CellKey::Repository(key) => {
            let region = read(&key.site.region);
            format!(in alloc; ", {region}/{}{change}", read(&key.name.text))
        }
    }
}

#[test]
fn a_second_caller_sees_what_the_first_one_did(rt: HostRuntime) -> Result<(), Fail> {
    let alloc = rt.alloc();
    let (desk, mut first) = opened(alloc, 100)?;
    let words = made(&rt, alloc, &desk, &mut first, 0, "app", create(), FIRST)?;
    assert_eq!(rt;
        words.as_str(),
        "created 1700000000, us-east-1+, us-east-1/app+"
    );
    let mut second = desk.split(&rt, alloc, &mut first)?;
    let words = made(&rt, alloc, &desk, &mut second, 0, "app", create(), FIRST)?;
    assert_eq!(rt; words.as_str(), "exists, us-east-1, us-east-1/app");
    let mutability = Mutability::Immutable;
    let call = Call::SetMutability { mutability };
    let words = made(&rt, alloc, &desk, &mut second, 0, "app", call, FIRST)?;
    assert_eq!(rt; words.as_str(), "set Immutable, us-east-1, us-east-1/app+");
    let words = made(&rt, alloc, &desk, &mut second, 0, "web", create(), FIRST)?;
    assert_eq!(rt;
        words.as_str(),
        "created 1700000000, us-east-1+, us-east-1/web+"
    );

    // The first caller has a door to "app" already, and none to "web".
    let words = made(
        &rt,
        alloc,
        &desk,
        &mut first,
        0,
        "app",
        Call::Describe,
        FIRST,
    )?;
    assert_eq!(rt;
        words.as_str(),
        "app 1700000000 Immutable, us-east-1, us-east-1/app"
    );
    let words = made(
        &rt,
        alloc,
        &desk,
        &mut first,
        0,
        "web",
        Call::Describe,
        FIRST,
    )?;
    assert_eq!(rt;
        words.as_str(),
        "web 1700000000 Mutable, us-east-1, us-east-1/web"
    );
    assert_eq!(rt; desk.made(&first), 2);
    assert_eq!(rt; desk.made(&second), 3);
    Ok(())
}

#[test]
fn one_of_many_is_answered_as_one_alone(rt: HostRuntime) -> Result<(), Fail> {
    let alloc = rt.alloc();
    let (desk, mut pass) = opened(alloc, 2)?;
    let mut solo = two_sites(alloc, 2)?;
    let mutability = Mutability::Immutable;
    let calls = [
        (0, "app", Call::Describe),
        (0, "app", create()),
        (0, "app", Call::SetMutability { mutability }),
        (0, "app", create()),
        (1, "app", Call::Describe),
        (0, "web", create()),
        (0, "api", create()),
        (0, "web", Call::Delete { force: false }),
        (0, "web", Call::Describe),
        (0, "web", create()),
        (1, "api", create()),
    ];
    for (at, name, call) in calls.iter() {
        let one = made(
            &rt,
            alloc,
            &desk,
            &mut pass,
            *at,
            name,
            call.clone()?,
            FIRST,
        )?;
        let answer = on_solo(alloc, &mut solo, *at, name, call.clone()?, FIRST)?;
        assert_eq!(rt; one, told(alloc, &answer)?);
        assert_eq!(rt; desk.made(&pass), solo.made());
    }
    Ok(())
}

// Desks after thousands of entries.
ghost use Rattle.std.specs.Prelude.{Contains, IfOk, IfSome};
ghost use Rattle.ecr_desk.specs.Desks.{IsOf};
ghost use Rattle.ecr_cells.specs.Shared.{pass_of, shared_of};

use crate::fixtures::{named, site, site_in};
use ecr_blob_upload::Load;
use ecr_cells::{DeskPass, SharedDesk, SoloDesk};
use ecr_desk::{AnyDesk, AtDesk, Desk};
use ecr_model::{Call, Limits, Mem, Mutability, Page, RepoKey, SiteCall, SiteId};
use ecr_outside::OpenGate;
use std::alloc::Global;
use std::process::Abort;
use std::sync::Wait;
use std::test::Fail;

/// A copy of the first served site.
fn first_site<D: AnyDesk>(desk: &D) -> Result<Option<SiteId>, Mem>
    ensures { IfOk result (λ o. IfSome o (λ site. Contains (D.seen desk.now).realm.served site)) }
{
    let served = desk.served();
    if served.len() > 0 {
        return Ok(Some(served[0].clone()?));
    }
    Ok(None)
}

/// Whether the call on that name is answered.
fn is_answered<D: AnyDesk>(
    alloc: Global,
    desk: &mut D,
    name: &str,
    call: Call,
) -> Result<bool, Mem> {
    let Some(site) = first_site(desk)? else {
        return Ok(false);
    };
    let name = named(alloc, name)?;
    let key = RepoKey { site, name };
    Ok(
        desk.call(alloc, &key, call, Load::Nothing, 1_700_000_000)
            .is_ok(),
    )
}

/// Whether a page of 1,000 names is answered.
fn is_listed<D: AnyDesk>(alloc: Global, desk: &mut D) -> Result<bool, Mem> {
    let Some(site) = first_site(desk)? else {
        return Ok(false);
    };
    let call = SiteCall::Names {
        page: Page { from: 0, max: 1000 },
    };
    Ok(desk.registry(alloc, &site, call).is_ok())
}

/// Each call is answered while 1,500 names are created and one repository is changed 3,000 times; these are 6,000 entries.
fn check_desk<D: AnyDesk>(rt: &impl Abort, alloc: Global, desk: &mut D) -> Result<(), Mem> {
    for number in 0..1_500u32 {
        let name = format!(in alloc; "farm/r{number}")?;
        let mutability = Mutability::Mutable;
        let call = Call::Create { mutability };
        assert!(rt;
            is_answered(alloc, desk, name.as_str(), call)?,
            "{number} is created"
        );
    }
    for turn in 0..3_000u32 {
        let mutability = if turn % 2 == 0 {
            Mutability::Immutable
        } else {
            Mutability::Mutable
        };
        let call = Call::SetMutability { mutability };
        assert!(rt; is_answered(alloc, desk, "farm/r0", call)?, "change {turn}");
    }
    assert!(rt; is_answered(alloc, desk, "farm/no", Call::Describe)?);
    assert!(rt; is_answered(alloc, desk, "farm/r1", Call::Describe)?);
    assert!(rt; is_listed(alloc, desk)?);
    assert!(rt; is_answered(alloc, desk, "farm/r1", Call::Delete { force: true })?);
    assert_eq!(rt; desk.made(), 6_001);
    Ok(())
}

fn one_site(alloc: Global) -> Result<Vec<SiteId>, Mem> {
    let sites = vec![in alloc; site(alloc)?]?;
    Ok(sites)
}

/// A desk of many with one site, and its first pass.
fn opened(alloc: Global) -> Result<(SharedDesk, DeskPass), Mem>
    ensures { IfOk result (λ r. IsOf (shared_of r.0) (pass_of r.1)) }
{
    SharedDesk::new(alloc, one_site(alloc)?, Limits::standard())
}

#[test]
fn a_desk_answers_after_thousands_of_entries(rt: HostRuntime) -> Result<(), Fail> {
    let alloc = rt.alloc();
    let mut solo = SoloDesk::new(alloc, one_site(alloc)?, Limits::standard())?;
    check_desk(&rt, alloc, &mut solo)?;
    Ok(())
}

#[test]
fn a_desk_of_many_answers_after_thousands_of_entries(rt: HostRuntime) -> Result<(), Fail> {
    let alloc = rt.alloc();
    let (desk, pass) = opened(alloc)?;
    let mut caller = AtDesk::new(&rt, &desk, pass);
    let checked = check_desk(&rt, alloc, &mut caller);
    let _pass = caller.into_pass();
    checked?;
    Ok(())
}

/// Whether a pass is split off. The one that it is split off from is as before.
fn is_split<W: Wait>(rt: &W, alloc: Global, desk: &SharedDesk, pass: &mut DeskPass) -> bool
    requires { IsOf (shared_of desk.now) (pass_of pass.old) }
    ensures { IsOf (shared_of desk.now) (pass_of pass.new) }
{
    desk.split(rt, alloc, pass).is_ok()
}

/// Whether a repository of that name is held.
fn is_held<W: Wait>(
    rt: &W,
    alloc: Global,
    desk: &SharedDesk,
    pass: &mut DeskPass,
    name: &str,
) -> Result<bool, Mem>
    requires { IsOf (shared_of desk.now) (pass_of pass.old) }
    ensures { IsOf (shared_of desk.now) (pass_of pass.new) }
{
    let Some(site) = served_site(desk)? else {
        return Ok(false);
    };
    let name = named(alloc, name)?;
    let key = RepoKey { site, name };
    Ok(desk.hold(rt, alloc, pass, &key, 0, &OpenGate).is_ok())
}

/// A copy of the first site of a desk of many.
fn served_site(desk: &SharedDesk) -> Result<Option<SiteId>, Mem>
    ensures { IfOk result (λ o. IfSome o (λ site. Contains (shared_of desk.now).realm.served site)) }
{
    let served = desk.served();
    if served.len() > 0 {
        return Ok(Some(served[0].clone()?));
    }
    Ok(None)
}

/// How many of a thousand passes are split off, and how many holds of a name that isn't there are answered.
fn split_often<W: Wait>(
    rt: &W,
    alloc: Global,
    desk: &SharedDesk,
    pass: &mut DeskPass,
) -> Result<(u32, u32), Mem>
    requires { IsOf (shared_of desk.now) (pass_of pass.old) }
    ensures { IsOf (shared_of desk.now) (pass_of pass.new) }
{
    let mut split = 0u32;
    let mut held = 0u32;
    for _ in 0..1_000u32 {
        if is_split(rt, alloc, desk, pass) {
            split = split.saturating_add(1);
        }
        if is_held(rt, alloc, desk, pass, "no/name")? {
            held = held.saturating_add(1);
        }
    }
    Ok((split, held))
}

#[test]
fn a_pass_is_split_many_times(rt: HostRuntime) -> Result<(), Fail> {
    let alloc = rt.alloc();
    let (desk, mut pass) = opened(alloc)?;
    assert_eq!(rt; split_often(&rt, alloc, &desk, &mut pass)?, (1_000, 1_000));
    Ok(())
}

#[test]
fn desks_of_many_sites_are_made(rt: HostRuntime) -> Result<(), Fail> {
    let alloc = rt.alloc();
    for count in [1u32, 8, 64] {
        for of_many in [false, true] {
            let mut sites = Vec::new(alloc);
            for number in 0..count {
                let region = format!(in alloc; "us-east-{number}")?;
                sites.push(site_in(alloc, region.as_str())?)?;
            }
            let is_made = if of_many {
                SharedDesk::new(alloc, sites, Limits::standard()).is_ok()
            } else {
                SoloDesk::new(alloc, sites, Limits::standard()).is_ok()
            };
            assert!(rt; is_made, "{count} sites");
        }
    }
    Ok(())
}

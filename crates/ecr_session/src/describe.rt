// DescribeRepositories (Amazon ECR API Reference): one call on each repository, in the order of the reply.
ghost use Rattle.std.specs.Prelude.{◌≡◌, ◌<◌, ◌^◌, [], None, Some, length, Contains, IfOk, OnErr};
ghost use Rattle.ecr_model.specs.requests.Requests.{describe_script, key_at, listed_script, named_script, next_place, one_script};
ghost use Rattle.ecr_session.specs.Turns.{IsDescribed, RanWith, StoppedWith};

use crate::turns::{Decided, call_at, site_at};
use ecr_blob_upload::Load;
use ecr_desk::AnyDesk;
use ecr_model::{
    Call, Described, Listed, Mem, Moment, Name, Page, Place, Refusal, Reply, RepoKey, SiteCall,
    SiteId, SiteReply,
};
use std::alloc::Global;

/// The named repositories, or else those of a page of the site's names.
#[tactic(auto, unfolding(ecr_model::specs::requests::Requests::describe_script))]
pub(crate) fn describe<D: AnyDesk>(
    alloc: Global,
    desk: &mut D,
    site: &SiteId,
    names: &Option<Listed<Name>>,
    page: Page,
    moment: Moment,
    places: &mut Vec<Place>,
) -> Result<Reply, Mem>
    requires served { Contains (D.seen desk.old).realm.served site.now }
    requires from { page.from < 2 ^ 63 }
    ensures ran { IfOk result
        (λ r. RanWith (D.seen desk.old) (D.seen desk.new)
        (describe_script site.now names.now page moment) r places.old.items places.new.items) }
    ensures stopped { OnErr result
        (StoppedWith (D.seen desk.old) (D.seen desk.new)
        (describe_script site.now names.now page moment) places.old.items places.new.items) }
{
    match names {
        Some(names) => describe_named(alloc, desk, site, names.as_slice(), moment, places),
        None => describe_page(alloc, desk, site, page, moment, places),
    }
}

/// The named repositories in order, up to the first that is refused.
fn describe_named<D: AnyDesk>(
    alloc: Global,
    desk: &mut D,
    site: &SiteId,
    names: &[Name],
    moment: Moment,
    places: &mut Vec<Place>,
) -> Result<Reply, Mem>
    requires served { Contains (D.seen desk.old).realm.served site.now }
    ensures ran { IfOk result
        (λ r. RanWith (D.seen desk.old) (D.seen desk.new)
        (named_script site.now moment [] names.now) r places.old.items places.new.items) }
    ensures stopped { OnErr result
        (StoppedWith (D.seen desk.old) (D.seen desk.new)
        (named_script site.now moment [] names.now) places.old.items places.new.items) }
{
    let mut rows = Vec::new(alloc);
    for name in names {
        if let Some(refusal) = describe_next(alloc, desk, site, name, moment, &mut rows, places)? {
            return Ok(Reply::Refused(refusal));
        }
    }
    Ok(Reply::Described {
        rows: Listed::from_vec(rows),
        next: None,
    })
}

/// The repositories of a page of the site's names.
#[tactic(auto, unfolding(ecr_model::specs::requests::Requests::describe_script))]
fn describe_page<D: AnyDesk>(
    alloc: Global,
    desk: &mut D,
    site: &SiteId,
    page: Page,
    moment: Moment,
    places: &mut Vec<Place>,
) -> Result<Reply, Mem>
    requires served { Contains (D.seen desk.old).realm.served site.now }
    requires from { page.from < 2 ^ 63 }
    ensures ran { IfOk result
        (λ r. RanWith (D.seen desk.old) (D.seen desk.new)
        (describe_script site.now None page moment) r places.old.items places.new.items) }
    ensures stopped { OnErr result
        (StoppedWith (D.seen desk.old) (D.seen desk.new)
        (describe_script site.now None page moment) places.old.items places.new.items) }
{
    match site_at(alloc, desk, site, SiteCall::Names { page }, places)? {
        SiteReply::Names { names, more } => {
            let names = names.as_slice();
            let next = next_place(page, names, more);
            describe_listed(alloc, desk, site, next, names, moment, places)
        }
        SiteReply::Refused(refusal) => Ok(Reply::Refused(refusal)),
    }
}

/// The listed repositories in order; those that are absent are left out.
fn describe_listed<D: AnyDesk>(
    alloc: Global,
    desk: &mut D,
    site: &SiteId,
    next: Option<u64>,
    names: &[Name],
    moment: Moment,
    places: &mut Vec<Place>,
) -> Result<Reply, Mem>
    requires served { Contains (D.seen desk.old).realm.served site.now }
    ensures ran { IfOk result
        (λ r. RanWith (D.seen desk.old) (D.seen desk.new)
        (listed_script site.now moment next [] names.now) r places.old.items places.new.items) }
    ensures stopped { OnErr result
        (StoppedWith (D.seen desk.old) (D.seen desk.new)
        (listed_script site.now moment next [] names.now) places.old.items places.new.items) }
{
    let mut rows = Vec::new(alloc);
    for name in names {
        describe_next(alloc, desk, site, name, moment, &mut rows, places)?;
    }
    Ok(Reply::Described {
        rows: Listed::from_vec(rows),
        next,
    })
}

/// Describes one repository behind the rows before it, or says why that is refused.
fn describe_next<D: AnyDesk>(
    alloc: Global,
    desk: &mut D,
    site: &SiteId,
    name: &Name,
    moment: Moment,
    rows: &mut Vec<Described>,
    places: &mut Vec<Place>,
) -> Result<Option<Refusal>, Mem>
    requires served { Contains (D.seen desk.old).realm.served site.now }
    ensures described { IfOk result
        (λ o. IsDescribed (D.seen desk.old)
        (D.seen desk.new) site.now name.now moment rows.old.items rows.new.items o places.old.items places.new.items) }
    ensures stopped { OnErr result
        (StoppedWith (D.seen desk.old) (D.seen desk.new)
        (one_script site.now moment name.now) places.old.items places.new.items) }
{
    let key = key_at(site, name)?;
    let load = Load::Nothing;
    let decided = call_at(alloc, desk, &key, Call::Describe, load, moment, places)?;
    let Decided {
        reply,
        blobs: _blobs,
        sealed: _sealed,
    } = decided;
    match reply {
        Reply::Described { rows: more, .. } => {
            let mut more = more.into_vec();
            rows.append(&mut more)?;
            Ok(None)
        }
        Reply::Refused(refusal) => Ok(Some(refusal)),
        _ => Ok(None),
    }
}

/// The repository of the name at the site.
fn key_at(site: &SiteId, name: &Name) -> Result<RepoKey, Mem>
    ensures { IfOk result (λ k. k ≡ key_at site.now name.now) }
{
    let site = site.clone()?;
    let name = name.clone()?;
    Ok(RepoKey { site, name })
}

/// The place of the next name, where some remain.
fn next_place(page: Page, names: &[Name], more: bool) -> Option<u64>
    requires { page.from < 2 ^ 63 }
    ensures { result ≡ next_place page names.now more }
{
    if more {
        Some(page.from + names.len() as u64)
    } else {
        None
    }
}

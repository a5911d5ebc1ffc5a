// The call that the values of a body's members make (Amazon ECR API Reference, "Actions").
ghost use Rattle.std.specs.Prelude.{◌≡◌, IfOk, map, option_map, unwrap_or};
ghost use Rattle.ecr_model.specs.requests.Actions as actions;
ghost use Rattle.ecr_model.specs.requests.Actions.{asks, force_in, key_in, made_by, made_in, mutability_in, names_in, page_in, site_in, text_of_parameter};
ghost use Rattle.ecr_blob_upload.specs.declared.call.Load.TheVariants.{Nothing};
ghost use Rattle.ecr_api.specs.declared.asked.Asked.TheVariants.{Cell, Many};
ghost use Rattle.ecr_api.specs.Readings.{meaning, FitsMade, IsMember, LoadFits};
ghost use Rattle.ecr_api.specs.Values.{item_text, made_of, valued_members};

use crate::Asked;
use crate::domains::{item_text, mutability_of, place_of, rows_of, site_of};
use crate::members::{text_in, texts_in, truth_in, value_at, whole_in};
use crate::values::Valued;
use ecr_blob_upload::Load;
use ecr_model::{
    Action, Call, Listed, Mem, Mutability, Name, Page, Parameter, RepoKey, SharedText, SiteId, Twin,
};
use serde_json::Value;
use std::alloc::Global;

/// The rows of a page where no number is asked for.
const ROWS: u32 = 100;

/// What the values of an action's members make.
enum Made {
    /// A call on the repository of `repositoryName`.
    One(Call),
    /// The description of several repositories.
    Several,
}

/// The call that the values make.
#[tactic(auto, unfolding(ecr_model::specs::requests::Actions::made_by))]
pub(crate) fn made_by(
    alloc: Global,
    base: &SiteId,
    served: &[SiteId],
    action: Action,
    values: &[Valued<'_>],
) -> Result<Asked, Mem>
    ensures exact { IfOk result
        (λ asked. asks (meaning asked) ≡ made_by base.now served.now action (valued_members values.now)) }
    ensures fits { IfOk result LoadFits }
{
    match made_in(action, values) {
        Made::One(call) => one(alloc, base, served, values, call),
        Made::Several => several(alloc, base, served, values),
    }
}

/// What the values of an action's members make.
#[tactic(auto, unfolding(ecr_model::specs::requests::Actions::made_in))]
fn made_in(action: Action, values: &[Valued<'_>]) -> Made
    ensures exact { made_of result ≡ made_in action (valued_members values.now) }
    ensures fits { FitsMade result }
{
    match action {
        Action::CreateRepository => Made::One(Call::Create {
            mutability: mutability_in(values),
        }),
        Action::DeleteRepository => Made::One(Call::Delete {
            force: force_in(values),
        }),
        Action::DescribeRepositories => Made::Several,
        Action::PutImageTagMutability => Made::One(Call::SetMutability {
            mutability: mutability_in(values),
        }),
    }
}

/// The call on the repository of `repositoryName`, with nothing that comes with it.
fn one(
    alloc: Global,
    base: &SiteId,
    served: &[SiteId],
    values: &[Valued<'_>],
    call: Call,
) -> Result<Asked, Mem>
    ensures { IfOk result
        (λ asked. asked ≡ Cell (key_in base.now served.now (valued_members values.now)) call Nothing) }
{
    let key = key_in(alloc, base, served, values)?;
    Ok(Asked::Cell {
        key,
        call,
        load: Load::Nothing,
    })
}

/// The repositories of `repositoryNames`, or a page of all.
fn several(
    alloc: Global,
    base: &SiteId,
    served: &[SiteId],
    values: &[Valued<'_>],
) -> Result<Asked, Mem>
    ensures { IfOk result (λ asked. asked ≡
        (let vs = valued_members values.now in Many (site_in base.now served.now vs) (names_in vs) (page_in vs))) }
{
    let site = site_in(base, served, values).clone()?;
    let names = names_in(alloc, values)?;
    Ok(Asked::Many {
        site,
        names,
        page: page_in(values),
    })
}

/// The repository of `repositoryName`.
fn key_in(
    alloc: Global,
    base: &SiteId,
    served: &[SiteId],
    values: &[Valued<'_>],
) -> Result<RepoKey, Mem>
    ensures { IfOk result (λ key. key ≡ key_in base.now served.now (valued_members values.now)) }
{
    let site = site_in(base, served, values).clone()?;
    let text = text_at(Parameter::RepositoryName, values).unwrap_or("");
    let name = name_of(alloc, text)?;
    Ok(RepoKey { site, name })
}

/// The site that `registryId` names, or else that to which the request came.
fn site_in<'a>(base: &'a SiteId, served: &'a [SiteId], values: &[Valued<'_>]) -> &'a SiteId
    ensures { result.now ≡ site_in base.entry.now served.entry.now (valued_members values.now) }
{
    match text_at(Parameter::RegistryId, values) {
        Some(text) => site_or(base, site_of(base, served, text.as_bytes())),
        None => base,
    }
}

/// The site, or else that one.
fn site_or<'a>(base: &'a SiteId, site: Option<&'a SiteId>) -> &'a SiteId
    ensures { result.now ≡ unwrap_or (option_map (λ s. s.now) site.entry) base.entry.now }
{
    match site {
        Some(site) => site,
        None => base,
    }
}

/// The text of a parameter, where it is there.
fn text_at<'a>(parameter: Parameter, values: &[Valued<'a>]) -> Option<&'a str>
    requires { IsMember parameter }
    ensures { option_map (λ t. t.now) result ≡ text_of_parameter parameter (valued_members values.now) }
{
    text_in(&value_at(parameter, values))
}

/// `imageTagMutability`, where it is there; else tags may move.
fn mutability_in(values: &[Valued<'_>]) -> Mutability
    ensures { result ≡ mutability_in (valued_members values.now) }
{
    match text_at(Parameter::ImageTagMutability, values) {
        Some(text) => mutability_of(text).unwrap_or(Mutability::Mutable),
        None => Mutability::Mutable,
    }
}

/// `force`, where it is there; else not.
fn force_in(values: &[Valued<'_>]) -> bool
    ensures { result ≡ force_in (valued_members values.now) }
{
    truth_in(&value_at(Parameter::Force, values)).unwrap_or(false)
}

/// The names of `repositoryNames`, where it is there.
fn names_in(alloc: Global, values: &[Valued<'_>]) -> Result<Option<Listed<Name>>, Mem>
    ensures { IfOk result (λ names. names ≡ names_in (valued_members values.now)) }
{
    match texts_in(&value_at(Parameter::RepositoryNames, values)) {
        Some(items) => Ok(Some(names_of(alloc, items)?)),
        None => Ok(None),
    }
}

/// The texts of the items as names.
fn names_of(alloc: Global, items: &[Value]) -> Result<Listed<Name>, Mem>
    ensures { IfOk result (λ names. names ≡ map (λ text. record { text = text }) (map item_text items.now)) }
{
    let mut names = Vec::with_capacity(alloc, items.len())?;
    for item in items {
        names.push(name_of(alloc, item_text(item))?)?;
    }
    Ok(Listed::from_vec(names))
}

/// The text as a name.
fn name_of(alloc: Global, text: &str) -> Result<Name, Mem>
    ensures { IfOk result (λ name. name ≡ record { text = text.now }) }
{
    let text = SharedText::copy_of(alloc, text.as_bytes())?;
    Ok(Name { text })
}

/// The page from `nextToken` on of `maxResults` rows, where they are there; else the first page, of 100 rows.
fn page_in(values: &[Valued<'_>]) -> Page
    ensures { result ≡ page_in (valued_members values.now) }
{
    Page {
        from: from_in(values),
        max: max_in(values),
    }
}

/// The place of `nextToken`, where it is there; else the first.
fn from_in(values: &[Valued<'_>]) -> u64
    ensures { result ≡ (page_in (valued_members values.now)).from }
{
    match text_at(Parameter::NextToken, values) {
        Some(text) => place_of(text).unwrap_or(0),
        None => 0,
    }
}

/// `maxResults`, where it is there; else 100.
fn max_in(values: &[Valued<'_>]) -> u32
    ensures { result ≡ (page_in (valued_members values.now)).max }
{
    match whole_in(&value_at(Parameter::MaxResults, values)) {
        Some(number) => rows_of(number).unwrap_or(ROWS),
        None => ROWS,
    }
}

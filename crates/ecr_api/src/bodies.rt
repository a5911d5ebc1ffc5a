// The bodies of replies as JSON (Amazon ECR API Reference; RFC 8259). Each is written once, from its tokens.
ghost use Rattle.std.specs.Prelude.{◌≡◌, ◌++◌, ◌∷◌, [], codes, decimal, IfOk, OnOk};
ghost use Rattle.json.specs.Token as token;
ghost use Rattle.serde_json.specs.Data.{Data, Members, array, member, no_members, object, string};
ghost use Rattle.serde_json.specs.Written.{compact_text};
ghost use Rattle.ecr_model.specs.requests.Rendered.{key_asked, mutability_text, reply_data, repository_data, rows_data, site_asked, with_token};
ghost use Rattle.ecr_model.specs.names.Sites.{utf8_or_empty};
ghost use Rattle.ecr_api.specs.Readings.{meaning};
ghost use Rattle.ecr_api.specs.Writings.{data_tokens, member_tokens, rest_tokens, written_data};

use crate::Asked;
use ecr_base::{utf8_or_empty, write_arn_at, write_uri_at};
use ecr_errors::refusal_body;
use ecr_model::{Described, Mem, Moment, Mutability, Reply, SiteId};
use json::Writer;
use std::alloc::Global;

/// Room for what stands around the rows of a body, in bytes.
const BODY_ROOM: usize = 64;

/// Room for a repository, in bytes: one with a short name takes less than this.
const ROW_ROOM: usize = 320;

/// A member of an object that is written: its name, and its text.
#[derive(Clone, Copy)]
struct Written<'a> {
    name: &'a str,
    text: &'a str,
}

/// The body of a reply to what was asked.
#[tactic(auto, unfolding(ecr_model::specs::requests::Rendered::reply_data))]
pub(crate) fn write_body(alloc: Global, asked: &Asked, reply: &Reply) -> Result<Vec<u8>, Mem>
    ensures { IfOk result (λ b. b.items ≡ compact_text (reply_data (meaning asked.now) reply.now)) }
{
    match reply {
        Reply::Created {
            created,
            mutability,
        } => repository_body(alloc, asked, *created, *mutability),
        Reply::Deleted {
            created,
            mutability,
        } => repository_body(alloc, asked, *created, *mutability),
        Reply::Described { rows, next } => rows_body(alloc, asked, rows.as_slice(), *next),
        Reply::MutabilitySet { mutability } => mutability_body(alloc, asked, *mutability),
        Reply::Refused(refusal) => refusal_body(alloc, refusal, None, None),
    }
}

/// The body that is a repository.
fn repository_body(
    alloc: Global,
    asked: &Asked,
    created: Moment,
    mutability: Mutability,
) -> Result<Vec<u8>, Mem>
    ensures { IfOk result (λ b. b.items
        ≡ compact_text (object (member (codes "repository")
        (repository_data (key_asked (meaning asked.now)) created mutability) no_members))) }
{
    let mut out = begin(alloc, BODY_ROOM + ROW_ROOM)?;
    out.begin_object()?;
    out.key("repository")?;
    write_repository(
        alloc,
        &mut out,
        site_asked(asked),
        name_asked(asked),
        created,
        mutability,
    )?;
    out.end_object()?;
    Ok(finish(out))
}

/// The body that is rows, with the place of the next where some remain.
fn rows_body(
    alloc: Global,
    asked: &Asked,
    rows: &[Described],
    next: Option<u64>,
) -> Result<Vec<u8>, Mem>
    ensures { IfOk result (λ b. b.items
        ≡ compact_text (object (with_token next
        (member (codes "repositories") (array (rows_data (site_asked (meaning asked.now)) rows.now)) no_members)))) }
{
    let mut out = begin(alloc, room_of(rows))?;
    out.begin_object()?;
    write_token(&mut out, next)?;
    out.key("repositories")?;
    out.begin_array()?;
    write_rows(alloc, &mut out, site_asked(asked), rows)?;
    out.end_object()?;
    Ok(finish(out))
}

/// The body that is a repository's mutability.
fn mutability_body(alloc: Global, asked: &Asked, mutability: Mutability) -> Result<Vec<u8>, Mem>
    ensures { IfOk result (λ b. b.items ≡ compact_text (object
        (member (codes "imageTagMutability") (string (mutability_text mutability))
        (member (codes "registryId") (string (utf8_or_empty (key_asked (meaning asked.now)).site.account))
        (member (codes "repositoryName")
        (string (utf8_or_empty (key_asked (meaning asked.now)).name.text)) no_members))))) }
{
    let account = utf8_or_empty(site_asked(asked).account.as_bytes());
    object_body(
        alloc,
        &[
            text_of("imageTagMutability", mutability_text(mutability)),
            text_of("registryId", account),
            text_of("repositoryName", utf8_or_empty(name_asked(asked))),
        ],
    )
}

/// The body that is an object of these members, which stand in the order of their names.
fn object_body(alloc: Global, members: &[Written<'_>]) -> Result<Vec<u8>, Mem>
    ensures { IfOk result (λ b. b.items ≡ compact_text (object (written_data members.now))) }
{
    let mut out = begin(alloc, ROW_ROOM)?;
    out.begin_object()?;
    write_members(&mut out, members)?;
    Ok(finish(out))
}

/// Room for the rows and what stands around them, in bytes.
fn room_of(rows: &[Described]) -> usize {
    rows.len()
        .saturating_mul(ROW_ROOM)
        .saturating_add(BODY_ROOM)
}

/// A body that is to be written, with so much room.
fn begin(alloc: Global, room: usize) -> Result<Writer, Mem>
    ensures tokens { IfOk result (λ w. w.tokens ≡ []) }
    ensures before { IfOk result (λ w. w.before ≡ []) }
{
    Ok(Writer::new(Vec::with_capacity(alloc, room)?))
}

/// What was written: the text of the value whose tokens these are.
fn finish(out: Writer) -> Vec<u8>
    requires { out.before ≡ [] }
    ensures { (d : Data) → out.tokens ≡ data_tokens d → result.items ≡ compact_text d }
{
    out.into_inner()
}

/// The site that was asked.
fn site_asked<'a>(asked: &'a Asked) -> &'a SiteId
    ensures site { result.now ≡ site_asked (meaning asked.entry.now) }
    ensures of_key { result.now ≡ (key_asked (meaning asked.entry.now)).site }
{
    match asked {
        Asked::Cell { key, .. } => &key.site,
        Asked::Site { site, .. } => site,
        Asked::Many { site, .. } => site,
    }
}

/// The name that was asked for; of a call on no single repository, the empty one.
fn name_asked<'a>(asked: &'a Asked) -> &'a [u8]
    ensures { result.now ≡ (key_asked (meaning asked.entry.now)).name.text }
{
    match asked {
        Asked::Cell { key, .. } => key.name.text.as_bytes(),
        Asked::Site { .. } => b"",
        Asked::Many { .. } => b"",
    }
}

/// `imageTagMutability`
fn mutability_text(mutability: Mutability) -> &'static str
    ensures { result.now ≡ mutability_text mutability }
{
    match mutability {
        Mutability::Mutable => "MUTABLE",
        Mutability::Immutable => "IMMUTABLE",
    }
}

/// Writes `nextToken`, where rows remain.
fn write_token(out: &mut Writer, next: Option<u64>) -> Result<(), Mem>
    ensures ok { OnOk result ((members : Members)
        → out.old.tokens ++ member_tokens (with_token next members) ≡ out.new.tokens ++ member_tokens members) }
    ensures before { out.new.before ≡ out.old.before }
{
    match next {
        Some(place) => {
            out.key("nextToken")?;
            out.quoted_u64(place)
        }
        None => Ok(()),
    }
}

/// Writes the rows of an array, and its end.
fn write_rows(alloc: Global, out: &mut Writer, site: &SiteId, rows: &[Described]) -> Result<(), Mem>
    ensures ok { OnOk result (out.new.tokens ≡ out.old.tokens ++ rest_tokens (rows_data site.now rows.now)) }
    ensures before { out.new.before ≡ out.old.before }
{
    for row in rows {
        let name = row.name.text.as_bytes();
        write_repository(alloc, out, site, name, row.created, row.mutability)?;
    }
    out.end_array()
}

/// Writes a repository, with its moment of creation in whole seconds.
#[tactic(auto, unfolding(ecr_model::specs::requests::Rendered::repository_data))]
fn write_repository(
    alloc: Global,
    out: &mut Writer,
    site: &SiteId,
    name: &[u8],
    created: Moment,
    mutability: Mutability,
) -> Result<(), Mem>
    ensures ok { OnOk result (out.new.tokens
        ≡ out.old.tokens ++ data_tokens
        (repository_data (record { site = site.now; name = record { text = name.now } }) created mutability)) }
    ensures before { out.new.before ≡ out.old.before }
{
    let arn = write_arn_at(alloc, site, name)?;
    let uri = write_uri_at(alloc, site, name)?;
    out.begin_object()?;
    write_whole(out, "createdAt", created)?;
    write_text(out, "imageTagMutability", mutability_text(mutability))?;
    write_text(out, "registryId", utf8_or_empty(site.account.as_bytes()))?;
    write_text(out, "repositoryArn", arn.as_str())?;
    write_text(out, "repositoryName", utf8_or_empty(name))?;
    write_text(out, "repositoryUri", uri.as_str())?;
    out.end_object()
}

/// Writes the members of an object, and its end.
fn write_members(out: &mut Writer, members: &[Written<'_>]) -> Result<(), Mem>
    ensures ok { OnOk result (out.new.tokens ≡ out.old.tokens ++ member_tokens (written_data members.now)) }
    ensures before { out.new.before ≡ out.old.before }
{
    for member in members {
        write_text(out, member.name, member.text)?;
    }
    out.end_object()
}

/// The member of that name with that text.
fn text_of<'a>(name: &'a str, text: &'a str) -> Written<'a>
    ensures name { result.name.now ≡ name.entry.now }
    ensures text { result.text.now ≡ text.entry.now }
{
    Written { name, text }
}

/// Writes a member that is a text.
fn write_text(out: &mut Writer, member: &str, text: &str) -> Result<(), Mem>
    ensures ok { OnOk result (out.new.tokens ≡ out.old.tokens ++ token.key member.now ∷ token.string text.now ∷ []) }
    ensures before { out.new.before ≡ out.old.before }
{
    out.key(member)?;
    out.string(text)
}

/// Writes a member that is a whole number.
fn write_whole(out: &mut Writer, member: &str, number: u64) -> Result<(), Mem>
    ensures ok { OnOk result (out.new.tokens ≡ out.old.tokens ++ token.key member.now ∷ token.number
        (decimal number) ∷ []) }
    ensures before { out.new.before ≡ out.old.before }
{
    out.key(member)?;
    out.u64(number)
}

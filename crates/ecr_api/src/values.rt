// The values of a body's members, each read once by its JSON type (RFC 8259).
ghost use Rattle.std.specs.Prelude.{◌≡◌, ◌++◌, None, Some, IfOk, if◌then◌else◌, option_and_then, option_map};
ghost use Rattle.serde_json.specs.Find.{as_array, as_bool, as_str};
ghost use Rattle.serde_json.specs.View.{items_view, view};
ghost use Rattle.ecr_model.specs.requests.Members as model;
ghost use Rattle.ecr_model.specs.requests.Members.{all_texts, all_typed, are_texts, as_whole, typed, typed_member, typed_members};
ghost use Rattle.ecr_api.specs.Readings.{AreMembers, IsMember};
ghost use Rattle.ecr_api.specs.Values.{member_as, valued_members, typed_of, valued_of};

use crate::actions::parameter_text;
use ecr_json::{Field, list, text, truth, whole};
use ecr_model::{Domain, Mem, Member};
use serde_json::Value;
use std::alloc::Global;

/// The value of a member. What is longer than a number stays in the tree that was read.
#[derive(Clone, Copy)]
pub(crate) enum Typed<'a> {
    Absent,
    Text(&'a str),
    Whole(i128),
    Truth(bool),
    /// The items of a list, each of which is a text.
    Texts(&'a [Value]),
}

/// A member with its name and its value.
#[derive(Clone, Copy)]
pub(crate) struct Valued<'a> {
    pub name: &'static str,
    pub member: Member,
    pub value: Typed<'a>,
}

/// The values of the members; `None` where the body is no object, or a member has another type.
#[tactic(auto, unfolding(ecr_model::specs::requests::Members::typed_members))]
pub(crate) fn typed_members<'a>(
    alloc: Global,
    members: &[Member],
    body: &'a Value,
) -> Result<Option<Vec<Valued<'a>>>, Mem>
    requires { AreMembers members.now }
    ensures { IfOk result
        (λ o. option_map (λ v. valued_members v.items) o ≡ typed_members members.now (view body.entry.now)) }
{
    if !body.is_object() {
        return Ok(None);
    }
    let mut values = Vec::with_capacity(alloc, members.len())?;
    if read_members(members, body, &mut values)? {
        Ok(Some(values))
    } else {
        Ok(None)
    }
}

/// Reads the members behind those before; whether each has its type.
fn read_members<'a>(
    members: &[Member],
    body: &'a Value,
    values: &mut Vec<Valued<'a>>,
) -> Result<bool, Mem>
    requires { AreMembers members.now }
    ensures { IfOk result (λ right. option_map (λ more. valued_members values.old.items ++ more)
        (all_typed members.now (view body.entry.now))
        ≡ (if right then Some (valued_members values.new.items) else None)) }
{
    match members {
        [member, rest @ ..] => match typed_member(body, member) {
            Some(value) => {
                values.push(value)?;
                read_members(rest, body, values)
            }
            None => Ok(false),
        },
        [] => Ok(true),
    }
}

/// The member with its value; `None` where it has another type.
fn typed_member<'a>(body: &'a Value, member: &Member) -> Option<Valued<'a>>
    requires { IsMember member.now.parameter }
    ensures { option_map valued_of result ≡ option_map (model.valued member.now)
        (typed_member (view body.entry.now) member.now) }
{
    let name = parameter_text(member.parameter);
    let value = read_typed(member.domain, body, name)?;
    Some(Valued {
        name,
        member: *member,
        value,
    })
}

/// The member of that name, read as the JSON type of the domain.
fn read_typed<'a>(domain: Domain, body: &'a Value, name: &str) -> Option<Typed<'a>>
    ensures { option_map typed_of result ≡ member_as (typed domain) name.now (view body.entry.now) }
{
    match domain {
        Domain::Account | Domain::RepositoryName | Domain::Mutability | Domain::Token => {
            typed_text(body, name)
        }
        Domain::RepositoryNames => typed_texts(body, name),
        Domain::Truth => typed_truth(body, name),
        Domain::Results => typed_whole(body, name),
    }
}

/// The member of that name, where it is a text.
#[tactic(auto)]
fn typed_text<'a>(body: &'a Value, name: &str) -> Option<Typed<'a>>
    ensures { option_map typed_of result ≡ member_as (λ v. option_map model.text (as_str v)) name.now
        (view body.entry.now) }
{
    match text(body, name) {
        Field::Absent => Some(Typed::Absent),
        Field::Wrong => None,
        Field::Here(text) => Some(Typed::Text(text)),
    }
}

/// The member of that name, where it is a whole number.
#[tactic(auto)]
fn typed_whole<'a>(body: &'a Value, name: &str) -> Option<Typed<'a>>
    ensures { option_map typed_of result ≡ member_as (λ v. option_map model.whole (as_whole v)) name.now
        (view body.entry.now) }
{
    match whole(body, name) {
        Field::Absent => Some(Typed::Absent),
        Field::Wrong => None,
        Field::Here(number) => Some(Typed::Whole(number)),
    }
}

/// The member of that name, where it is a truth value.
#[tactic(auto)]
fn typed_truth<'a>(body: &'a Value, name: &str) -> Option<Typed<'a>>
    ensures { option_map typed_of result ≡ member_as (λ v. option_map model.truth (as_bool v)) name.now
        (view body.entry.now) }
{
    match truth(body, name) {
        Field::Absent => Some(Typed::Absent),
        Field::Wrong => None,
        Field::Here(truth) => Some(Typed::Truth(truth)),
    }
}

/// The member of that name, where it is a list of texts.
fn typed_texts<'a>(body: &'a Value, name: &str) -> Option<Typed<'a>>
    ensures { option_map typed_of result ≡ member_as
        (λ v. option_map model.texts (option_and_then all_texts (as_array v))) name.now (view body.entry.now) }
{
    match list(body, name) {
        Field::Absent => Some(Typed::Absent),
        Field::Wrong => None,
        Field::Here(items) => all_texts(items),
    }
}

/// The items, where each is a text.
fn all_texts<'a>(items: &'a [Value]) -> Option<Typed<'a>>
    ensures { option_map typed_of result ≡ option_map model.texts (all_texts (items_view items.entry.now)) }
{
    if are_texts(items) {
        Some(Typed::Texts(items))
    } else {
        None
    }
}

/// Whether each item is a text.
fn are_texts(items: &[Value]) -> bool
    ensures { result ≡ are_texts (items_view items.now) }
{
    for item in items {
        if !item.is_string() {
            return false;
        }
    }
    true
}

// The values of a body's members: by their names, and the first that is bad (Amazon ECR API Reference).
ghost use Rattle.std.specs.Prelude.{◌≡◌, find, map, option_map};
ghost use Rattle.std.specs.Option.{option_map_or};
ghost use Rattle.ecr_model.specs.requests.Members.{first_bad, is_bad, is_there, named_value, stands_beside, text_in, texts_in, truth_in, value_at, whole_in};
ghost use Rattle.ecr_api.specs.Readings.{AreApart, IsMember, IsMemberOrNone};
ghost use Rattle.ecr_api.specs.Values.{item_text, valued_members, typed_of, valued_of};

use crate::actions::parameter_text;
use crate::domains::allows;
use crate::values::{Typed, Valued};
use ecr_model::{Parameter, SiteId};
use serde_json::Value;

/// The first of the members that is bad.
#[tactic(auto, unfolding(ecr_model::specs::requests::Members::first_bad))]
pub(crate) fn first_bad(
    base: &SiteId,
    served: &[SiteId],
    values: &[Valued<'_>],
) -> Option<Parameter>
    requires { AreApart (valued_members values.now) }
    ensures { result ≡ first_bad base.now served.now (valued_members values.now) }
{
    first_bad_of(base, served, values, values)
}

/// The first of these members that is bad beside all.
fn first_bad_of<'a>(
    base: &SiteId,
    served: &[SiteId],
    all: &[Valued<'a>],
    values: &[Valued<'a>],
) -> Option<Parameter>
    requires { AreApart (valued_members values.now) }
    ensures { result ≡ option_map (λ v. v.member.parameter)
        (find (is_bad base.now served.now (valued_members all.now)) (valued_members values.now)) }
{
    match values {
        [valued, rest @ ..] => if is_bad(base, served, all, valued) {
            Some(valued.member.parameter)
        } else {
            first_bad_of(base, served, all, rest)
        },
        [] => None,
    }
}

/// Whether the member is absent where it must be there, is out of its domain, or stands beside one from which it is
/// apart.
fn is_bad(base: &SiteId, served: &[SiteId], all: &[Valued<'_>], valued: &Valued<'_>) -> bool
    requires { IsMemberOrNone valued.now.member.apart }
    ensures { result ≡ is_bad base.now served.now (valued_members all.now) (valued_of valued.now) }
{
    if is_there(&valued.value) {
        !allows(base, served, valued.member.domain, &valued.value)
            || stands_beside(all, valued.member.apart)
    } else {
        valued.member.required
    }
}

/// Whether the parameter, where one is given, has a value.
fn stands_beside(values: &[Valued<'_>], other: Option<Parameter>) -> bool
    requires { IsMemberOrNone other }
    ensures { result ≡ stands_beside (valued_members values.now) other }
{
    match other {
        Some(parameter) => is_there(&value_at(parameter, values)),
        None => false,
    }
}

/// The value of a parameter.
pub(crate) fn value_at<'a>(parameter: Parameter, values: &[Valued<'a>]) -> Typed<'a>
    requires { IsMember parameter }
    ensures { typed_of result ≡ value_at parameter (valued_members values.now) }
{
    named_value(parameter_text(parameter), values)
}

/// The value of the member of that name; where none has it, it is absent.
fn named_value<'a>(name: &str, values: &[Valued<'a>]) -> Typed<'a>
    ensures { typed_of result ≡ named_value name.now (valued_members values.now) }
{
    match values {
        [valued, rest @ ..] => if valued.name == name {
            valued.value
        } else {
            named_value(name, rest)
        },
        [] => Typed::Absent,
    }
}

/// Whether there is a value.
fn is_there(value: &Typed<'_>) -> bool
    ensures { result ≡ is_there (typed_of value.now) }
{
    match value {
        Typed::Absent => false,
        Typed::Text(_) => true,
        Typed::Whole(_) => true,
        Typed::Truth(_) => true,
        Typed::Texts(_) => true,
    }
}

/// The text that the value is.
pub(crate) fn text_in<'a>(value: &Typed<'a>) -> Option<&'a str>
    ensures { option_map (λ t. t.now) result ≡ text_in (typed_of value.now) }
{
    match value {
        Typed::Text(text) => Some(*text),
        Typed::Absent => None,
        Typed::Whole(_) => None,
        Typed::Truth(_) => None,
        Typed::Texts(_) => None,
    }
}

/// The whole number that the value is.
pub(crate) fn whole_in(value: &Typed<'_>) -> Option<i128>
    ensures { result ≡ whole_in (typed_of value.now) }
{
    match value {
        Typed::Whole(number) => Some(*number),
        Typed::Absent => None,
        Typed::Text(_) => None,
        Typed::Truth(_) => None,
        Typed::Texts(_) => None,
    }
}

/// The truth value that the value is.
pub(crate) fn truth_in(value: &Typed<'_>) -> Option<bool>
    ensures { result ≡ truth_in (typed_of value.now) }
{
    match value {
        Typed::Truth(truth) => Some(*truth),
        Typed::Absent => None,
        Typed::Text(_) => None,
        Typed::Whole(_) => None,
        Typed::Texts(_) => None,
    }
}

/// The items of the list of texts that the value is.
pub(crate) fn texts_in<'a>(value: &Typed<'a>) -> Option<&'a [Value]>
    ensures { option_map (λ items. map item_text items.now) result ≡ texts_in (typed_of value.now) }
{
    match value {
        Typed::Texts(items) => Some(*items),
        Typed::Absent => None,
        Typed::Text(_) => None,
        Typed::Whole(_) => None,
        Typed::Truth(_) => None,
    }
}

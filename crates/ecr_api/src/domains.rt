// Which values a member may have (Amazon ECR API Reference).
ghost use Rattle.std.specs.Prelude.{◌≡◌, ◌^◌, ◌&&◌, ◌||◌, true, nat_le, nat_lt, map, option_map, Some, None, if◌then◌else◌};
ghost use Rattle.std.specs.List.{list_all};
ghost use Rattle.ecr_model.specs.requests.Members.{allows, are_names, is_decimal, mutability_of, token_place, rows_of, site_of_account};
ghost use Rattle.ecr_model.specs.names.Names.{is_name};
ghost use Rattle.ecr_model.specs.names.Sites.{is_digit};
ghost use Rattle.ecr_api.specs.Values.{item_text, typed_of};

use crate::members::{text_in, texts_in, truth_in, whole_in};
use crate::values::Typed;
use ecr_base::is_name;
use ecr_model::{Domain, Mutability, SiteId};
use serde_json::Value;

/// Where the places end that a token may name.
const PLACES: u64 = 9_223_372_036_854_775_808;

/// The most names of repositories (Amazon ECR API Reference, `DescribeRepositories`, `repositoryNames`).
const MAX_NAMES: usize = 100;

/// The most rows of a page (Amazon ECR API Reference, `DescribeRepositories`, `maxResults`).
const MAX_RESULTS: i128 = 1000;

/// Whether the value is in the domain, for a request to that site of those that are served.
pub(crate) fn allows(base: &SiteId, served: &[SiteId], domain: Domain, value: &Typed<'_>) -> bool
    ensures { result ≡ allows base.now served.now domain (typed_of value.now) }
{
    match domain {
        Domain::Account => match text_in(value) {
            Some(text) => site_of(base, served, text.as_bytes()).is_some(),
            None => false,
        },
        Domain::RepositoryName => match text_in(value) {
            Some(text) => is_name(text.as_bytes()),
            None => false,
        },
        Domain::RepositoryNames => match texts_in(value) {
            Some(items) => are_names(items),
            None => false,
        },
        Domain::Mutability => match text_in(value) {
            Some(text) => mutability_of(text).is_some(),
            None => false,
        },
        Domain::Truth => truth_in(value).is_some(),
        Domain::Results => match whole_in(value) {
            Some(number) => rows_of(number).is_some(),
            None => false,
        },
        Domain::Token => match text_in(value) {
            Some(text) => place_of(text).is_some(),
            None => false,
        },
    }
}

/// The rows that a page may be asked for.
pub(crate) fn rows_of(number: i128) -> Option<u32>
    ensures { result ≡ rows_of number }
{
    if number >= 1 && number <= MAX_RESULTS {
        Some(number as u32)
    } else {
        None
    }
}

/// The mutability of that name.
pub(crate) fn mutability_of(name: &str) -> Option<Mutability>
    ensures { result ≡ mutability_of name.now }
{
    match name {
        "MUTABLE" => Some(Mutability::Mutable),
        "IMMUTABLE" => Some(Mutability::Immutable),
        _ => None,
    }
}

/// Whether the items are 1 to 100 names of repositories.
#[tactic(auto, using(crate::proofs::ValueLemmas::items))]
fn are_names(items: &[Value]) -> bool
    ensures { result ≡ are_names (map item_text items.now) }
{
    items.len() >= 1 && items.len() <= MAX_NAMES && all_named(items)
}

/// Whether the text of each item is the name of a repository.
fn all_named(items: &[Value]) -> bool
    ensures { result ≡ list_all (λ item. is_name (item_text item)) items.now }
{
    items.iter().all(|item| is_name(item_text(item).as_bytes()))
}

/// The text of an item; of an item that is none, the empty one.
pub(crate) fn item_text<'a>(item: &'a Value) -> &'a str
    ensures { result.now ≡ item_text item.entry.now }
{
    match item.as_str() {
        Some(text) => text,
        None => "",
    }
}

/// The served site of the same region with that account.
#[tactic(auto, unfolding(ecr_model::specs::requests::Members::site_of_account))]
pub(crate) fn site_of<'a>(base: &SiteId, served: &'a [SiteId], account: &[u8]) -> Option<&'a SiteId>
    ensures { option_map (λ s. s.now) result ≡ site_of_account base.now served.entry.now account.now }
{
    served.iter().find(|site| {
        site.region.as_bytes() == base.region.as_bytes() && site.account.as_bytes() == account
    })
}

/// The place that a decimal below 2^63 is.
pub(crate) fn place_of(text: &str) -> Option<u64>
    ensures { result ≡ token_place text.now }
{
    if !is_decimal(text.as_bytes()) {
        return None;
    }
    match text.parse::<u64>() {
        Ok(place) => below_places(place),
        Err(_) => None,
    }
}

/// The place, where a token may name it.
fn below_places(place: u64) -> Option<u64>
    ensures { result ≡ (if nat_lt place (2 ^ 63) then Some place else None) }
{
    if place < PLACES { Some(place) } else { None }
}

/// Whether the text is `0`, or digits of which the first isn't 0.
#[tactic(auto, unfolding(ecr_model::specs::requests::Members::is_decimal))]
fn is_decimal(text: &[u8]) -> bool
    ensures { result ≡ is_decimal text.now }
{
    match text {
        [first, rest @ ..] => are_digits(text) && (*first != b'0' || rest.len() == 0),
        [] => false,
    }
}

/// Whether each byte is one of `[0-9]`.
fn are_digits(text: &[u8]) -> bool
    ensures { result ≡ list_all is_digit text.now }
{
    text.iter().all(|byte| is_digit(*byte))
}

/// Whether the byte is one of `[0-9]`.
fn is_digit(byte: u8) -> bool
    ensures { result ≡ is_digit byte }
{
    matches!(byte, b'0'..=b'9')
}

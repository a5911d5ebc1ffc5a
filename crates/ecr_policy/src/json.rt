// Members of JSON values.
ghost use Rattle.std.specs.Prelude.{◌≡◌, map, option_map, option_and_then, bytes_eq, unwrap_or};
ghost use Rattle.serde_json.specs.Data.{null};
ghost use Rattle.std.specs.List.{list_any};
ghost use Rattle.serde_json.specs.View.{view, items_view, members_view};
ghost use Rattle.serde_json.specs.Find.{get, as_array, as_number, as_u64};
ghost use Rattle.ecr_model.specs.documents.Policies.{begins_character, characters, are_among, has_only, has, text_at, is_text_at, whole_at};

use serde_json::{Map, Value};

/// The greatest number that a policy may name.
const MAX_NUMBER: u64 = 2147483647;

/// Whether the value is an object with no member of another name.
pub(crate) fn has_only(names: &[&str], value: &Value) -> bool
    ensures { result ≡ has_only (map (λ name. name.now) names.now) (view value.now) }
{
    match value.as_object() {
        Some(members) => are_among(names, members),
        None => false,
    }
}

/// Whether each member has one of the names.
#[tactic(auto, using(crate::proofs::JsonLemmas::members))]
fn are_among(names: &[&str], members: &Map<String, Value>) -> bool
    ensures { result ≡ are_among (map (λ name. name.now) names.now) (members_view members.now.entries) }
{
    for key in members.keys() {
        if !is_among(names, key.as_str()) {
            return false;
        }
    }
    true
}

/// Whether it is one of the names.
fn is_among(names: &[&str], key: &str) -> bool
    ensures { result ≡ list_any (λ name. bytes_eq key.now name) (map (λ name. name.now) names.now) }
{
    for name in names {
        if key == *name {
            return true;
        }
    }
    false
}

/// Whether the member is there.
pub(crate) fn has(name: &str, value: &Value) -> bool
    ensures { result ≡ has name.now (view value.now) }
{
    value.get(name).is_some()
}

/// The text of a member, where it is there and has one.
pub(crate) fn text_at<'a>(name: &str, value: &'a Value) -> Option<&'a str>
    ensures { option_map (λ s. s.now) result ≡ text_at name.now (view value.now) }
{
    match value.get(name) {
        Some(member) => member.as_str(),
        None => None,
    }
}

/// Whether the member is there and is this text.
pub(crate) fn is_text_at(name: &str, text: &str, value: &Value) -> bool
    ensures { result ≡ is_text_at name.now text.now (view value.now) }
{
    match text_at(name, value) {
        Some(found) => found == text,
        None => false,
    }
}

/// The list of a member, where it is there and is one.
pub(crate) fn list_at<'a>(name: &str, value: &'a Value) -> Option<&'a Vec<Value>>
    ensures { option_map (λ v. items_view v.now.items) result ≡ option_and_then as_array
        (get name.now (view value.now)) }
{
    match value.get(name) {
        Some(member) => member.as_array(),
        None => None,
    }
}

/// The member, or null where there is none. Nothing is said of what is left.
pub(crate) fn take(name: &str, value: &mut Value) -> Value
    ensures { view result ≡ unwrap_or (get name.now (view value.old)) null }
{
    match value.get_mut(name) {
        Some(member) => member.take(),
        None => Value::Null,
    }
}

/// The list of a member, where it is there and is one. Nothing of it is copied, and nothing is said of what is left.
pub(crate) fn take_list(name: &str, value: &mut Value) -> Option<Vec<Value>>
    ensures { option_map (λ v. items_view v.items) result ≡ option_and_then as_array (get name.now (view value.old)) }
{
    match value.get_mut(name) {
        Some(member) => list_of(member.take()),
        None => None,
    }
}

/// The list that the value is.
fn list_of(value: Value) -> Option<Vec<Value>>
    ensures { option_map (λ v. items_view v.items) result ≡ as_array (view value) }
{
    match value {
        Value::Array(items) => Some(items),
        _ => None,
    }
}

/// The whole number from 1 to 2,147,483,647 that the member is.
pub(crate) fn whole_at(name: &str, value: &Value) -> Option<u32>
    ensures { result ≡ whole_at name.now (view value.now) }
{
    let number = unsigned_at(name, value)?;
    if number >= 1 && number <= MAX_NUMBER {
        Some(number as u32)
    } else {
        None
    }
}

/// The number without a sign that the member is.
fn unsigned_at(name: &str, value: &Value) -> Option<u64>
    ensures { result ≡ option_and_then as_u64 (option_and_then as_number (get name.now (view value.now))) }
{
    match value.get(name) {
        Some(member) => member.as_u64(),
        None => None,
    }
}

/// How many characters the text has.
pub(crate) fn characters(text: &str) -> usize
    ensures { result ≡ characters text.now }
{
    text.as_bytes()
        .iter()
        .filter(|byte| begins_character(**byte))
        .count()
}

/// Whether the byte doesn't continue a character.
fn begins_character(byte: u8) -> bool
    ensures { result ≡ begins_character byte }
{
    byte < 128 || byte >= 192
}

// The selection of a rule: causes 7 to 12.
ghost use Rattle.std.specs.Prelude.{◌≡◌, ◌&&◌, false, IfOk, nat_le, option_map, unwrap_or};
ghost use Rattle.serde_json.specs.Data.{no_items};
ghost use Rattle.serde_json.specs.View.{view, items_view};
ghost use Rattle.std.specs.Option.{option_map_or};
ghost use Rattle.ecr_model.specs.documents.Policies.{are_prefixes, choose_of, count_number, stated_count, counts_days, counts_images, has_its_prefixes, has_its_unit, has_only, is_prefix, is_prefix_list, prefix_list, selection_fault, selection_members, selects_any, selects_tagged, selects_untagged, texts_of};

use crate::json::{characters, has, has_only, is_text_at, list_at, take_list, whole_at};
use ecr_model::{Choose, Count, Listed, Mem, Text};
use serde_json::Value;
use std::alloc::Global;

/// The first cause that holds of the selection.
#[tactic(auto, unfolding(ecr_model::specs::documents::Policies::selection_fault))]
pub(crate) fn selection_fault(selection: &Value) -> Option<u8>
    ensures { result ≡ selection_fault (view selection.now) }
{
    if !is_selection(selection) {
        return Some(7);
    }
    if !selects_tagged(selection) && !selects_untagged(selection) && !selects_any(selection) {
        return Some(8);
    }
    if !has_its_prefixes(selection) {
        return Some(9);
    }
    if !counts_days(selection) && !counts_images(selection) {
        return Some(10);
    }
    if !has_its_unit(selection) {
        return Some(11);
    }
    if count_number(selection).is_none() {
        return Some(12);
    }
    None
}

/// The images that the selection chooses, where it has no fault. Its prefixes are taken out of it.
pub(crate) fn choose_of(alloc: Global, selection: &mut Value) -> Result<Choose, Mem>
    ensures { IfOk result (λ choose. choose ≡ choose_of (view selection.old)) }
{
    if selects_tagged(selection) {
        let texts = texts_in(alloc, take_list("tagPrefixList", selection))?;
        return Ok(Choose::Prefixes(texts));
    }
    if selects_untagged(selection) {
        Ok(Choose::Untagged)
    } else {
        Ok(Choose::Any)
    }
}

/// How the selection counts, where it has no fault.
pub(crate) fn count_of(selection: &Value) -> Count
    ensures { result ≡ stated_count (view selection.now) }
{
    let number = count_number(selection).unwrap_or(0);
    if counts_days(selection) {
        Count::OlderDays(number)
    } else {
        Count::MoreThan(number)
    }
}

/// Whether the value is an object with the members of a selection alone.
fn is_selection(selection: &Value) -> bool
    ensures { result ≡ has_only selection_members (view selection.now) }
{
    has_only(
        &[
            "tagStatus",
            "tagPrefixList",
            "countType",
            "countUnit",
            "countNumber",
        ],
        selection,
    )
}

/// Whether the images with tags are selected.
fn selects_tagged(selection: &Value) -> bool
    ensures { result ≡ selects_tagged (view selection.now) }
{
    is_text_at("tagStatus", "tagged", selection)
}

/// Whether the images without tags are selected.
fn selects_untagged(selection: &Value) -> bool
    ensures { result ≡ selects_untagged (view selection.now) }
{
    is_text_at("tagStatus", "untagged", selection)
}

/// Whether all images are selected.
fn selects_any(selection: &Value) -> bool
    ensures { result ≡ selects_any (view selection.now) }
{
    is_text_at("tagStatus", "any", selection)
}

/// Whether `tagged` has a list of prefixes, and another status has none.
fn has_its_prefixes(selection: &Value) -> bool
    ensures { result ≡ has_its_prefixes (view selection.now) }
{
    if selects_tagged(selection) {
        is_list_of_prefixes(list_at("tagPrefixList", selection))
    } else {
        !has("tagPrefixList", selection)
    }
}

/// Whether it is a list of 1 to 100 prefixes.
fn is_list_of_prefixes(list: Option<&Vec<Value>>) -> bool
    ensures { result ≡ option_map_or is_prefix_list (option_map (λ v. items_view v.now.items) list.entry) false }
{
    match list {
        Some(items) => is_prefix_list(items.as_slice()),
        None => false,
    }
}

/// Whether the images are counted by their age.
fn counts_days(selection: &Value) -> bool
    ensures { result ≡ counts_days (view selection.now) }
{
    is_text_at("countType", "sinceImagePushed", selection)
}

/// Whether the images are counted one by one.
fn counts_images(selection: &Value) -> bool
    ensures { result ≡ counts_images (view selection.now) }
{
    is_text_at("countType", "imageCountMoreThan", selection)
}

/// Whether an age has its unit, and a number of images has none.
fn has_its_unit(selection: &Value) -> bool
    ensures { result ≡ has_its_unit (view selection.now) }
{
    if counts_days(selection) {
        is_text_at("countUnit", "days", selection)
    } else {
        !has("countUnit", selection)
    }
}

/// The number that is counted up to.
fn count_number(selection: &Value) -> Option<u32>
    ensures { result ≡ count_number (view selection.now) }
{
    whole_at("countNumber", selection)
}

/// Whether they are 1 to 100 prefixes.
#[tactic(auto, using(crate::proofs::JsonLemmas::items))]
fn is_prefix_list(items: &[Value]) -> bool
    ensures { result ≡ is_prefix_list (items_view items.now) }
{
    items.len() >= 1 && items.len() <= 100 && are_prefixes(items)
}

/// Whether each is a prefix.
fn are_prefixes(items: &[Value]) -> bool
    ensures { result ≡ are_prefixes (items_view items.now) }
{
    for item in items {
        if !is_prefix(item) {
            return false;
        }
    }
    true
}

/// Whether it is a text of 1 to 128 characters.
fn is_prefix(item: &Value) -> bool
    ensures { result ≡ is_prefix (view item.now) }
{
    match item.as_str() {
        Some(text) => is_short(characters(text)),
        None => false,
    }
}

/// Whether a text of so many characters may be a prefix.
fn is_short(many: usize) -> bool
    ensures { result ≡ (nat_le 1 many && nat_le many 128) }
{
    many >= 1 && many <= 128
}

/// The texts among the items, which aren't copied.
fn texts_of(alloc: Global, items: Vec<Value>) -> Result<Listed<Text>, Mem>
    ensures { IfOk result (λ texts. texts ≡ texts_of (items_view items.items)) }
{
    let mut texts = Vec::with_capacity(alloc, items.len())?;
    for item in items {
        if let Value::String(text) = item {
            texts.push(Text::from_vec(text.into_bytes()))?;
        }
    }
    Ok(Listed::from_vec(texts))
}

/// The texts among the items of the list.
fn texts_in(alloc: Global, list: Option<Vec<Value>>) -> Result<Listed<Text>, Mem>
    ensures { IfOk result (λ texts. texts ≡ texts_of
        (unwrap_or (option_map (λ v. items_view v.items) list) no_items)) }
{
    match list {
        Some(items) => texts_of(alloc, items),
        None => Ok(Listed::new(alloc)),
    }
}

// What a manifest says of itself (OCI Image 1.1, image manifest and image index).
ghost use Rattle.std.specs.Prelude.{◌≡◌, ◌+◌, ◌≤◌, ◌^◌, IfOk, IfSome, length, map, option_and_then, option_map};
ghost use Rattle.serde_json.specs.Find.{as_array, get};
ghost use Rattle.serde_json.specs.View.{items_view, view};
ghost use Rattle.ecr_model.specs.documents.Manifests.{config_of, descriptor_of, descriptors, differs, entries_name, entries_of, is_image, is_list, is_mistyped, is_two, judged, manifest_fault, media_from, media_of, manifest_reading, stored};
ghost use Rattle.ecr_manifest.specs.Counts.{size};

use crate::blobs::judged;
use crate::descriptor::{descriptor_of, member_of, text_of, whole_of};
use ecr_model::{Descriptor, Facts, ManifestFault, Mem};
use serde_json::Value;
use std::alloc::Global;

const DOCKER_MANIFEST: &[u8] = b"application/vnd.docker.distribution.manifest.v2+json";

const DOCKER_LIST: &[u8] = b"application/vnd.docker.distribution.manifest.list.v2+json";

const OCI_MANIFEST: &[u8] = b"application/vnd.oci.image.manifest.v1+json";

const OCI_INDEX: &[u8] = b"application/vnd.oci.image.index.v1+json";

/// The facts of the manifest, or what is wrong.
#[tactic(auto, unfolding(ecr_model::specs::documents::Manifests::manifest_reading))]
pub(crate) fn reading(
    alloc: Global,
    given: Option<&[u8]>,
    value: &Value,
) -> Result<Result<Facts, ManifestFault>, Mem>
    requires { size (view value.now) ≤ 2 ^ 32 }
    ensures { IfOk result (λ r. r ≡ manifest_reading (option_map (λ v. v.now) given.entry) (view value.now)) }
{
    match manifest_fault(given, value) {
        Some(fault) => Ok(Err(fault)),
        None => read_blobs(alloc, media_of(given, value), value),
    }
}

/// The facts of the manifest of that type, or what is wrong with what it names.
fn read_blobs(
    alloc: Global,
    media: &[u8],
    value: &Value,
) -> Result<Result<Facts, ManifestFault>, Mem>
    requires { size (view value.now) ≤ 2 ^ 32 }
    ensures { IfOk result (λ r. r ≡ judged (is_list media.now) media.now
        (config_of (is_list media.now) (view value.now)) (entries_of (is_list media.now) (view value.now))) }
{
    let list = is_list(media);
    let config = config_of(list, value);
    let entries = entries_of(alloc, list, value)?;
    judged(alloc, list, media, config, entries)
}

/// What is wrong with the manifest itself.
#[tactic(auto, unfolding(ecr_model::specs::documents::Manifests::manifest_fault))]
fn manifest_fault(given: Option<&[u8]>, value: &Value) -> Option<ManifestFault>
    ensures { result ≡ manifest_fault (option_map (λ v. v.now) given.entry) (view value.now) }
{
    if !value.is_object() {
        return Some(fault(1));
    }
    if member_of(value, "mediaType").is_none() && given.is_none() {
        return Some(fault(2));
    }
    if is_mistyped(given, member_of(value, "mediaType")) {
        return Some(fault(3));
    }
    let media = media_of(given, value);
    if !is_image(media) && !is_list(media) {
        return Some(fault(4));
    }
    if !is_two(whole_of(value, "schemaVersion")) {
        return Some(fault(5));
    }
    None
}

/// The cause, with no entry.
pub(crate) fn fault(cause: u8) -> ManifestFault
    ensures { result ≡ record { cause = cause; entry = 0 } }
{
    ManifestFault { cause, entry: 0 }
}

/// Whether the member `mediaType` isn't a text, or differs from the given type.
fn is_mistyped(given: Option<&[u8]>, stated: Option<&Value>) -> bool
    ensures { result ≡ is_mistyped (option_map (λ v. v.now) given.entry) (option_map (λ v. view v.now) stated.entry) }
{
    match stated {
        Some(value) => differs(given, value.as_str()),
        None => false,
    }
}

/// Whether there is no stated text, or it isn't the given one.
fn differs(given: Option<&[u8]>, stated: Option<&str>) -> bool
    ensures { result ≡ differs (option_map (λ v. v.now) given.entry) (option_map (λ s. s.now) stated.entry) }
{
    let Some(stated) = stated else { return true };
    match given {
        Some(media) => stated.as_bytes() != media,
        None => false,
    }
}

/// The media type: the stated one, or else the given one.
fn media_of<'a>(given: Option<&'a [u8]>, value: &'a Value) -> &'a [u8]
    ensures { result.now ≡ media_of (option_map (λ v. v.now) given.entry) (view value.now) }
{
    media_from(text_of(value, "mediaType"), given)
}

/// The first of the two that is there, or no bytes.
fn media_from<'a>(stated: Option<&'a str>, given: Option<&'a [u8]>) -> &'a [u8]
    ensures { result.now ≡ media_from (option_map (λ s. s.now) stated.entry) (option_map (λ v. v.now) given.entry) }
{
    match stated {
        Some(text) => text.as_bytes(),
        None => match given {
            Some(media) => media,
            None => b"",
        },
    }
}

/// Whether the type is one of a list of manifests.
#[tactic(auto, unfolding(ecr_model::specs::documents::Manifests::is_list))]
fn is_list(media: &[u8]) -> bool
    ensures { result ≡ is_list media.now }
{
    media == DOCKER_LIST || media == OCI_INDEX
}

/// Whether the type is one of an image.
#[tactic(auto, unfolding(ecr_model::specs::documents::Manifests::is_image))]
fn is_image(media: &[u8]) -> bool
    ensures { result ≡ is_image media.now }
{
    media == DOCKER_MANIFEST || media == OCI_MANIFEST
}

/// Whether the number is there and is 2.
fn is_two(version: Option<u64>) -> bool
    ensures { result ≡ is_two version }
{
    match version {
        Some(version) => version == 2,
        None => false,
    }
}

/// An image's config; a list has none.
fn config_of(list: bool, value: &Value) -> Option<Descriptor>
    ensures { result ≡ config_of list (view value.now) }
{
    if list {
        return None;
    }
    match member_of(value, "config") {
        Some(config) => stored(descriptor_of(config)),
        None => None,
    }
}

/// The config's descriptor; it must be stored whatever its type.
fn stored(config: Option<Descriptor>) -> Option<Descriptor>
    ensures { result ≡ option_map stored config }
{
    match config {
        Some(config) => Some(Descriptor {
            digest: config.digest,
            size: config.size,
            foreign: false,
        }),
        None => None,
    }
}

/// An image's layers, a list's manifests.
fn entries_of(
    alloc: Global,
    list: bool,
    value: &Value,
) -> Result<Option<Vec<Option<Descriptor>>>, Mem>
    ensures exact { IfOk result (λ o. option_map (λ v. v.items) o ≡ entries_of list (view value.now)) }
    ensures few { IfOk result (λ o. IfSome o (λ v. length v.items + 2 ≤ size (view value.now))) }
{
    match array_of(value, entries_name(list)) {
        Some(values) => Ok(Some(descriptors(alloc, values.as_slice())?)),
        None => Ok(None),
    }
}

/// The list that the member is.
fn array_of<'a>(value: &'a Value, name: &str) -> Option<&'a Vec<Value>>
    ensures { option_map (λ v. items_view v.now.items) result ≡ option_and_then as_array
        (get name.now (view value.now)) }
{
    match member_of(value, name) {
        Some(member) => member.as_array(),
        None => None,
    }
}

/// The member that has the entries.
fn entries_name(list: bool) -> &'static str
    ensures { result.now ≡ entries_name list }
{
    if list { "manifests" } else { "layers" }
}

/// Each value as the descriptor that it is.
fn descriptors(alloc: Global, values: &[Value]) -> Result<Vec<Option<Descriptor>>, Mem>
    ensures { IfOk result (λ v. v.items ≡ descriptors (items_view values.now)) }
{
    read_each(alloc, values)
}

/// Each value, read.
fn read_each(alloc: Global, values: &[Value]) -> Result<Vec<Option<Descriptor>>, Mem>
    ensures { IfOk result (λ v. v.items ≡ map (λ d. descriptor_of (view d)) values.now) }
{
    values
        .iter()
        .map(|value| descriptor_of(value))
        .collect(alloc)
}

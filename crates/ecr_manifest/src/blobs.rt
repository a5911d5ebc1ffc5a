// What a manifest names.
ghost use Rattle.std.specs.Prelude.{◌≡◌, ◌<◌, ◌^◌, ◌∷◌, IfOk, IfSome, Some, List, filter, length, map, not, option_map};
ghost use Rattle.std.specs.List.{filter_map, position, sum_by};
ghost use Rattle.ecr_model.specs.documents.Manifests.{each_once, facts_of, is_no_descriptor, judged, named, size_from, size_of, some_of, stored_digests};

use crate::manifest::fault;
use crate::once::each_once;
use ecr_model::{Descriptor, Digest, Facts, Listed, ManifestFault, Mem, SharedText};
use std::alloc::Global;

/// The greatest sum of the stated sizes of an image.
const MAX_SIZE: u64 = 9_223_372_036_854_775_807;

/// The facts of the manifest that names these, or what is wrong with them.
#[tactic(auto, unfolding(ecr_model::specs::documents::Manifests::judged, ecr_model::specs::documents::Manifests::blobs_fault))]
pub(crate) fn judged(
    alloc: Global,
    list: bool,
    media: &[u8],
    config: Option<Descriptor>,
    entries: Option<Vec<Option<Descriptor>>>,
) -> Result<Result<Facts, ManifestFault>, Mem>
    requires { IfSome entries (λ v. length v.items < 2 ^ 32) }
    ensures { IfOk result (λ r. r ≡ judged list media.now config (option_map (λ v. v.items) entries)) }
{
    if !list && config.is_none() {
        return Ok(Err(fault(6)));
    }
    let Some(entries) = entries else {
        return Ok(Err(fault(7)))
    };
    if let Some(at) = first_other(entries.as_slice()) {
        return Ok(Err(ManifestFault {
            cause: 7,
            entry: at as u32 + 1,
        }));
    }
    let blobs = named(alloc, config, entries.as_slice())?;
    match size_of(list, blobs.as_slice()) {
        Some(size) => Ok(Ok(facts_of(alloc, list, media, blobs.as_slice(), size)?)),
        None => Ok(Err(fault(8))),
    }
}

/// The place of the first entry that is no descriptor.
fn first_other(entries: &[Option<Descriptor>]) -> Option<usize>
    ensures first { result ≡ position is_no_descriptor entries.now }
    ensures inside { IfSome result (λ at. at < length entries.now) }
{
    entries.iter().position(|entry| entry.is_none())
}

/// The config and the entries.
fn named(
    alloc: Global,
    config: Option<Descriptor>,
    entries: &[Option<Descriptor>],
) -> Result<Vec<Descriptor>, Mem>
    ensures { IfOk result (λ v. v.items ≡ named config (Some entries.now)) }
{
    let mut blobs = known(alloc, entries)?;
    match config {
        Some(config) => {
            blobs.insert(0, config).map_err(|_| Mem)?;
            Ok(blobs)
        }
        None => Ok(blobs),
    }
}

/// The entries that are descriptors.
fn known(alloc: Global, entries: &[Option<Descriptor>]) -> Result<Vec<Descriptor>, Mem>
    ensures { IfOk result (λ v. v.items ≡ filter_map some_of entries.now) }
{
    entries.iter().filter_map(|entry| *entry).collect(alloc)
}

/// The stated sizes, added up, where they fit; 0 for a list.
fn size_of(list: bool, blobs: &[Descriptor]) -> Option<u64>
    ensures { result ≡ size_from (Some (size_of list blobs.now)) }
{
    if list { Some(0) } else { total_size(blobs) }
}

/// The stated sizes, added up, where they fit.
fn total_size(blobs: &[Descriptor]) -> Option<u64>
    ensures { result ≡ size_from (Some (sum_by (λ d. d.size) blobs.now)) }
{
    let mut total: u64 = 0;
    for blob in blobs {
        if blob.size > MAX_SIZE - total {
            return None;
        }
        total += blob.size;
    }
    Some(total)
}

/// The facts of the manifest that names these.
fn facts_of(
    alloc: Global,
    list: bool,
    media: &[u8],
    blobs: &[Descriptor],
    size: u64,
) -> Result<Facts, Mem>
    requires { size ≡ size_of list blobs.now }
    ensures { IfOk result (λ f. f ≡ facts_of list media.now blobs.now) }
{
    let media = SharedText::copy_of(alloc, media)?;
    if list {
        let children = each_once(alloc, digests(alloc, blobs)?.as_slice())?;
        let required = Listed::new(alloc);
        Ok(Facts {
            list,
            media,
            required,
            children,
            size,
        })
    } else {
        let required = each_once(alloc, stored_digests(alloc, blobs)?.as_slice())?;
        let children = Listed::new(alloc);
        Ok(Facts {
            list,
            media,
            required,
            children,
            size,
        })
    }
}

/// The digests of all.
fn digests(alloc: Global, blobs: &[Descriptor]) -> Result<Vec<Digest>, Mem>
    ensures { IfOk result (λ v. v.items ≡ map (λ d. d.digest) blobs.now) }
{
    blobs.iter().map(|blob| blob.digest).collect(alloc)
}

/// The digests of those that must be stored.
fn stored_digests(alloc: Global, blobs: &[Descriptor]) -> Result<Vec<Digest>, Mem>
    ensures { IfOk result (λ v. v.items ≡ stored_digests blobs.now) }
{
    blobs
        .iter()
        .filter(|blob| !blob.foreign)
        .map(|blob| blob.digest)
        .collect(alloc)
}

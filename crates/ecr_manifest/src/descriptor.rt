// Descriptors (OCI Image 1.1, descriptor).
ghost use Rattle.std.specs.Prelude.{◌≡◌, take, option_and_then, option_map};
ghost use Rattle.serde_json.specs.Find.{get};
ghost use Rattle.serde_json.specs.View.{view};
ghost use Rattle.ecr_model.specs.names.Digests.{digest_of};
ghost use Rattle.ecr_model.specs.documents.Manifests.{described, descriptor_of, is_foreign, size_from, text_of, whole_of};

use ecr_base::read_digest;
use ecr_model::{Descriptor, Digest};
use serde_json::Value;

/// The type of Docker's foreign layers.
const DOCKER_FOREIGN: &[u8] = b"application/vnd.docker.image.rootfs.foreign.diff.tar.gzip";

/// The beginning of the types of OCI's nondistributable layers.
const OCI_FOREIGN: &[u8] = b"application/vnd.oci.image.layer.nondistributable.v1.";

/// The descriptor that the value is.
#[tactic(auto, unfolding(ecr_model::specs::documents::Manifests::descriptor_of))]
pub(crate) fn descriptor_of(value: &Value) -> Option<Descriptor>
    ensures { result ≡ descriptor_of (view value.now) }
{
    described(
        text_of(value, "mediaType"),
        digest_of(text_of(value, "digest")),
        size_from(whole_of(value, "size")),
    )
}

/// The value of a member, where it is there.
pub(crate) fn member_of<'a>(value: &'a Value, name: &str) -> Option<&'a Value>
    ensures { option_map (λ v. view v.now) result ≡ get name.now (view value.now) }
{
    value.get(name)
}

/// The text of a member, where it has one.
pub(crate) fn text_of<'a>(value: &'a Value, name: &str) -> Option<&'a str>
    ensures { option_map (λ s. s.now) result ≡ text_of name.now (view value.now) }
{
    match member_of(value, name) {
        Some(member) => member.as_str(),
        None => None,
    }
}

/// The whole number of a member, where it has one.
pub(crate) fn whole_of(value: &Value, name: &str) -> Option<u64>
    ensures { result ≡ whole_of name.now (view value.now) }
{
    match member_of(value, name) {
        Some(member) => member.as_u64(),
        None => None,
    }
}

/// The descriptor of these members, which must all be there.
fn described(media: Option<&str>, digest: Option<Digest>, size: Option<u64>) -> Option<Descriptor>
    ensures { result ≡ described (option_map (λ s. s.now) media.entry) digest size }
{
    let Some(media) = media else { return None };
    let Some(digest) = digest else { return None };
    let Some(size) = size else { return None };
    Some(Descriptor {
        digest,
        size,
        foreign: is_foreign(media.as_bytes()),
    })
}

/// The digest that the text is.
fn digest_of(text: Option<&str>) -> Option<Digest>
    ensures { result ≡ option_and_then digest_of (option_map (λ s. s.now) text.entry) }
{
    match text {
        Some(text) => read_digest(text.as_bytes()),
        None => None,
    }
}

/// The stated size, where it is below 2^63.
fn size_from(stated: Option<u64>) -> Option<u64>
    ensures { result ≡ size_from stated }
{
    match stated {
        Some(size) => if size < 9_223_372_036_854_775_808 {
            Some(size)
        } else {
            None
        },
        None => None,
    }
}

/// Whether a layer of the type needn't be stored.
#[tactic(auto, unfolding(ecr_model::specs::documents::Manifests::is_foreign))]
fn is_foreign(media: &[u8]) -> bool
    ensures { result ≡ is_foreign media.now }
{
    media == DOCKER_FOREIGN || front_of(media) == OCI_FOREIGN
}

/// The first 52 bytes, or all where there are fewer.
fn front_of(media: &[u8]) -> &[u8]
    ensures { result.now ≡ take 52 media.now }
{
    if media.len() < 52 {
        media
    } else {
        &media[..52]
    }
}

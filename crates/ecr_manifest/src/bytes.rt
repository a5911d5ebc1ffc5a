// The reading of bytes.
ghost use Rattle.std.specs.Prelude.{◌≡◌, ◌<◌, ◌^◌, IfOk, IfErr, Ok, length, option_map};
ghost use Rattle.serde_json.specs.Read.{read};
ghost use Rattle.serde_json.specs.View.{view};
ghost use Rattle.ecr_model.specs.documents.Documents.{document};
ghost use Rattle.ecr_model.specs.documents.Manifests.{facts, given_type};
ghost use Rattle.ecr_manifest.specs.Refusals.{Tells};

use crate::given::given_type;
use crate::manifest::reading;
use ecr_model::{Facts, ManifestFault, Mem};
use serde_json::Value;
use std::alloc::Global;
use thiserror::Error;

/// Why bytes aren't read.
#[derive(Debug, Drop, PartialEq, Eq, Error)]
pub enum ManifestRefusal {
    /// They aren't a manifest that is taken: the number of the first condition that failed, and the entry of `layers`
    /// or `manifests` from 1, or 0 where it is none of them.
    #[error("cause {cause}, entry {entry}")]
    Bad { cause: u8, entry: u32 },
    /// There was no memory.
    #[error("no memory")]
    Mem,
}

/// The facts of a manifest, under the media type that was given with it.
///
/// There are fewer entries than bytes, so the number of each is below 2^32.
pub fn read(alloc: Global, bytes: &[u8], media: Option<&str>) -> Result<Facts, ManifestRefusal>
    requires short { length bytes.now < 2 ^ 32 }
    ensures taken { IfOk result (λ f. facts bytes.now (option_map (λ s. s.now) media.entry) ≡ Ok f) }
    ensures refused { IfErr result (λ e. Tells e (facts bytes.now (option_map (λ s. s.now) media.entry))) }
{
    match facts(alloc, bytes, media) {
        Ok(Ok(facts)) => Ok(facts),
        Ok(Err(fault)) => Err(ManifestRefusal::Bad {
            cause: fault.cause,
            entry: fault.entry,
        }),
        Err(_) => Err(ManifestRefusal::Mem),
    }
}

/// The facts, or what is wrong.
#[tactic(auto, unfolding(ecr_model::specs::documents::Manifests::facts))]
fn facts(
    alloc: Global,
    bytes: &[u8],
    media: Option<&str>,
) -> Result<Result<Facts, ManifestFault>, Mem>
    requires { length bytes.now < 2 ^ 32 }
    ensures { IfOk result (λ r. r ≡ facts bytes.now (option_map (λ s. s.now) media.entry)) }
{
    match read_document(alloc, bytes)? {
        Some(value) => reading(alloc, given(media), &value),
        None => Ok(Err(ManifestFault { cause: 1, entry: 0 })),
    }
}

/// The media type that was given, as it is compared.
fn given<'a>(media: Option<&'a str>) -> Option<&'a [u8]>
    ensures { option_map (λ v. v.now) result ≡ option_map given_type (option_map (λ s. s.now) media.entry) }
{
    match media {
        Some(text) => Some(given_type(text.as_bytes())),
        None => None,
    }
}

/// The JSON reading of the bytes; what isn't UTF-8 has none.
#[tactic(auto, unfolding(ecr_model::specs::documents::Documents::document))]
fn read_document(alloc: Global, bytes: &[u8]) -> Result<Option<Value>, Mem>
    ensures { IfOk result (λ o. option_map view o ≡ document bytes.now) }
{
    match str::from_utf8(bytes) {
        Ok(text) => read_json(alloc, text),
        Err(_) => Ok(None),
    }
}

/// The JSON reading of the text, where it has one.
fn read_json(alloc: Global, text: &str) -> Result<Option<Value>, Mem>
    ensures { IfOk result (λ o. option_map view o ≡ read text.now) }
{
    match Value::from_str(alloc, text) {
        Ok(value) => Ok(Some(value)),
        Err(error) if error.is_memory() => Err(Mem),
        Err(_) => Ok(None),
    }
}

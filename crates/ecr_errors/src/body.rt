// Refusals as JSON (Amazon ECR API Reference, "Common Errors" and the actions' errors).
ghost use Rattle.std.specs.Prelude.{◌≡◌, ℕ, IfOk, Some, option_map};
ghost use Rattle.serde_json.specs.Read.{read};
ghost use Rattle.serde_json.specs.View.{view};
ghost use Rattle.ecr_model.specs.requests.Refusals.{part_data, plain_data, refusal_body, refusal_data};

use crate::message::{type_text, write_message};
use ecr_base::{utf8_or_empty, write_upload_id};
use ecr_json::Builder;
use ecr_model::{Mem, Refusal, RepoKey};
use std::alloc::Global;

/// The body of a refusal: a JSON object without spaces, its members in byte order of their names. `upload` is the
/// number of the upload that the call was one on, counted from 1 in its repository's name.
///
/// It has `__type` and `message`. That of a refused part names the repository and the upload too, where both are given,
/// and the last byte that was received, where one was (Amazon ECR API Reference, `UploadLayerPart`). Bytes count from
/// 0.
#[tactic(auto, unfolding(ecr_model::specs::requests::Refusals::refusal_body))]
pub fn refusal_body(
    alloc: Global,
    refusal: &Refusal,
    key: Option<&RepoKey>,
    upload: Option<u64>,
) -> Result<Vec<u8>, Mem>
    ensures text { IfOk result (λ b. b.items ≡ refusal_body refusal.now (option_map (λ k. k.now) key.entry) upload) }
    ensures reads_back { IfOk result
        (λ b. read b.items ≡ Some (refusal_data refusal.now (option_map (λ k. k.now) key.entry) upload)) }
{
    refusal_data(alloc, refusal, key, upload)?.bytes(alloc)
}

/// The refusal as JSON.
#[tactic(auto, unfolding(ecr_model::specs::requests::Refusals::refusal_data))]
fn refusal_data(
    alloc: Global,
    refusal: &Refusal,
    key: Option<&RepoKey>,
    upload: Option<u64>,
) -> Result<Builder, Mem>
    ensures { IfOk result (λ b. view b ≡ refusal_data refusal.now (option_map (λ k. k.now) key.entry) upload) }
{
    match (refusal, key, upload) {
        (Refusal::InvalidLayerPart { received }, Some(key), Some(upload)) => {
            part_data(alloc, refusal, *received, key, upload)
        }
        _ => plain_data(alloc, refusal),
    }
}

/// A refused part's JSON: with the upload of that number, its repository, and the last of `received` bytes, if any.
fn part_data(
    alloc: Global,
    refusal: &Refusal,
    received: u64,
    key: &RepoKey,
    upload: u64,
) -> Result<Builder, Mem>
    ensures { IfOk result (λ b. view b ≡ part_data refusal.now received key.now upload) }
{
    let id = write_upload_id(alloc, upload)?;
    let mut part = plain_data(alloc, refusal)?;
    part.put_text("registryId", utf8_or_empty(key.site.account.as_bytes()))?;
    part.put_text("repositoryName", utf8_or_empty(key.name.text.as_bytes()))?;
    part.put_text("uploadId", id.as_str())?;
    if received > 0 {
        part.put_whole("lastValidByteReceived", received - 1)?;
    }
    Ok(part)
}

/// `__type` and `message` alone.
fn plain_data(alloc: Global, refusal: &Refusal) -> Result<Builder, Mem>
    ensures { IfOk result (λ b. view b ≡ plain_data refusal.now) }
{
    let message = write_message(alloc, refusal)?;
    let mut plain = Builder::new(alloc);
    plain.put_text("__type", type_text(refusal))?;
    plain.put_text("message", message.as_str())?;
    Ok(plain)
}

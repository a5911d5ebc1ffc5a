// Types and messages of refusals (Amazon ECR API Reference, "Common Errors" and the actions' errors). The messages are
// of this registry.
ghost use Rattle.std.specs.Prelude.{◌≡◌, IfOk, string_bytes};
ghost use Rattle.ecr_model.specs.requests.Refusals.{message_text, type_text};

use crate::digests::write_digests;
use crate::parameter::{fault_text, write_parameter};
use crate::text::{write_both, write_number};
use ecr_base::write_digest;
use ecr_model::{Mem, Refusal};
use std::alloc::Global;

/// The refusal's `__type`.
#[tactic(auto, unfolding(ecr_model::specs::requests::Refusals::type_text))]
pub(crate) fn type_text(refusal: &Refusal) -> &'static str
    ensures { result.now ≡ type_text refusal.now }
{
    match refusal {
        Refusal::InvalidParameter(_) => "InvalidParameterException",
        Refusal::RepositoryAlreadyExists => "RepositoryAlreadyExistsException",
        Refusal::RepositoryNotFound => "RepositoryNotFoundException",
        Refusal::RepositoryNotEmpty => "RepositoryNotEmptyException",
        Refusal::UploadNotFound => "UploadNotFoundException",
        Refusal::InvalidLayerPart { .. } => "InvalidLayerPartException",
        Refusal::EmptyUpload => "EmptyUploadException",
        Refusal::LayerPartTooSmall { .. } => "LayerPartTooSmallException",
        Refusal::InvalidLayer { .. } => "InvalidLayerException",
        Refusal::LayerAlreadyExists => "LayerAlreadyExistsException",
        Refusal::LayersNotFound { .. } => "LayersNotFoundException",
        Refusal::ReferencedImagesNotFound { .. } => "ReferencedImagesNotFoundException",
        Refusal::ImageAlreadyExists => "ImageAlreadyExistsException",
        Refusal::ImageTagAlreadyExists { .. } => "ImageTagAlreadyExistsException",
        Refusal::ImageDigestDoesNotMatch { .. } => "ImageDigestDoesNotMatchException",
        Refusal::ImageNotFound => "ImageNotFoundException",
        Refusal::LimitExceeded { .. } => "LimitExceededException",
        Refusal::LifecyclePolicyNotFound => "LifecyclePolicyNotFoundException",
        Refusal::PreviewInProgress { .. } => "LifecyclePolicyPreviewInProgressException",
        Refusal::PreviewNotFound => "LifecyclePolicyPreviewNotFoundException",
        Refusal::Validation(_) => "ValidationException",
        Refusal::UnknownOperation => "UnknownOperationException",
        Refusal::Serialization => "SerializationException",
    }
}

/// The refusal's message.
#[tactic(auto, unfolding(ecr_model::specs::requests::Refusals::message_text))]
pub(crate) fn write_message(alloc: Global, refusal: &Refusal) -> Result<String, Mem>
    ensures { IfOk result (λ s. string_bytes s ≡ message_text refusal.now) }
{
    match refusal {
        Refusal::InvalidParameter(which) => {
            let name = write_parameter(alloc, *which)?;
            write_both(alloc, "invalid parameter: ", name.as_str())
        }
        Refusal::RepositoryAlreadyExists => String::from_str(alloc, "repository already exists"),
        Refusal::RepositoryNotFound => String::from_str(alloc, "repository not found"),
        Refusal::RepositoryNotEmpty => String::from_str(alloc, "repository not empty"),
        Refusal::UploadNotFound => String::from_str(alloc, "upload not found"),
        Refusal::InvalidLayerPart { .. } => String::from_str(alloc, "invalid layer part"),
        Refusal::EmptyUpload => String::from_str(alloc, "empty upload"),
        Refusal::LayerPartTooSmall { part } => {
            write_number(alloc, "layer part too small: ", *part)
        }
        Refusal::InvalidLayer { got } => {
            let digest = write_digest(alloc, got)?;
            write_both(alloc, "layer digest is ", digest.as_str())
        }
        Refusal::LayerAlreadyExists => String::from_str(alloc, "layer already exists"),
        Refusal::LayersNotFound { digests } => {
            let digests = write_digests(alloc, digests.as_slice())?;
            write_both(alloc, "layers not found: ", digests.as_str())
        }
        Refusal::ReferencedImagesNotFound { digests } => {
            let digests = write_digests(alloc, digests.as_slice())?;
            write_both(alloc, "referenced images not found: ", digests.as_str())
        }
        Refusal::ImageAlreadyExists => String::from_str(alloc, "image already exists"),
        Refusal::ImageTagAlreadyExists { holder } => {
            let digest = write_digest(alloc, holder)?;
            write_both(alloc, "image tag already exists on ", digest.as_str())
        }
        Refusal::ImageDigestDoesNotMatch { got } => {
            let digest = write_digest(alloc, got)?;
            write_both(alloc, "image digest is ", digest.as_str())
        }
        Refusal::ImageNotFound => String::from_str(alloc, "image not found"),
        Refusal::LimitExceeded { limit, .. } => write_number(alloc, "limit exceeded: ", *limit),
        Refusal::LifecyclePolicyNotFound => String::from_str(alloc, "lifecycle policy not found"),
        Refusal::PreviewInProgress { .. } => {
            String::from_str(alloc, "lifecycle policy preview in progress")
        }
        Refusal::PreviewNotFound => String::from_str(alloc, "lifecycle policy preview not found"),
        Refusal::Validation(fault) => write_both(
            alloc,
            "invalid replication configuration: ",
            fault_text(*fault),
        ),
        Refusal::UnknownOperation => String::from_str(alloc, "unknown operation"),
        Refusal::Serialization => String::from_str(alloc, "serialization"),
    }
}

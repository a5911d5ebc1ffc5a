// Why a call is refused.
use crate::{Digest, Listed, ManifestFault, PolicyFault};

/// What of a request isn't allowed: a member of its body (Amazon ECR API Reference, the actions' request parameters),
/// or a text in one.
#[derive(Clone, Copy)]
pub enum Parameter {
    /// `registryId`
    RegistryId,
    /// `repositoryName`
    RepositoryName,
    /// `imageTagMutability`
    ImageTagMutability,
    /// `force`
    Force,
    /// `repositoryNames`
    RepositoryNames,
    /// `maxResults`
    MaxResults,
    /// `nextToken`
    NextToken,
    /// `uploadId`
    UploadId,
    /// `partFirstByte`
    PartFirstByte,
    /// `partLastByte`
    PartLastByte,
    /// `layerPartBlob`
    LayerPartBlob,
    /// `layerDigests`
    LayerDigests,
    /// `layerDigest`
    LayerDigest,
    /// `imageManifest`
    ImageManifest,
    /// `imageManifestMediaType`
    ImageManifestMediaType,
    /// `imageTag`
    ImageTag,
    /// `imageDigest`
    ImageDigest,
    /// `imageIds`
    ImageIds,
    /// `imageId`
    ImageId,
    /// `filter`
    Filter,
    /// `lifecyclePolicyText`
    LifecyclePolicyText,
    /// `replicationConfiguration`
    ReplicationConfiguration,
    /// The manifest in `imageManifest`.
    Manifest(ManifestFault),
    /// The policy in `lifecyclePolicyText`.
    Policy(PolicyFault),
}

/// What is wrong with a replication configuration (Amazon ECR API Reference, `ReplicationConfiguration`).
#[derive(Clone, Copy)]
pub enum ConfigurationFault {
    /// It has too many rules.
    Rules,
    /// A rule has too many filters, or one that isn't allowed.
    RepositoryFilters,
    /// A destination isn't a served site or is the own one, or there are too many.
    Destinations,
}

/// Why a call is refused (Amazon ECR API Reference, "Common Errors" and the actions' errors).
#[derive(Drop)]
pub enum Refusal {
    /// The member isn't there where it must be, or its value isn't allowed.
    InvalidParameter(Parameter),
    /// There is a repository of this name.
    RepositoryAlreadyExists,
    /// There is no repository of this name.
    RepositoryNotFound,
    /// The repository has images, and the call doesn't force its deletion.
    RepositoryNotEmpty,
    /// There is no upload of this number.
    UploadNotFound,
    /// The part doesn't follow the bytes that were received, of which there are so many, or has another size than
    /// stated.
    InvalidLayerPart { received: u64 },
    /// The upload has no part.
    EmptyUpload,
    /// The part of this number, counted from 1, is too small.
    LayerPartTooSmall { part: u64 },
    /// The parts have this digest, which wasn't asked for.
    InvalidLayer { got: Digest },
    /// The layer is stored already.
    LayerAlreadyExists,
    /// These layers aren't stored.
    LayersNotFound { digests: Listed<Digest> },
    /// These images aren't stored.
    ReferencedImagesNotFound { digests: Listed<Digest> },
    /// The image is stored already, and has the tag.
    ImageAlreadyExists,
    /// The tag is on another image, and may not move.
    ImageTagAlreadyExists { holder: Digest },
    /// The manifest has this digest, which isn't the one that was stated.
    ImageDigestDoesNotMatch { got: Digest },
    /// There is no such image.
    ImageNotFound,
    /// There are so many already, and no more than the limit may be.
    LimitExceeded { limit: u64, count: u64 },
    /// The repository has no lifecycle policy.
    LifecyclePolicyNotFound,
    /// A preview is in progress, which was started at this ticket.
    PreviewInProgress { ticket: u64 },
    /// No preview was started.
    PreviewNotFound,
    /// The replication configuration isn't allowed.
    Validation(ConfigurationFault),
    /// The request asks for no action that is served.
    UnknownOperation,
    /// The body isn't a JSON object, or a member has another type than the action's.
    Serialization,
}

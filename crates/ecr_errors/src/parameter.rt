// The members of requests, and causes, by their texts (of this registry).
ghost use Rattle.std.specs.Prelude.{◌≡◌, IfOk, string_bytes};
ghost use Rattle.ecr_model.specs.requests.Refusals.{fault_text, parameter_text};

use crate::text::write_numbers;
use ecr_model::{ConfigurationFault, Mem, Parameter};
use std::alloc::Global;

/// The name of a member, or the first cause of a manifest or a policy with its entry or its rule.
#[tactic(auto, unfolding(ecr_model::specs::requests::Refusals::parameter_text))]
pub(crate) fn write_parameter(alloc: Global, which: Parameter) -> Result<String, Mem>
    ensures { IfOk result (λ s. string_bytes s ≡ parameter_text which) }
{
    match which {
        Parameter::RegistryId => String::from_str(alloc, "registryId"),
        Parameter::RepositoryName => String::from_str(alloc, "repositoryName"),
        Parameter::ImageTagMutability => String::from_str(alloc, "imageTagMutability"),
        Parameter::Force => String::from_str(alloc, "force"),
        Parameter::RepositoryNames => String::from_str(alloc, "repositoryNames"),
        Parameter::MaxResults => String::from_str(alloc, "maxResults"),
        Parameter::NextToken => String::from_str(alloc, "nextToken"),
        Parameter::UploadId => String::from_str(alloc, "uploadId"),
        Parameter::PartFirstByte => String::from_str(alloc, "partFirstByte"),
        Parameter::PartLastByte => String::from_str(alloc, "partLastByte"),
        Parameter::LayerPartBlob => String::from_str(alloc, "layerPartBlob"),
        Parameter::LayerDigests => String::from_str(alloc, "layerDigests"),
        Parameter::LayerDigest => String::from_str(alloc, "layerDigest"),
        Parameter::ImageManifest => String::from_str(alloc, "imageManifest"),
        Parameter::ImageManifestMediaType => String::from_str(alloc, "imageManifestMediaType"),
        Parameter::ImageTag => String::from_str(alloc, "imageTag"),
        Parameter::ImageDigest => String::from_str(alloc, "imageDigest"),
        Parameter::ImageIds => String::from_str(alloc, "imageIds"),
        Parameter::ImageId => String::from_str(alloc, "imageId"),
        Parameter::Filter => String::from_str(alloc, "filter"),
        Parameter::LifecyclePolicyText => String::from_str(alloc, "lifecyclePolicyText"),
        Parameter::ReplicationConfiguration => String::from_str(alloc, "replicationConfiguration"),
        Parameter::Manifest(fault) => write_numbers(
            alloc,
            "imageManifest cause ",
            u64::from(fault.cause),
            " entry ",
            u64::from(fault.entry),
        ),
        Parameter::Policy(fault) => write_numbers(
            alloc,
            "lifecyclePolicyText rule ",
            u64::from(fault.rule),
            " cause ",
            u64::from(fault.cause),
        ),
    }
}

/// What of a replication configuration is wrong.
pub(crate) fn fault_text(fault: ConfigurationFault) -> &'static str
    ensures { result.now ≡ fault_text fault }
{
    match fault {
        ConfigurationFault::Rules => "rules",
        ConfigurationFault::RepositoryFilters => "repositoryFilters",
        ConfigurationFault::Destinations => "destinations",
    }
}

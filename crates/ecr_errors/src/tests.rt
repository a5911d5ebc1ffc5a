use crate::{fixed_500, refusal_body};
use ecr_base::{read_name, read_site};
use ecr_model::{
    ConfigurationFault, Digest, Listed, ManifestFault, Mem, Parameter, PolicyFault, Refusal,
    RepoKey,
};
use std::alloc::Global;
use std::test::Fail;

#[test]
fn each_refusal_has_its_type_and_message(rt: HostRuntime) -> Result<(), Fail> {
    let alloc = rt.alloc();
    let key = key(alloc)?;
    for (refusal, body) in [
        (
            Refusal::InvalidParameter(Parameter::RepositoryName),
            r#"{"__type":"InvalidParameterException","message":"invalid parameter: repositoryName"}"#,
        ),
        (
            Refusal::InvalidParameter(Parameter::Manifest(ManifestFault { cause: 7, entry: 2 })),
            r#"{"__type":"InvalidParameterException","message":"invalid parameter: imageManifest cause 7 entry 2"}"#,
        ),
        (
            Refusal::InvalidParameter(Parameter::Policy(PolicyFault { rule: 1, cause: 15 })),
            r#"{"__type":"InvalidParameterException","message":"invalid parameter: lifecyclePolicyText rule 1 cause 15"}"#,
        ),
        (
            Refusal::RepositoryAlreadyExists,
            r#"{"__type":"RepositoryAlreadyExistsException","message":"repository already exists"}"#,
        ),
        (
            Refusal::RepositoryNotFound,
            r#"{"__type":"RepositoryNotFoundException","message":"repository not found"}"#,
        ),
        (
            Refusal::RepositoryNotEmpty,
            r#"{"__type":"RepositoryNotEmptyException","message":"repository not empty"}"#,
        ),
        (
            Refusal::UploadNotFound,
            r#"{"__type":"UploadNotFoundException","message":"upload not found"}"#,
        ),
        (
            Refusal::InvalidLayerPart { received: 0 },
            r#"{"__type":"InvalidLayerPartException","message":"invalid layer part","registryId":"111122223333","repositoryName":"team/app","uploadId":"00000000-0000-0000-0000-000100000001"}"#,
        ),
        (
            Refusal::InvalidLayerPart { received: 10 },
            r#"{"__type":"InvalidLayerPartException","lastValidByteReceived":9,"message":"invalid layer part","registryId":"111122223333","repositoryName":"team/app","uploadId":"00000000-0000-0000-0000-000100000001"}"#,
        ),
        (
            Refusal::EmptyUpload,
            r#"{"__type":"EmptyUploadException","message":"empty upload"}"#,
        ),
        (
            Refusal::LayerPartTooSmall { part: 1 },
            r#"{"__type":"LayerPartTooSmallException","message":"layer part too small: 1"}"#,
        ),
        (
            Refusal::InvalidLayer {
                got: Digest { bytes: [0x01; 32] },
            },
            r#"{"__type":"InvalidLayerException","message":"layer digest is sha256:0101010101010101010101010101010101010101010101010101010101010101"}"#,
        ),
        (
            Refusal::LayerAlreadyExists,
            r#"{"__type":"LayerAlreadyExistsException","message":"layer already exists"}"#,
        ),
        (
            Refusal::LayersNotFound {
                digests: two_digests(alloc)?,
            },
            r#"{"__type":"LayersNotFoundException","message":"layers not found: sha256:0101010101010101010101010101010101010101010101010101010101010101,sha256:abababababababababababababababababababababababababababababababab"}"#,
        ),
        (
            Refusal::ReferencedImagesNotFound {
                digests: two_digests(alloc)?,
            },
            r#"{"__type":"ReferencedImagesNotFoundException","message":"referenced images not found: sha256:0101010101010101010101010101010101010101010101010101010101010101,sha256:abababababababababababababababababababababababababababababababab"}"#,
        ),
        (
            Refusal::ImageAlreadyExists,
            r#"{"__type":"ImageAlreadyExistsException","message":"image already exists"}"#,
        ),
        (
            Refusal::ImageTagAlreadyExists {
                holder: Digest { bytes: [0x01; 32] },
            },
            r#"{"__type":"ImageTagAlreadyExistsException","message":"image tag already exists on sha256:0101010101010101010101010101010101010101010101010101010101010101"}"#,
        ),
        (
            Refusal::ImageDigestDoesNotMatch {
                got: Digest { bytes: [0xab; 32] },
            },
            r#"{"__type":"ImageDigestDoesNotMatchException","message":"image digest is sha256:abababababababababababababababababababababababababababababababab"}"#,
        ),
        (
            Refusal::ImageNotFound,
            r#"{"__type":"ImageNotFoundException","message":"image not found"}"#,
        ),
        (
            Refusal::LimitExceeded { limit: 2, count: 3 },
            r#"{"__type":"LimitExceededException","message":"limit exceeded: 2"}"#,
        ),
        (
            Refusal::LifecyclePolicyNotFound,
            r#"{"__type":"LifecyclePolicyNotFoundException","message":"lifecycle policy not found"}"#,
        ),
        (
            Refusal::PreviewInProgress { ticket: 5 },
            r#"{"__type":"LifecyclePolicyPreviewInProgressException","message":"lifecycle policy preview in progress"}"#,
        ),
        (
            Refusal::PreviewNotFound,
            r#"{"__type":"LifecyclePolicyPreviewNotFoundException","message":"lifecycle policy preview not found"}"#,
        ),
        (
            Refusal::Validation(ConfigurationFault::Rules),
            r#"{"__type":"ValidationException","message":"invalid replication configuration: rules"}"#,
        ),
        (
            Refusal::UnknownOperation,
            r#"{"__type":"UnknownOperationException","message":"unknown operation"}"#,
        ),
        (
            Refusal::Serialization,
            r#"{"__type":"SerializationException","message":"serialization"}"#,
        ),
    ]
    .iter()
    {
        let written = refusal_body(alloc, refusal, Some(&key), Some(4294967297))?;
        assert_eq!(rt; written.as_slice(), body.as_bytes(), "{body}");
    }
    Ok(())
}

/// `team/app` at `us-east-1/111122223333`.
fn key(alloc: Global) -> Result<RepoKey, Fail> {
    let site = read_site(alloc, b"us-east-1/111122223333")?.ok_or("no site")?;
    let name = read_name(alloc, b"team/app")?.ok_or("no name")?;
    Ok(RepoKey { site, name })
}

/// Two digests, one after the other.
fn two_digests(alloc: Global) -> Result<Listed<Digest>, Mem> {
    let mut digests = Vec::new(alloc);
    digests.push(Digest { bytes: [0x01; 32] })?;
    digests.push(Digest { bytes: [0xab; 32] })?;
    Ok(Listed::from_vec(digests))
}

#[test]
fn without_memory_the_reply_is_fixed(rt: HostRuntime) -> Result<(), Fail> {
    for (close, head, reply) in [
        (
            false,
            false,
            "HTTP/1.1 500 Internal Server Error\r\nContent-Length: 53\r\nContent-Type: application/x-amz-json-1.1\r\n\r\n{\"__type\":\"ServerException\",\"message\":\"server error\"}",
        ),
        (
            false,
            true,
            "HTTP/1.1 500 Internal Server Error\r\nContent-Length: 53\r\nContent-Type: application/x-amz-json-1.1\r\n\r\n",
        ),
        (
            true,
            false,
            "HTTP/1.1 500 Internal Server Error\r\nConnection: close\r\nContent-Length: 53\r\nContent-Type: application/x-amz-json-1.1\r\n\r\n{\"__type\":\"ServerException\",\"message\":\"server error\"}",
        ),
        (
            true,
            true,
            "HTTP/1.1 500 Internal Server Error\r\nConnection: close\r\nContent-Length: 53\r\nContent-Type: application/x-amz-json-1.1\r\n\r\n",
        ),
    ]
    .iter()
    {
        assert_eq!(rt;
            fixed_500(*close, *head),
            reply.as_bytes(),
            "{close} {head}"
        );
    }
    Ok(())
}

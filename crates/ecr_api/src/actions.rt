// The actions, and the members of their bodies (Amazon ECR API Reference, "Actions").
ghost use Rattle.std.specs.Prelude.{◌≡◌, map};
ghost use Rattle.ecr_model.specs.requests.Actions.{action_of, members_of};
ghost use Rattle.ecr_model.specs.requests.Refusals.{parameter_text};
ghost use Rattle.ecr_api.specs.Named.{AreNamed};
ghost use Rattle.ecr_api.specs.Readings.{AreMembers, IsMember};

use ecr_model::{Action, Domain, Member, Parameter};

// The targets: the service, and an action of it.
const CREATE_REPOSITORY: &[u8] = b"AmazonEC2ContainerRegistry_V20150921.CreateRepository";

const DELETE_REPOSITORY: &[u8] = b"AmazonEC2ContainerRegistry_V20150921.DeleteRepository";

const DESCRIBE_REPOSITORIES: &[u8] = b"AmazonEC2ContainerRegistry_V20150921.DescribeRepositories";

const PUT_IMAGE_TAG_MUTABILITY: &[u8] =
    b"AmazonEC2ContainerRegistry_V20150921.PutImageTagMutability";

/// A row of the table: a member that may be there, one that must be, or one that may be there where another isn't.
macro_rules! member {
    (may $parameter:ident, $domain:ident) => {
        member!(false, None, $parameter, $domain)
    };
    (must $parameter:ident, $domain:ident) => {
        member!(true, None, $parameter, $domain)
    };
    (unless $other:ident, $parameter:ident, $domain:ident) => {
        member!(false, Some(Parameter::$other), $parameter, $domain)
    };
    ($required:expr, $apart:expr, $parameter:ident, $domain:ident) => {
        Member {
            parameter: Parameter::$parameter,
            domain: Domain::$domain,
            required: $required,
            apart: $apart,
        }
    };
}

// The members of each action, in their order.
static CREATION: [Member; 3] = [
    member!(may RegistryId, Account),
    member!(must RepositoryName, RepositoryName),
    member!(may ImageTagMutability, Mutability),
];

static DELETION: [Member; 3] = [
    member!(may RegistryId, Account),
    member!(must RepositoryName, RepositoryName),
    member!(may Force, Truth),
];

static DESCRIPTION: [Member; 4] = [
    member!(may RegistryId, Account),
    member!(may RepositoryNames, RepositoryNames),
    member!(unless RepositoryNames, MaxResults, Results),
    member!(unless RepositoryNames, NextToken, Token),
];

static CHANGE_OF_MUTABILITY: [Member; 3] = [
    member!(may RegistryId, Account),
    member!(must RepositoryName, RepositoryName),
    member!(must ImageTagMutability, Mutability),
];

/// The action that a target names.
#[tactic(auto, unfolding(ecr_model::specs::requests::Actions::action_of))]
pub(crate) fn action_of(target: &[u8]) -> Option<Action>
    ensures { result ≡ action_of target.now }
{
    if target == CREATE_REPOSITORY {
        return Some(Action::CreateRepository);
    }
    if target == DELETE_REPOSITORY {
        return Some(Action::DeleteRepository);
    }
    if target == DESCRIBE_REPOSITORIES {
        return Some(Action::DescribeRepositories);
    }
    if target == PUT_IMAGE_TAG_MUTABILITY {
        return Some(Action::PutImageTagMutability);
    }
    None
}

/// The members of an action's body, in the order in which they are tested.
#[tactic(auto, unfolding(ecr_model::specs::requests::Actions::members_of))]
pub(crate) fn members_of(action: Action) -> &'static [Member]
    ensures exact { result.now ≡ members_of action }
    ensures named { AreMembers result.now }
{
    match action {
        Action::CreateRepository => &CREATION,
        Action::DeleteRepository => &DELETION,
        Action::DescribeRepositories => &DESCRIPTION,
        Action::PutImageTagMutability => &CHANGE_OF_MUTABILITY,
    }
}

/// The names of an action's members.
#[tactic(auto, unfolding(ecr_model::specs::requests::Actions::members_of, ecr_model::specs::requests::Refusals::parameter_text))]
pub(crate) fn member_names(action: Action) -> &'static [&'static str]
    ensures { AreNamed (map (λ n. n.now) result.now) (members_of action) }
{
    match action {
        Action::CreateRepository => &["registryId", "repositoryName", "imageTagMutability"],
        Action::DeleteRepository => &["registryId", "repositoryName", "force"],
        Action::DescribeRepositories => {
            &["registryId", "repositoryNames", "maxResults", "nextToken"]
        }
        Action::PutImageTagMutability => &["registryId", "repositoryName", "imageTagMutability"],
    }
}

/// The name of a member.
#[tactic(auto, unfolding(ecr_model::specs::requests::Refusals::parameter_text))]
pub(crate) fn parameter_text(parameter: Parameter) -> &'static str
    requires { IsMember parameter }
    ensures { result.now ≡ parameter_text parameter }
{
    match parameter {
        Parameter::RegistryId => "registryId",
        Parameter::RepositoryName => "repositoryName",
        Parameter::ImageTagMutability => "imageTagMutability",
        Parameter::Force => "force",
        Parameter::RepositoryNames => "repositoryNames",
        Parameter::MaxResults => "maxResults",
        Parameter::NextToken => "nextToken",
        Parameter::UploadId => "uploadId",
        Parameter::PartFirstByte => "partFirstByte",
        Parameter::PartLastByte => "partLastByte",
        Parameter::LayerPartBlob => "layerPartBlob",
        Parameter::LayerDigests => "layerDigests",
        Parameter::LayerDigest => "layerDigest",
        Parameter::ImageManifest => "imageManifest",
        Parameter::ImageManifestMediaType => "imageManifestMediaType",
        Parameter::ImageTag => "imageTag",
        Parameter::ImageDigest => "imageDigest",
        Parameter::ImageIds => "imageIds",
        Parameter::ImageId => "imageId",
        Parameter::Filter => "filter",
        Parameter::LifecyclePolicyText => "lifecyclePolicyText",
        Parameter::ReplicationConfiguration => "replicationConfiguration",
        Parameter::Manifest(_) | Parameter::Policy(_) => "",
    }
}

// Repositories: all that a name at a site has.
use crate::{CopyFacts, CopyId, Digest, Listed, Moment, Policy, PreviewRow, Row, SiteId};

/// Whether a tag may move to another image (Amazon ECR API Reference, `imageTagMutability`).
#[derive(Clone, Copy, Debug, PartialEq, Eq)]
pub enum Mutability {
    /// `MUTABLE`
    Mutable,
    /// `IMMUTABLE`
    Immutable,
}

/// What a repository that is present is created with.
#[derive(Clone, Copy, Debug, PartialEq, Eq)]
pub struct Presence {
    /// When it was created, in seconds.
    pub created: Moment,
    pub mutability: Mutability,
}

/// A stored layer.
#[derive(Clone, Copy, Debug, PartialEq, Eq)]
pub struct Layer {
    pub digest: Digest,
    /// In bytes.
    pub size: u64,
    /// When it was stored, in seconds.
    pub stored: Moment,
}

/// An upload in progress.
#[derive(Drop)]
pub struct UploadState {
    /// From 1 in each name, and never used again.
    pub number: u64,
    /// Whether the Docker front began it.
    pub docker: bool,
    /// When it was begun, in seconds.
    pub begun: Moment,
    /// The sizes of its parts in bytes, the first part first.
    pub sizes: Listed<u64>,
}

/// A preview of a lifecycle policy.
#[derive(Drop)]
pub struct Preview {
    /// That of the turn that started it.
    pub ticket: u64,
    pub policy: Policy,
    /// When it was started, in seconds.
    pub moment: Moment,
    /// The images when it was started, by birth.
    pub rows: Listed<Row>,
    /// None while it is in progress.
    pub results: Option<Listed<PreviewRow>>,
}

/// How far a copy has come.
#[derive(Clone, Copy, Debug, PartialEq, Eq)]
pub enum CopyState {
    Pending,
    Complete,
    Failed,
}

/// How far the last copy of an image to a site has come (Amazon ECR API Reference, `ImageReplicationStatus`).
#[derive(Drop)]
pub struct CopyStatus {
    pub to: SiteId,
    pub state: CopyState,
}

/// A copy that a push made.
#[derive(Drop)]
pub struct CopyRecord {
    pub id: CopyId,
    /// That of the pushed image.
    pub birth: u64,
    pub facts: CopyFacts,
    pub state: CopyState,
}

/// All that a repository's name has, whether the repository is present or not. Births and upload numbers rise in each
/// name and are never used again.
#[derive(Drop)]
pub struct Repository {
    /// None where the repository is absent.
    pub present: Option<Presence>,
    /// By birth.
    pub images: Listed<Row>,
    /// By rising digest, each once.
    pub layers: Listed<Layer>,
    /// By number.
    pub uploads: Listed<UploadState>,
    pub policy: Option<Policy>,
    /// How often a policy was set or dropped.
    pub version: u64,
    /// When the last sweep was, in seconds.
    pub evaluated: Option<Moment>,
    pub preview: Option<Preview>,
    /// In the order of their pushes.
    pub copies: Listed<CopyRecord>,
    /// Those that were received here.
    pub received: Listed<CopyId>,
    /// The next image's birth number.
    pub next_birth: u64,
    /// The next upload's number.
    pub next_upload: u64,
    /// The moment of the last image that was added, in seconds; 0 where none was.
    pub last_pushed: Moment,
}

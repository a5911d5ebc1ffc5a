// What goes with a call, and what comes of it.
use crate::Blob;
use ecr_model::Reply;

/// The content that comes with a call on a repository.
#[derive(Drop)]
pub enum Load {
    /// None.
    Nothing,
}

/// What a call on a repository comes to.
#[derive(Drop)]
pub struct Outcome {
    pub reply: Reply,
    /// The content that the reply names, in its order.
    pub blobs: Vec<Blob>,
    /// Whether the repository changed: then its journal has one entry more.
    pub changed: bool,
}

// What calls on a desk are answered.
use ecr_blob_upload::Blob;
use ecr_model::{Digest, Place, Reply, SiteReply};

/// What a call on a site's directory is answered.
#[derive(Drop)]
pub struct SiteAnswer {
    pub reply: SiteReply,
    /// Where in the directory's order it was decided.
    pub place: Place,
}

/// What a call on a repository is answered.
#[derive(Drop)]
pub struct Answer {
    pub reply: Reply,
    /// The content that the reply names, in its order.
    pub blobs: Vec<Blob>,
    /// Where it was decided: in the directory, and then in the repository where its name is registered.
    pub places: Vec<Place>,
    /// The digest of all parts with which an upload's completion was decided; none of another call.
    pub sealed: Option<Digest>,
}

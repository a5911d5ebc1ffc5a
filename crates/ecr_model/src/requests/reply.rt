// What a call is answered.
use crate::{Listed, Moment, Mutability, Name, Refusal};

/// A repository in a reply (Amazon ECR API Reference, `Repository`).
#[derive(Drop)]
pub struct Described {
    pub name: Name,
    /// When it was created, in seconds.
    pub created: Moment,
    pub mutability: Mutability,
}

/// What a call on repositories is answered.
#[derive(Drop)]
pub enum Reply {
    /// The repository was created.
    Created {
        created: Moment,
        mutability: Mutability,
    },
    /// The repository was deleted; it was like this.
    Deleted {
        created: Moment,
        mutability: Mutability,
    },
    /// The repositories.
    Described {
        rows: Listed<Described>,
        /// The place of the next row, where some remain.
        next: Option<u64>,
    },
    /// This is the repository's mutability from now on.
    MutabilitySet {
        mutability: Mutability,
    },
    /// Nothing changed.
    Refused(Refusal),
}

/// What a call on a site's directory is answered.
#[derive(Drop)]
pub enum SiteReply {
    /// The names of the page, in the order of their bytes.
    Names {
        names: Listed<Name>,
        /// Whether there are names behind them.
        more: bool,
    },
    /// Nothing changed.
    Refused(Refusal),
}

//! The reading of manifests: of images and of lists, in the forms of OCI and of Docker.
//!
//! `read` gives the facts that `ecr_model` states, or the first cause for which bytes aren't a manifest that is taken.
//! Whether the layers and the images that a manifest names are there is not asked here.
#![tactic(auto)]

mod blobs;
mod bytes;
mod descriptor;
mod given;
mod manifest;
mod once;
#[cfg(test)]
mod tests;

pub use bytes::{ManifestRefusal, read};

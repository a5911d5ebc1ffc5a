// What a registry keeps.
pub mod directory;
pub mod images;
pub mod journal;
pub mod lifecycle;
pub mod manifest;
pub mod repository;

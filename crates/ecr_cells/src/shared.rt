// The cells of many callers: each behind a turnstile of its own.

pub(crate) mod desk;
pub(crate) mod directory;
pub(crate) mod door;
pub(crate) mod doors;
pub(crate) mod pass;
pub(crate) mod pause;
pub(crate) mod repository;
pub(crate) mod site;
#[cfg(test)]
mod tests;
#[cfg(test)]
mod thread_tests;

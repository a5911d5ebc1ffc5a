// Where a caller waits within a turn of a repository.
use ecr_outside::{Gate, Stage};
use std::sync::Wait;

/// What a caller waits for in a turn of a repository, before it does anything there.
pub(crate) trait Pause {
    fn pause<W: Wait>(&self, rt: &W);
}

/// Nothing.
#[derive(Clone, Copy)]
pub(crate) struct NoPause;

impl Pause for NoPause {
    fn pause<W: Wait>(&self, _rt: &W) {}
}

/// A gate, which the worker passes.
#[derive(Clone, Copy)]
pub(crate) struct AtGate<'a, G: Gate> {
    pub(crate) gate: &'a G,
    pub(crate) worker: u32,
}

impl<'a, G: Gate> Pause for AtGate<'a, G> {
    fn pause<W: Wait>(&self, rt: &W) {
        self.gate.pass(rt, self.worker, Stage::InTurn);
    }
}

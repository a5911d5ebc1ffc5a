// The stages of a session, at which a gate may hold it.
use ecr_outside::{Gate, Stage};
use std::sync::Wait;

/// Who is told how far a session has come. What a session does is the same whoever it is.
pub(crate) trait Stages {
    /// The session is at the stage.
    fn at(&self, stage: Stage);
}

/// Nobody is told.
#[derive(Drop)]
pub(crate) struct Unwatched;

impl Stages for Unwatched {
    fn at(&self, _stage: Stage) {}
}

/// A worker passes a gate at each stage, and may wait there.
#[derive(Drop)]
pub(crate) struct AtGate<'a, W: Wait, G: Gate> {
    pub rt: &'a W,
    pub gate: &'a G,
    pub worker: u32,
}

impl<'a, W: Wait, G: Gate> Stages for AtGate<'a, W, G> {
    fn at(&self, stage: Stage) {
        self.gate.pass(self.rt, self.worker, stage);
    }
}

//! The outside of the registry: where bytes come from, where they go, and what the time is.
//!
//! [`Source`], [`Sink`], [`Clock`] and [`Accept`] say what every caller may rely on. This crate parses nothing
//! and keeps no bytes back.
#![tactic(auto)]

mod accept;
mod clock;
mod faults;
mod gate;
mod listener;
mod mem_accept;
mod plan;
mod real;
mod sink;
mod source;
mod told;

pub use accept::{Accept, Clocks, Next, Opened};
pub use clock::{Clock, MemClock};
pub use gate::{Gate, HoldGate, OpenGate, Stage};
pub use listener::{LinkSink, LinkSource, RealAccept};
pub use mem_accept::{MemAccept, SharedSink};
pub use real::{RealClock, RealClocks, RealSink, RealSource};
pub use sink::{MemSink, Sink, Took};
pub use source::{Got, MemSource, Source};

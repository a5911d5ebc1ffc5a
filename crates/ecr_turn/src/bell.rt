// Where callers sleep until a turn ends.
use std::sync::Wait;
use std::sync::atomic::{AtomicU64, Ordering};

// The number of callers that sleep or are about to, and the number of rings. Each turn rings once it has ended.
//
// No wake-up is lost. A caller is counted, reads the number of rings, and then looks whether the turn is taken. If so,
// that turn ends after the rings were read, and its thread reads the count after its end. All these steps are in one
// order, so it sees the caller's count and rings. The park then returns at once, or the caller is among those that this
// ring wakes one of. One is enough, and any: between turns no ticket is out, so whoever looks first draws the next one.
// The woken caller draws it, or another has drawn it, at whose turn's end the bell rings again.
// A park compares 32 bits, so it would miss 2^32 rings between the read and the park.
#[derive(Drop)]
pub(crate) struct Bell {
    sleepers: AtomicU64,
    rings: AtomicU64,
}

impl Bell {
    pub(crate) fn new() -> Bell {
        Bell {
            sleepers: AtomicU64::new(0),
            rings: AtomicU64::new(0),
        }
    }

    // How many callers sleep or are about to.
    pub(crate) fn sleepers(&self) -> u64 {
        self.sleepers.load(Ordering::SeqCst)
    }

    // Wakes a caller, if one sleeps. Where none does, it costs one load.
    pub(crate) fn ring(&self) {
        if self.sleepers() != 0 {
            self.rings.fetch_add(1, Ordering::SeqCst);
            self.rings.wake_one();
        }
    }

    // Counts the caller, and reads the number of rings.
    pub(crate) fn listen(&self) -> u32 {
        self.sleepers.fetch_add(1, Ordering::SeqCst);
        (self.rings.load(Ordering::SeqCst) & 0xffff_ffff) as u32
    }

    // Sleeps until a ring after those that were heard, if a turn is taken, and counts the caller out.
    pub(crate) fn sleep<R: Wait>(&self, rt: &R, heard: u32, taken: bool) {
        if taken {
            self.rings.park(rt, heard);
        }
        self.sleepers.fetch_sub(1, Ordering::SeqCst);
    }
}

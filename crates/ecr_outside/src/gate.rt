// Where a test may hold a worker.
use std::sync::Wait;
use std::sync::atomic::{AtomicBool, Ordering};
use std::thread::yield_now;

/// The places at which a worker passes its gate.
#[derive(Clone, Copy, Debug, PartialEq, Eq)]
pub enum Stage {
    /// A session has the moment of a request and has made no turn for it yet.
    InCall,
    /// A session has sent a reply.
    Answered,
    /// The worker has the turn of a repository, which it makes without an entry.
    InTurn,
}

/// A gate that workers pass at certain stages, where a test may hold one of them until another has come so far.
///
/// What a program does is the same whether a gate holds or not: nothing is answered.
pub trait Gate {
    /// The worker of that number is at the stage. It may wait there.
    fn pass<W: Wait>(&self, rt: &W, worker: u32, stage: Stage);
}

/// A gate that holds nobody.
#[derive(Clone, Copy, Debug)]
pub struct OpenGate;

impl Gate for OpenGate {
    fn pass<W: Wait>(&self, _rt: &W, _worker: u32, _stage: Stage) {}
}

/// A gate that holds one worker at one stage until another worker has passed a stage.
///
/// Threads share it. Contracts know nothing of it, since others may pass it at any time.
#[derive(Drop)]
pub struct HoldGate {
    worker: u32,
    stage: Stage,
    until: Stage,
    turns: u64,
    reached: AtomicBool,
    passed: AtomicBool,
    spent: AtomicBool,
}

impl HoldGate {
    /// A gate that holds `worker` at `stage` until another one has passed `until`. It looks at most `turns` times
    /// whether that is so, and lets others run after each.
    pub fn new(worker: u32, stage: Stage, until: Stage, turns: u64) -> HoldGate {
        HoldGate {
            worker,
            stage,
            until,
            turns,
            reached: AtomicBool::new(false),
            passed: AtomicBool::new(false),
            spent: AtomicBool::new(false),
        }
    }

    /// Whether the worker has come to the stage.
    pub fn reached(&self) -> bool {
        self.reached.load(Ordering::SeqCst)
    }

    /// Whether the worker was let go because its turns were spent.
    pub fn spent(&self) -> bool {
        self.spent.load(Ordering::SeqCst)
    }

    fn hold(&self) {
        self.reached.store(true, Ordering::SeqCst);
        for _ in 0..self.turns {
            if self.passed.load(Ordering::SeqCst) {
                return;
            }
            yield_now();
        }
        self.spent.store(true, Ordering::SeqCst);
    }
}

impl Gate for HoldGate {
    fn pass<W: Wait>(&self, _rt: &W, worker: u32, stage: Stage) {
        if worker != self.worker {
            if stage == self.until {
                self.passed.store(true, Ordering::SeqCst);
            }
        } else if stage == self.stage {
            self.hold();
        }
    }
}

#[cfg(test)]
mod tests {
    use crate::{Gate, HoldGate, Stage};
    use std::sync::Wait;
    use std::sync::atomic::{AtomicBool, Ordering};
    use std::test::Fail;
    use std::thread;

    const TURNS: u64 = 1_000_000;

    // Worker 1 comes to the gate, and tells whether worker 2 was through when it was let go.
    fn is_held<R: Wait>(rt: &R, gate: &HoldGate, through: &AtomicBool) -> bool {
        gate.pass(rt, 1, Stage::InTurn);
        through.load(Ordering::SeqCst)
    }

    // Worker 2 waits until worker 1 is at the gate, is through, and passes it.
    fn go_through<R: Wait>(rt: &R, gate: &HoldGate, through: &AtomicBool) {
        for _ in 0..TURNS {
            if gate.reached() {
                break;
            }
            thread::yield_now();
        }
        through.store(true, Ordering::SeqCst);
        gate.pass(rt, 2, Stage::Answered);
    }

    #[test]
    fn a_worker_is_held_until_another_has_passed(rt: HostRuntime) -> Result<(), Fail> {
        let gate = HoldGate::new(1, Stage::InTurn, Stage::Answered, TURNS);
        let through = AtomicBool::new(false);
        let (host, shared, flag) = (&rt, &gate, &through);
        let (held, ()) = thread::join(
            host,
            move || is_held(host, shared, flag),
            move || go_through(host, shared, flag),
        );
        assert!(rt; held);
        assert!(rt; gate.reached());
        assert!(rt; !gate.spent());
        Ok(())
    }

    #[test]
    fn a_worker_is_let_go_when_its_turns_are_spent(rt: HostRuntime) -> Result<(), Fail> {
        let gate = HoldGate::new(1, Stage::InCall, Stage::Answered, 10);
        // Neither its own stages nor the others of another worker let it go.
        for (worker, stage, spent) in [
            (1, Stage::Answered, false),
            (2, Stage::InCall, false),
            (1, Stage::InTurn, false),
            (1, Stage::InCall, true),
        ] {
            gate.pass(&rt, worker, stage);
            assert!(rt; gate.spent() == spent);
        }
        Ok(())
    }
}

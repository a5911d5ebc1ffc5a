// How often something failed.
ghost use Rattle.std.specs.Prelude.{◌≡◌, ◌+◌};

use std::marker::Model;
use std::snapshot::Snapshot;

/// How often something failed. It has no upper limit and next to no bytes, since clauses alone read it.
#[derive(Drop)]
pub struct Faults {
    before_last: Option<Snapshot<Faults>>,
}

impl Model for Faults {
    ghost use Rattle.std.specs.Prelude.{ℕ};
    ghost use Rattle.std.proofs.Common.{arith};

    ghost Value = { ℕ };

    ghost use Rattle.ecr_outside.specs.Faults.{one_more};

    ghost view = { λ f. one_more f.before_last };

    ghost size = { λ n. n };

    ghost size_decreases = { λ f h. Prim.grind arith };
}

impl Faults {
    /// None so far.
    pub fn none() -> Faults
        ensures zero { result ≡ 0 }
    {
        Faults { before_last: None }
    }

    /// Counts one more.
    pub fn rise(&mut self)
        ensures risen { self.new ≡ self.old + 1 }
    {
        let before = Snapshot::of(self);
        self.before_last = Some(before);
    }
}

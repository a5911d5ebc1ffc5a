// The moments that a clock gave.
ghost use Rattle.std.specs.Prelude.{◌≡◌, ◌++◌, ◌∷◌, []};

use ecr_model::Moment;
use std::marker::Model;
use std::snapshot::Snapshot;

/// The moments that a clock gave, the first one first. It keeps the last alone, since clauses alone
/// read the others.
#[derive(Drop)]
pub struct Told {
    before_last: Option<Snapshot<Told>>,
    last: Moment,
}

impl Model for Told {
    ghost use Rattle.std.specs.Prelude.{List, ℕ, length};
    ghost use Rattle.std.proofs.Common.{arith, length-append};

    ghost Value = { List ℕ };

    ghost use Rattle.ecr_outside.specs.Told.{with_last};

    ghost view = { λ t. with_last t.before_last t.last };

    ghost size = { length };

    ghost size_decreases = { λ t h. Prim.grind (arith, length-append) };
}

impl Told {
    /// None so far.
    pub fn none() -> Told
        ensures empty { result ≡ [] }
    {
        Told {
            before_last: None,
            last: 0,
        }
    }

    /// Adds one more.
    pub fn add(&mut self, moment: Moment)
        ensures added { self.new ≡ self.old ++ moment ∷ [] }
    {
        let before = Snapshot::of(self);
        self.before_last = Some(before);
        self.last = moment;
    }
}

// Changing the state in a turn.
ghost use Rattle.std.specs.Prelude.{◌≡◌, []};
ghost use Rattle.std.specs.Borrow.{Lends, sem};
ghost use mir.Syntax.{named};
ghost use Rattle.ecr_turn.specs.contracts.turnstile.Turn.{the_row};

use crate::journal::Journal;
use crate::turnstile::Turn;

impl<'a, S: Journal> Turn<'a, S> {
    /// The state, to be changed. [`Turn::leave`] says which changes a turn may end with.
    pub fn change(&mut self) -> &mut S
        ensures* writes_back { sem 𝓛
            (Lends (the_row (record { mir = named 1; lft = [] }) S.row
            (record { lines = S.lines; frame = S.frame })) S.row self.entry result
            (λ w. record self.entry.now { state = w })) }
        ensures value { result.now ≡ self.old.state }
    {
        &mut self.state
    }
}

// Which values cross threads. The function does nothing: its contract is the law.
ghost use Rattle.std.specs.Prelude.{[]};
ghost use Rattle.std.specs.Thread.{IsSend, IsSync};
ghost use mir.Syntax.{named};
ghost use Rattle.ecr_turn.specs.contracts.turnstile.Turnstile.{the_row as turnstile};
ghost use Rattle.ecr_turn.specs.contracts.turnstile.Pass.{the_row as pass};
ghost use Rattle.ecr_turn.specs.contracts.turnstile.Turn.{the_row as turn};

use crate::journal::Journal;

/// Turnstiles, passes and turns may be sent to other threads and shared with them, where the state may.
pub fn turns_cross_threads<S: Journal + Send + Sync>()
    ensures turnstiles_sent { IsSend (turnstile S.row (record { lines = S.lines; frame = S.frame })) }
    ensures turnstiles_shared { IsSync (turnstile S.row (record { lines = S.lines; frame = S.frame })) }
    ensures passes_sent { IsSend (pass S.row (record { lines = S.lines; frame = S.frame })) }
    ensures passes_shared { IsSync (pass S.row (record { lines = S.lines; frame = S.frame })) }
    ensures turns_sent { IsSend
        (turn (record { mir = named 1; lft = [] }) S.row (record { lines = S.lines; frame = S.frame })) }
    ensures turns_shared { IsSync
        (turn (record { mir = named 1; lft = [] }) S.row (record { lines = S.lines; frame = S.frame })) }
{}

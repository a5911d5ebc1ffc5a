// Which values cross threads. The function does nothing: its contract is the law.
ghost use Rattle.std.specs.Thread.{IsSend, IsSync};
ghost use Rattle.ecr_cells.specs.contracts.desk.SoloDesk.{the_row as desk};
ghost use Rattle.ecr_cells.specs.contracts.shared.desk.SharedDesk.{the_row as shared_desk};
ghost use Rattle.ecr_cells.specs.contracts.shared.pass.DeskPass.{the_row as pass};

/// A desk may be sent to other threads.
pub fn desks_cross_threads()
    ensures send { IsSend desk }
{}

/// A shared desk may be sent to other threads and used by several at once, each with a pass that was sent to it.
pub fn shared_desks_cross_threads()
    ensures desks_sent { IsSend shared_desk }
    ensures desks_shared { IsSync shared_desk }
    ensures passes_sent { IsSend pass }
{}

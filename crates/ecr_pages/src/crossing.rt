// Which values cross threads. The function does nothing: its contract is the law.
ghost use Rattle.std.specs.Thread.{IsSend, IsSync};
ghost use Rattle.ecr_pages.specs.contracts.pages.Pages.{the_row as pages};
ghost use Rattle.ecr_pages.specs.contracts.snapshot.Snapshot.{the_row as snapshot};

/// Pages and snapshots may be sent to other threads and shared with them, where the rows may.
pub fn pages_cross_threads<R: Send + Sync>()
    ensures pages_sent { IsSend (pages R.row) }
    ensures pages_shared { IsSync (pages R.row) }
    ensures snapshots_sent { IsSend (snapshot R.row) }
    ensures snapshots_shared { IsSync (snapshot R.row) }
{}

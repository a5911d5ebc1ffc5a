// Which values cross threads. The function does nothing: its contract is the law.
ghost use Rattle.std.specs.Thread.{IsSend};
ghost use Rattle.ecr_site.specs.contracts.state.SiteState.{the_row as state};

/// A directory may be sent to other threads.
pub fn states_cross_threads()
    ensures send { IsSend state }
{}

// Laws of what is kept of a plan.
ghost use Rattle.derived_figures.specs.WaitStates.{NamingKeepsKept};

/// The law that to name operations that are ready changes nothing of what is kept. It does nothing.
pub fn naming_keeps_kept()
    ensures { NamingKeepsKept }
{}

//! The law of what both texts ask for.
ghost use Rattle.cayuga_run.specs.Expected.{OneStatus};

/// Both texts ask for at most one status.
pub fn texts_ask_for_one_status()
    ensures { OneStatus }
{}

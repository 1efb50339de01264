//! Laws over the definitions.
ghost use Rattle.image_model.specs.Laws.{GeneralIsTheKernel, TheUpgradedRunsAsBefore};

/// An image whose sites all have the general form, with nothing known of their statuses, is the kernel: for each mode and
/// list of events its trace is the kernel's, and it never traps.
pub fn general_is_the_kernel()
    ensures { GeneralIsTheKernel }
{}

/// An image that is upgraded does in each mode under each list of events what it did before.
pub fn the_upgraded_runs_as_before()
    ensures { TheUpgradedRunsAsBefore }
{}

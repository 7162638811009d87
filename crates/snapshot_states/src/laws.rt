//! Laws of the states that a restore takes.

ghost use Rattle.snapshot_states.specs.Fitting.{FitsAreClocked, FitsAreInUse, FitsAreSound, FitsAreSpent};

/// Each state that a restore takes is one that a phone's machine can be in: sound, with the countdowns of its phase, and of a
/// context whose vector is spent.
pub fn states_that_fit()
    ensures sound { FitsAreSound }
    ensures clocked { FitsAreClocked }
    ensures in_use { FitsAreInUse }
    ensures spent { FitsAreSpent }
{}

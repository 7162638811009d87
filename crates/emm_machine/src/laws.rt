//! Laws of whole runs: each is the contract of a function that does nothing.

ghost use Rattle.emm_machine.specs.Freshness.{AcceptsAhead, AcceptsOnce, GoesOnward, IsInUse, MakesAhead, MakesOnce, SendsAhead, SendsOnce, StaysInUse};
ghost use Rattle.emm_machine.specs.Words.{fresh_solo};

use nas_security::accepted_is_fresh;

/// A subscriber who was never seen is in use (`IsInUse`), and what is in use stays so over every run. No step, from whatever state,
/// leaves one that asks for a spent vector (`GoesOnward`).
pub fn in_use_is_kept()
    ensures fresh { IsInUse fresh_solo }
    ensures run { StaysInUse }
    ensures onward { GoesOnward }
{
    accepted_is_fresh();
}

/// Over every run from a state in use, each NAS message is protected under a count from the context's next downlink count on, or
/// under a vector that may yet become a context; each pair of vector and count is above all earlier ones, so none protects two
/// messages (TS 33.401 clause 6.5).
pub fn sent_counts_are_fresh()
    ensures ahead { SendsAhead }
    ensures once { SendsOnce }
{
    accepted_is_fresh();
}

/// Over every run from a state in use, each uplink count that is accepted is above the last that the context accepted, or of a
/// vector that may yet become a context; each pair of vector and count is above all earlier ones, so none is accepted twice (TS
/// 24.301 clause 4.4.3.2).
pub fn accepted_counts_are_fresh()
    ensures ahead { AcceptsAhead }
    ensures once { AcceptsOnce }
{
    accepted_is_fresh();
}

/// Over every run from a state in use, the vectors that become contexts may yet do so at its start, and have rising places, so none
/// becomes a context twice (TS 33.401 clause 6.5).
pub fn vector_makes_one_context()
    ensures ahead { MakesAhead }
    ensures once { MakesOnce }
{
    accepted_is_fresh();
}

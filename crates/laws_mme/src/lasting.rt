//! Procedures last as long as is due and no shorter, where nothing but time comes. Each law is the contract of a function that does
//! nothing.

ghost use Rattle.laws_mme.specs.Lasting.{LastsUntilDue, WaitsUntilDue};

use laws_subscriber::clocks_are_kept;

/// A procedure to which nothing but time comes stays in its phase while fewer ticks have passed than are due, if the context has
/// enough downlink counts left for the repeats: so the ticks after which it is over are exact (TS 24.301 clause 10.2).
pub fn procedures_last()
    ensures { LastsUntilDue }
{
    clocks_are_kept();
}

/// And a stranger to whom nothing but time comes waits while fewer ticks have passed than are due.
pub fn strangers_wait()
    ensures { WaitsUntilDue }
{}

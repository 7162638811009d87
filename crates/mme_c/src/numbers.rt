//! The numbers that C is answered.

ghost use Rattle.std.specs.Prelude.{◌≡◌};
ghost use Rattle.c_session.specs.Refusals.{number_of};
ghost use Rattle.mme_c.specs.Calls.{answer_number};

use c_session::Refusal;

/// The answer of a call that is done.
pub(crate) const OK: u32 = 0;

/// The number of a refusal.
pub(crate) fn refused(refusal: Refusal) -> u32
    ensures { result ≡ number_of refusal }
{
    u32::from(refusal.number())
}

/// 0, or the number of the refusal.
pub(crate) fn answer(told: Result<(), Refusal>) -> u32
    ensures { result ≡ answer_number told }
{
    match told {
        Ok(()) => OK,
        Err(refusal) => refused(refusal),
    }
}

//! Laws of a bearer: each is the contract of a function that does nothing.

ghost use Rattle.esm_machine.specs.Laws.{ActivationIsRead, AnswerKeepsTransaction, InformedIsAwaited, RequestStays};

/// What `Bearer::activate` writes is read as the activation, with an APN of 1 to 63 octets: bearer 5, the transaction of the
/// request that was taken, the APN, the address, and the cause where IPv4v6 was asked for.
pub fn activation_is_read()
    ensures { ActivationIsRead }
{}

/// A request that was taken stays, whatever octets come.
pub fn request_stays()
    ensures { RequestStays }
{}

/// A message is answered in its own transaction.
pub fn answer_keeps_transaction()
    ensures { AnswerKeepsTransaction }
{}

/// ESM information is taken only where it is awaited, in the transaction of the request that was taken.
pub fn informed_is_awaited()
    ensures { InformedIsAwaited }
{}

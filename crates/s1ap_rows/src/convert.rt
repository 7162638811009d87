//! Faults of the layers below.

ghost use Rattle.std.specs.Prelude.{◌≡◌};
ghost use Rattle.s1ap_rows.specs.declared.fault.S1apFault.TheVariants as faults;
ghost use Rattle.s1ap_rows.specs.Answers.{fault_of};

use crate::fault::S1apFault;
use per_bits::{PerError, PerFault};

impl From<PerFault> for S1apFault {
    ghost from_gives = { λ f e. e ≡ faults.Syntax f };

    fn from(f: PerFault) -> S1apFault {
        S1apFault::Syntax(f)
    }
}

impl From<PerError> for S1apFault {
    ghost from_gives = { λ f e. e ≡ fault_of f };

    fn from(f: PerError) -> S1apFault {
        match f {
            PerError::Fault(f) => S1apFault::Syntax(f),
            PerError::NoMemory => S1apFault::NoMemory,
        }
    }
}

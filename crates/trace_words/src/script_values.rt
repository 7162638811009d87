//! Numbers in the fields of a script's lines.

ghost use Rattle.std.specs.Prelude.{◌≡◌, ◌<◌, ◌^◌};

use std::marker::Model;

/// The id of a macro eNodeB in its network, in 20 bits (TS 36.413 clause 9.2.1.37); a contract sees the number.
#[derive(Clone, Copy)]
pub struct MacroId {
    id: u32,
}

impl Model for MacroId {
    ghost use Rattle.std.specs.Prelude.{ℕ, ◌<◌, ◌^◌};

    ghost Value = { ℕ };

    ghost view = { λ m. m.id };

    ghost invariant = { λ m. m.id < 2 ^ 20 };

    ghost inverse = { λ n. record { id = n } };
}

impl MacroId {
    /// The id of a number below 2^20.
    pub fn new(id: u32) -> MacroId
        requires { id < 2 ^ 20 }
        ensures { result ≡ id }
    {
        MacroId { id }
    }

    /// The number.
    pub fn get(self) -> u32
        ensures value { result ≡ self }
        ensures bound { result < 2 ^ 20 }
    {
        self.id
    }
}

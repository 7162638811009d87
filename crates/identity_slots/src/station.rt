//! Stations by number.

ghost use Rattle.std.specs.Prelude.{◌≡◌, ◌<◌, ◌↔◌, ℕ, IsSome, IfSome};

use std::marker::Model;

/// A station by its number, 0 to 127; a contract sees the number.
#[derive(Clone, Copy, Debug, PartialEq, Eq)]
pub struct StationNumber {
    number: u8,
}

impl Model for StationNumber {
    ghost Value = { ℕ };

    ghost view = { λ s. s.number };

    ghost invariant = { λ s. s.number < 128 };

    ghost inverse = { λ n. record { number = n } };
}

impl StationNumber {
    /// The station of a number below 128.
    pub fn new(number: u8) -> StationNumber
        requires { number < 128 }
        ensures { result ≡ number }
    {
        StationNumber { number }
    }

    /// The station of that number, where it is below 128.
    pub fn try_new(number: u8) -> Option<StationNumber>
        ensures some { IsSome result ↔ (number < 128) }
        ensures value { IfSome result (λ s. s ≡ number) }
    {
        if number < 128 {
            Some(StationNumber { number })
        } else {
            None
        }
    }

    /// The number.
    pub fn get(self) -> u8
        ensures value { result ≡ self }
        ensures bound { result < 128 }
    {
        self.number
    }
}

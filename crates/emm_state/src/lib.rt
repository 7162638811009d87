//! What the machine of one subscriber keeps ([`Solo`]), what no step changes of a subscriber ([`Setting`]), and the actions that
//! the rows of its machine are made of, each a method of a step under way ([`Draft`]).
#![tactic(auto)]

mod actions;
mod draft;
mod setting;
mod solo;

pub use actions::is_registered;
pub use draft::{Draft, Sealed, StepStop, or_stop};
pub use nas_elements::timers;
pub use setting::Setting;
pub use solo::{
    Asked, Context, Countdown, Counter, NasTimer, Phase, Protection, Repeat, Solo, Stations, ksi_of,
};

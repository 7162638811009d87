//! The run of a trace: what each of its lines does to the MME and what is written for it, and a text that is played line by line
//! from a reader to a writer, by the player that is given.
#![tactic(auto)]

mod acts;
mod answers;
mod lines;
mod parts;
mod play;
mod player;
mod playing;
mod under_way;
mod watched;

pub use answers::write_whole;
pub use lines::play_lines;
pub use play::run_play;
pub use player::Player;
pub use playing::PlaysLines;
pub use trace_progress::{PlayFault, Progress};
pub use watched::{MOST_TURNS, Watched};

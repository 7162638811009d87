//! The lines of a trace's answers: what an event sends, why it is refused, and a subscriber's states.
#![tactic(auto)]

mod answer;
mod laws;

pub use answer::{Answer, sent_line, write_answer, write_answer_in};
pub use laws::answers_are_lines;

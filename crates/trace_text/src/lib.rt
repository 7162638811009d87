//! The lines of texts: a trace's, a script's, and those of answers, read and written.
//!
//! This crate passes on what stands in those below it: who reads or writes lines needs it alone.
#![tactic(auto)]

pub use emm_machine::{EcmState, EmmState, States};
pub use esm_machine::BearerState;
pub use mme_answering::Owner;
pub use mme_types::{AggregateBitRate, Apn, Network};
pub use trace_answers::{Answer, write_answer, write_answer_in};
pub use trace_words::{
    LONGEST_LINE, Line, PhoneWord, RadioPlace, RadioWord, ScriptAct, ScriptLine, StationLine,
    TraceFault, TraceOctets, TraceTicks, parse_line, parse_script_line, write_line,
};

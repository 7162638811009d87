//! The lines of a trace: what each says, and how it is written; and those of a script: what simulated stations and phones do,
//! between lines of a trace.
#![tactic(auto)]

mod act;
mod fault;
pub mod fields;
mod laws;
mod line;
mod script_fields;
mod script_line;
mod script_values;
mod values;
mod written;

pub use act::{PhoneWord, RadioPlace, RadioWord, ScriptAct, StationLine};
pub use fault::TraceFault;
pub use laws::{
    acts_are_not_kept, comments_are_not_kept, first_word_tells, shared_lines_are_read_alike,
    written_is_kept, written_is_read,
};
pub use line::{LONGEST_LINE, Line, parse_line};
pub use script_line::{ScriptLine, parse_script_line};
pub use script_values::MacroId;
pub use values::{TraceOctets, TraceTicks};
pub use written::{write_in, write_line, write_lost, write_up};

//! One line of a script.

ghost use Rattle.std.specs.Prelude.{◌≡◌, ◌⊎◌, ◌==◌, map, IfOk, Ok, Err};
ghost use Rattle.trace_words.specs.Kept.{is_kept_word};
ghost use Rattle.trace_words.specs.Script.{Says, script_line_of, script_words, is_trace_word};

use crate::act::{ScriptAct, parse_act};
use crate::fault::TraceFault;
use crate::fields::is_named;
use crate::laws::acts_are_not_kept;
use crate::line::{LONGEST_LINE, Line, parse_words, split_words};
use std::alloc::Global;

/// What a line of a script says.
#[derive(Drop)]
pub enum ScriptLine {
    /// A line as in a trace: it is empty or a comment, or begins with `mme`, `sub`, `vec`, `lost`, `tick`, `data`, `cancel`
    /// or `show`.
    Trace(Line),
    /// What a station or a phone does.
    Act(ScriptAct),
}

/// What `script_line_of` says of a line of a script, given without its LF, or its fault. Only NoMemory may stand in place of that.
///
/// The first fault of TooLong, UnknownWord, FieldCount, and then BadNumber or BadHex of the leftmost field that has one. A line
/// with the first word of what is provisioned, of `data`, `cancel` or `show` is read as in a trace; no other line has such a word.
pub fn parse_script_line(alloc: Global, text: &[u8]) -> Result<ScriptLine, TraceFault>
    ensures line { (result ≡ Err TraceFault.NoMemory) ⊎ (result ≡ script_line_of text.now) }
    ensures says { IfOk result (λ line. Says text.now line) }
{
    acts_are_not_kept();
    read_line(alloc, text)
}

#[tactic(auto, unfolding(crate::specs::Script::script_line_of))]
fn read_line(alloc: Global, text: &[u8]) -> Result<ScriptLine, TraceFault>
    ensures { (result ≡ Err TraceFault.NoMemory) ⊎ (result ≡ script_line_of text.now) }
{
    if text.len() > LONGEST_LINE {
        return Err(TraceFault::TooLong);
    }
    if text.is_empty() || text[0] == b'#' {
        return Ok(ScriptLine::Trace(Line::Skip));
    }
    match split_words(alloc, text) {
        Ok(words) => parse_script_words(alloc, words.as_slice()),
        Err(_) => Err(TraceFault::NoMemory),
    }
}

fn parse_script_words(alloc: Global, words: &[&[u8]]) -> Result<ScriptLine, TraceFault>
    ensures { (result ≡ Err TraceFault.NoMemory) ⊎ (result ≡ script_words (map (λ w. w.now) words.now)) }
{
    let Some((word, fields)) = words.split_first() else {
        return Err(TraceFault::UnknownWord);
    };
    if is_trace_word(word) {
        return Ok(ScriptLine::Trace(parse_words(alloc, words)?));
    }
    Ok(ScriptLine::Act(parse_act(alloc, word, fields)?))
}

fn is_trace_word(word: &[u8]) -> bool
    ensures { result ≡ is_trace_word word.now }
{
    is_kept_word(word) || is_named(word, "lost") || is_named(word, "tick")
}

fn is_kept_word(word: &[u8]) -> bool
    ensures { result ≡ is_kept_word word.now }
{
    is_named(word, "mme")
        || is_named(word, "sub")
        || is_named(word, "vec")
        || is_named(word, "data")
        || is_named(word, "cancel")
        || is_named(word, "show")
}

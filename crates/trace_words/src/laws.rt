//! Laws of the lines of a trace and of a script. Each function has the law as its contract, and does nothing.

ghost use Rattle.trace_words.specs.Lines.{WrittenIsRead};
ghost use Rattle.trace_words.specs.Script.{CommentsAreNotKept, FirstWordTells, ReadAlike, ScriptSays, WrittenIsKept};

use nas_elements::text_is_imsi;

/// What is written of a line that some text says is read as that line, and has no LF.
pub fn written_is_read()
    ensures { WrittenIsRead }
{
    text_is_imsi();
}

/// A line of a script says a line of a trace and is read there as that, or its first word is not kept.
pub fn acts_are_not_kept()
    ensures { ScriptSays }
{}

/// A line that a script shares with a trace says the same in both, or has the same fault.
pub fn shared_lines_are_read_alike()
    ensures { ReadAlike }
{}

/// The first word of a line of a trace tells whether what it says is kept.
pub fn first_word_tells()
    ensures { FirstWordTells }
{}

/// A line of a trace that is written anew is kept where it was, and read as the same.
pub fn written_is_kept()
    ensures { WrittenIsKept }
{
    written_is_read();
}

/// No comment is kept.
pub fn comments_are_not_kept()
    ensures { CommentsAreNotKept }
{}

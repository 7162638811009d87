//! A law of what is written: the contract of a function that does nothing.

ghost use Rattle.trace_answers.specs.Lines.{AnswersAreLines};

/// An answer is one line that ends with its LF, and is longer than its octets in hex by at most 80 octets.
pub fn answers_are_lines()
    ensures { AnswersAreLines }
{}

//! What a piece of a text has of the line that is under way.

ghost use Rattle.std.specs.Prelude.{◌≡◌, ◌⊎◌, ◌<◌, ◌≤◌, length, IfSome, IfNone};
ghost use Rattle.trace_progress.specs.Text.{breaks};
ghost use Rattle.trace_run.specs.Parts.{LiesWhole, TakesPart};

use memchr::memchr;
use trace_progress::PlayFault;
use trace_words::{LONGEST_LINE, TraceFault};

/// Takes what a piece of the text has of the line that is under way: all that stands before its first LF, and where that LF is,
/// or the whole piece where it has none. The fault is that of the line, which has this number: it would have over 40,000 octets,
/// or else there is no memory for it; it stays as it was then.
pub(crate) fn take_part(
    line: &mut Vec<u8>,
    number: u64,
    piece: &[u8],
) -> Result<Option<usize>, PlayFault>
    requires { length line.old.items ≤ 40000 }
    ensures { TakesPart number line.old.items piece.now result line.new.items }
{
    let end = memchr(b'\n', piece);
    let part = &piece[..end.unwrap_or(piece.len())];
    if part.len() > LONGEST_LINE - line.len() {
        return Err(PlayFault::Trace(number, TraceFault::TooLong));
    }
    match line.extend_from_slice(part) {
        Ok(()) => Ok(end),
        Err(_) => Err(PlayFault::NoMemory),
    }
}

/// Where the LF stands that ends the line which is under way, where the piece has all of that line: nothing of it has come before.
pub(crate) fn whole_line(line: &[u8], piece: &[u8]) -> Option<usize>
    ensures some { IfSome result (λ end. LiesWhole line.now piece.now end) }
    ensures none { IfNone result ((0 < length line.now) ⊎ (breaks piece.now ≡ 0)) }
{
    if !line.is_empty() {
        return None;
    }
    memchr(b'\n', piece)
}

//! The lines of a text, as its octets come.

ghost use Rattle.std.specs.Prelude.{◌≡◌, ◌<◌, ◌+◌, [], ◌^◌, length, OnOk};
ghost use Rattle.trace_progress.specs.Acts.{GrowsBy};
ghost use Rattle.trace_run.specs.Watching.{failed_after_play};
ghost use Rattle.trace_progress.specs.Text.{breaks, lines_of};
ghost use Rattle.trace_run.specs.Parts.{LiesWhole};
ghost use Rattle.trace_run.specs.OneLine.{IsOfLine};
ghost use Rattle.trace_run.specs.Lines.{Feeds, FeedsFront, IsReady, PlaysEach};

use crate::parts::{take_part, whole_line};
use crate::playing::PlaysLines;
use crate::watched::Watched;
use std::alloc::Global;
use std::io::Write;
use trace_progress::PlayFault;

/// The line that comes next, as far as it has come.
#[derive(Drop)]
pub(crate) struct LineUnderWay {
    /// Its number, counted from 1.
    pub(crate) number: u64,
    /// The octets of it that have come.
    pub(crate) octets: Vec<u8>,
}

impl LineUnderWay {
    /// The first line, of which nothing has come.
    pub(crate) fn new(alloc: Global) -> LineUnderWay
        ensures number { result.number ≡ 1 }
        ensures octets { result.octets.items ≡ [] }
    {
        LineUnderWay {
            number: 1,
            octets: Vec::new(alloc),
        }
    }

    /// Plays a piece of the text: each line that ends in it.
    pub(crate) fn feed<P: PlaysLines, W: Write>(
        &mut self,
        alloc: Global,
        player: &mut P,
        piece: &[u8],
        writer: &mut Watched<W>,
    ) -> Result<(), PlayFault>
        requires ready { IsReady self.old.octets.items }
        requires counted { self.old.number + length piece.now < 2 ^ 64 }
        ensures feeds { GrowsBy (W.contents writer.old.inner) (W.contents writer.new.inner)
            (Feeds P.plays player.old self.old piece.now result player.new self.new) }
        ensures write_failed { writer.new.failed ≡ failed_after_play writer.old.failed result }
    {
        let mut rest = piece;
        while rest.len() > 0 {
            match self.take_front(alloc, player, rest, writer) {
                Ok(count) => rest = &rest[count..],
                Err(fault) => return Err(fault),
            }
        }
        Ok(())
    }

    /// Takes the piece up to the end of the line, which is played then, or all of it. Answers how many octets that are.
    fn take_front<P: PlaysLines, W: Write>(
        &mut self,
        alloc: Global,
        player: &mut P,
        piece: &[u8],
        writer: &mut Watched<W>,
    ) -> Result<usize, PlayFault>
        requires ready { IsReady self.old.octets.items }
        requires some { 0 < length piece.now }
        requires counted { self.old.number + length piece.now < 2 ^ 64 }
        ensures feeds { GrowsBy (W.contents writer.old.inner) (W.contents writer.new.inner)
            (FeedsFront P.plays player.old self.old piece.now result player.new self.new) }
        ensures write_failed { writer.new.failed ≡ failed_after_play writer.old.failed result }
    {
        match whole_line(self.octets.as_slice(), piece) {
            Some(end) => self.take_whole(alloc, player, piece, end, writer),
            None => self.go_on(alloc, player, piece, writer),
        }
    }

    /// Plays the line that ends there, where it lies in the piece. Answers how many octets that are.
    fn take_whole<P: PlaysLines, W: Write>(
        &mut self,
        alloc: Global,
        player: &mut P,
        piece: &[u8],
        end: usize,
        writer: &mut Watched<W>,
    ) -> Result<usize, PlayFault>
        requires whole { LiesWhole self.old.octets.items piece.now end }
        requires counted { self.old.number + length piece.now < 2 ^ 64 }
        ensures feeds { GrowsBy (W.contents writer.old.inner) (W.contents writer.new.inner)
            (FeedsFront P.plays player.old self.old piece.now result player.new self.new) }
        ensures write_failed { writer.new.failed ≡ failed_after_play writer.old.failed result }
    {
        match player.play_line(alloc, self.number, &piece[..end], writer) {
            Ok(()) => {
                self.next_line();
                Ok(end + 1)
            }
            Err(fault) => Err(fault),
        }
    }

    /// Takes the piece up to the end of the line that has begun before or ends after it. Answers how many octets that are.
    fn go_on<P: PlaysLines, W: Write>(
        &mut self,
        alloc: Global,
        player: &mut P,
        piece: &[u8],
        writer: &mut Watched<W>,
    ) -> Result<usize, PlayFault>
        requires ready { IsReady self.old.octets.items }
        requires some { 0 < length piece.now }
        requires counted { self.old.number + length piece.now < 2 ^ 64 }
        ensures feeds { GrowsBy (W.contents writer.old.inner) (W.contents writer.new.inner)
            (FeedsFront P.plays player.old self.old piece.now result player.new self.new) }
        ensures write_failed { writer.new.failed ≡ failed_after_play writer.old.failed result }
    {
        match take_part(&mut self.octets, self.number, piece) {
            Ok(None) => Ok(piece.len()),
            Ok(Some(end)) => match self.end_line(alloc, player, writer) {
                Ok(()) => Ok(end + 1),
                Err(fault) => Err(fault),
            },
            Err(fault) => Err(fault),
        }
    }

    /// Plays the last line, if it lacks its LF.
    pub(crate) fn finish<P: PlaysLines, W: Write>(
        &mut self,
        alloc: Global,
        player: &mut P,
        writer: &mut Watched<W>,
    ) -> Result<(), PlayFault>
        requires ready { IsReady self.old.octets.items }
        requires counted { self.old.number + 1 < 2 ^ 64 }
        ensures finishes { GrowsBy (W.contents writer.old.inner) (W.contents writer.new.inner)
            (PlaysEach P.plays player.old self.old.number (lines_of self.old.octets.items) result player.new) }
        ensures fault { IsOfLine self.old.number result }
        ensures write_failed { writer.new.failed ≡ failed_after_play writer.old.failed result }
    {
        if self.octets.is_empty() {
            return Ok(());
        }
        self.end_line(alloc, player, writer)
    }

    /// Plays the line as it has come.
    fn end_line<P: PlaysLines, W: Write>(
        &mut self,
        alloc: Global,
        player: &mut P,
        writer: &mut Watched<W>,
    ) -> Result<(), PlayFault>
        requires unbroken { breaks self.old.octets.items ≡ 0 }
        requires counted { self.old.number + 1 < 2 ^ 64 }
        ensures played { GrowsBy (W.contents writer.old.inner) (W.contents writer.new.inner)
            (P.plays player.old self.old.number self.old.octets.items result player.new) }
        ensures fault { IsOfLine self.old.number result }
        ensures number { OnOk result (self.new.number ≡ self.old.number + 1) }
        ensures octets { OnOk result (self.new.octets.items ≡ []) }
        ensures write_failed { writer.new.failed ≡ failed_after_play writer.old.failed result }
    {
        match player.play_line(alloc, self.number, self.octets.as_slice(), writer) {
            Ok(()) => {
                self.next_line();
                Ok(())
            }
            Err(fault) => Err(fault),
        }
    }

    /// The line is done, and nothing of the next one has come. What the line said doesn't stay.
    fn next_line(&mut self)
        requires { self.old.number + 1 < 2 ^ 64 }
        ensures number { self.new.number ≡ self.old.number + 1 }
        ensures octets { self.new.octets.items ≡ [] }
    {
        self.number += 1;
        self.octets.as_mut_slice().fill(0);
        self.octets.clear();
    }
}

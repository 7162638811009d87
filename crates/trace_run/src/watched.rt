//! A reader or a writer, with what became of the calls of it.

ghost use Rattle.std.specs.Prelude.{◌≡◌, ◌+◌, ◌-◌, ◌^◌, min, length, true, false};
ghost use Rattle.std.specs.Io.{ReadsAtMost, WritesAtMost};
ghost use Rattle.std.specs.Io.KnownBytes.{Keeps, ReadConsumes, WriteAppends};
ghost use Rattle.trace_run.specs.Watching.{ended_after, failed_after, failed_after_write, moves_none};

use std::io;
use std::io::{Read, Write};
use std::marker::Model;

/// How many reads a run makes at most.
pub const MOST_TURNS: u64 = 4_294_967_296;

/// A reader or a writer, with what became of its calls, which nothing else changes: the end is met exactly if a `read` with room
/// gave nothing, and a call has failed exactly if one was refused, or a `write` took none of its octets.
///
/// A contract sees it and that (`Watching`). So a run can't say that an end was met or a call failed where none was made.
#[derive(Drop)]
pub struct Watched<T> {
    // The reader or the writer itself.
    inner: T,
    // Whether a call failed; a `write` with octets that took none counts.
    failed: bool,
    // Whether a `read` with room gave nothing.
    ended: bool,
    // How many calls there were, up to 2^64 - 1.
    calls: u64,
}

impl<T> Model for Watched<T> {
    ghost use Rattle.trace_run.specs.Watching.{Watching};

    ghost Value = { Watching T };

    ghost view = { λ w. record { inner = w.inner; failed = w.failed; ended = w.ended; calls = w.calls } };
}

// Whether a call moved none of the octets, though there were some to move.
fn moves_none(octets: usize, moved: usize) -> bool
    ensures { result ≡ moves_none octets moved }
{
    moved == 0 && octets != 0
}

impl<T> Watched<T> {
    /// None has been called.
    pub fn new(inner: T) -> Watched<T>
        ensures { result ≡ record { inner = inner; failed = false; ended = false; calls = 0 } }
    {
        Watched {
            inner,
            failed: false,
            ended: false,
            calls: 0,
        }
    }

    /// The reader or the writer itself.
    pub fn inner(&self) -> &T
        ensures { result.now ≡ self.entry.now.inner }
    {
        &self.inner
    }

    /// Whether a call failed; a `write` with octets that took none counts.
    pub fn failed(&self) -> bool
        ensures { result ≡ self.now.failed }
    {
        self.failed
    }

    /// Whether a `read` with room gave nothing.
    pub fn ended(&self) -> bool
        ensures { result ≡ self.now.ended }
    {
        self.ended
    }
}

impl<R: Read> Watched<R> {
    /// One `read` of the reader.
    pub fn read(&mut self, buf: &mut [u8]) -> io::Result<usize>
        ensures bound { ReadsAtMost result buf.new }
        ensures bytes { ReadConsumes (R.remaining self.old.inner) (R.remaining self.new.inner) result buf.new }
        ensures failed { self.new.failed ≡ failed_after self.old.failed result }
        ensures ended { self.new.ended ≡ ended_after self.old.ended (length buf.old) result }
        ensures calls { self.new.calls ≡ min (self.old.calls + 1) (2 ^ 64 - 1) }
    {
        let room = buf.len();
        self.calls = self.calls.saturating_add(1);
        match self.inner.read(buf) {
            Ok(count) => {
                if moves_none(room, count) {
                    self.ended = true;
                }
                Ok(count)
            }
            Err(e) => {
                self.failed = true;
                Err(e)
            }
        }
    }
}

impl<W: Write> Watched<W> {
    /// One `write` of the writer.
    pub fn write(&mut self, buf: &[u8]) -> io::Result<usize>
        ensures bound { WritesAtMost result buf.now }
        ensures bytes { WriteAppends (W.contents self.old.inner) (W.contents self.new.inner) result buf.now }
        ensures failed { self.new.failed ≡ failed_after_write self.old.failed (length buf.now) result }
        ensures ended { self.new.ended ≡ self.old.ended }
        ensures calls { self.new.calls ≡ min (self.old.calls + 1) (2 ^ 64 - 1) }
    {
        self.calls = self.calls.saturating_add(1);
        match self.inner.write(buf) {
            Ok(taken) => {
                if moves_none(buf.len(), taken) {
                    self.failed = true;
                }
                Ok(taken)
            }
            Err(e) => {
                self.failed = true;
                Err(e)
            }
        }
    }

    /// Hands on what the writer keeps back.
    pub fn flush(&mut self) -> io::Result<()>
        ensures bytes { Keeps (W.contents self.old.inner) (W.contents self.new.inner) }
        ensures failed { self.new.failed ≡ failed_after self.old.failed result }
        ensures ended { self.new.ended ≡ self.old.ended }
        ensures calls { self.new.calls ≡ min (self.old.calls + 1) (2 ^ 64 - 1) }
    {
        self.calls = self.calls.saturating_add(1);
        match self.inner.flush() {
            Ok(()) => Ok(()),
            Err(e) => {
                self.failed = true;
                Err(e)
            }
        }
    }
}

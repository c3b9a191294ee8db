//! A reader or a writer that remembers whether a call on it failed.
ghost use Rattle.std.specs.Prelude.{◌≡◌, ◌||◌, ◌&&◌, ◌<◌, length, false, is_err, List};
ghost use Rattle.std.specs.Io.{ReadsAtMost, WritesAtMost};
ghost use Rattle.std.specs.Io.KnownBytes.{ReadConsumes, WriteAppends, Keeps};

use std::io;
use std::io::{Read, Write};

/// A reader or a writer that passes each read, write and flush on, and remembers whether one of
/// them failed.
#[derive(Drop)]
pub struct Watched<T> {
    inner: T,
    has_failed: bool,
}

impl<T> Watched<T> {
    ghost use Rattle.nntp_store.specs.Watched.{inner_of};
    ghost use Rattle.nntp_store.specs.Inner.Watched.{has_failed_of};

    /// Watches a reader or a writer from now on.
    pub fn new(inner: T) -> Watched<T>
        ensures inner { inner_of result ≡ inner }
        ensures fresh { has_failed_of result ≡ false }
    {
        Watched {
            inner,
            has_failed: false,
        }
    }

    /// Returns the reader or writer itself. A writer isn't flushed first.
    pub fn into_inner(self) -> T
        ensures { result ≡ inner_of self }
    {
        let Watched {
            inner,
            has_failed: _,
        } = self;
        inner
    }

    /// Tells whether a call failed since `new`: a read, a write or a flush answered an error, or a
    /// write of at least one octet took none.
    pub fn failed(&self) -> bool
        ensures { result ≡ has_failed_of self.now }
    {
        self.has_failed
    }

    /// Remembers a call, if it failed.
    fn note(&mut self, is_failure: bool)
        ensures inner { inner_of self.new ≡ inner_of self.old }
        ensures failed { has_failed_of self.new ≡ (has_failed_of self.old || is_failure) }
    {
        if is_failure {
            self.has_failed = true;
        }
    }
}

impl<R: Read> Read for Watched<R> {
    ghost use Rattle.nntp_store.specs.Watched.{inner_of};
    ghost use Rattle.nntp_store.specs.Inner.Watched.{has_failed_of};

    ghost remaining = { λ w. R.remaining (inner_of w) };

    /// Reads into the buffer, as the reader itself does.
    ///
    /// # Errors
    ///
    /// The error of the reader itself. It is remembered.
    fn read(&mut self, buf: &mut [u8]) -> io::Result<usize>
        ensures bound { ReadsAtMost result buf.new }
        ensures bytes { ReadConsumes (R.remaining (inner_of self.old)) (R.remaining (inner_of self.new)) result buf.new }
        ensures failed { has_failed_of self.new ≡ (has_failed_of self.old || is_err result) }
    {
        let outcome = self.inner.read(buf);
        self.note(outcome.is_err());
        outcome
    }
}

impl<W: Write> Write for Watched<W> {
    ghost use Rattle.nntp_store.specs.Watched.{inner_of};
    ghost use Rattle.nntp_store.specs.Inner.Watched.{has_failed_of, takes_none};

    ghost contents = { λ w. W.contents (inner_of w) };

    /// Writes octets of the buffer, as the writer itself does.
    ///
    /// # Errors
    ///
    /// The error of the writer itself. It is remembered, and so is a write that took none of some
    /// octets.
    fn write(&mut self, buf: &[u8]) -> io::Result<usize>
        ensures bound { WritesAtMost result buf.now }
        ensures bytes { WriteAppends (W.contents (inner_of self.old)) (W.contents (inner_of self.new)) result buf.now }
        ensures failed { has_failed_of self.new ≡ (has_failed_of self.old || takes_none result buf.now) }
    {
        let outcome = self.inner.write(buf);
        self.note(match &outcome {
            Ok(count) => *count == 0 && !buf.is_empty(),
            Err(_) => true,
        });
        outcome
    }

    /// Flushes the writer itself.
    ///
    /// # Errors
    ///
    /// The error of the writer itself. It is remembered.
    fn flush(&mut self) -> io::Result<()>
        ensures bytes { Keeps (W.contents (inner_of self.old)) (W.contents (inner_of self.new)) }
        ensures failed { has_failed_of self.new ≡ (has_failed_of self.old || is_err result) }
    {
        let outcome = self.inner.flush();
        self.note(outcome.is_err());
        outcome
    }
}

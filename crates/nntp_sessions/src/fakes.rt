//! A reader and a writer that do as a test tells them.
use nntp_spool::Watched;
use std::alloc::Global;
use std::io;
use std::io::{Read, Write};

/// Gives its octets a few at a read, and fails once, at the read of this number, counted from 1.
#[derive(Drop)]
pub struct FakeReader<'a> {
    /// The octets that come first. No read gives some of them and some of those behind.
    front: &'a [u8],
    left: &'a [u8],
    most: usize,
    pub reads: u64,
    fails_at: u64,
}

impl<'a> Read for FakeReader<'a> {
    fn read(&mut self, buf: &mut [u8]) -> io::Result<usize> {
        self.reads = self.reads.saturating_add(1);
        if self.reads == self.fails_at {
            return Err(io::Error::from(io::ErrorKind::Interrupted));
        }
        let is_cut = !self.front.is_empty();
        let octets = if is_cut { self.front } else { self.left };
        let count = octets.len().min(buf.len()).min(self.most);
        let (given, rest) = octets.split_at(count);
        buf[..count].copy_from_slice(given);
        if is_cut {
            self.front = rest;
        } else {
            self.left = rest;
        }
        Ok(count)
    }
}

/// Gives these octets, `most` at a read. It fails at the read of this number, and at none where that is 0.
pub fn reader(left: &[u8], most: usize, fails_at: u64) -> Watched<FakeReader<'_>> {
    Watched::new(FakeReader {
        front: &[],
        left,
        most,
        reads: 0,
        fails_at,
    })
}

/// Gives these octets in two reads, the first of which ends at this place.
pub fn cut_reader(octets: &[u8], at: usize) -> Watched<FakeReader<'_>> {
    let (front, left) = octets.split_at(at.min(octets.len()));
    Watched::new(FakeReader {
        front,
        left,
        most: octets.len(),
        reads: 0,
        fails_at: 0,
    })
}

/// Gives a front, and then one octet for ever.
#[derive(Drop)]
pub struct EndlessReader<'a> {
    front: &'a [u8],
    octet: u8,
}

impl<'a> Read for EndlessReader<'a> {
    fn read(&mut self, buf: &mut [u8]) -> io::Result<usize> {
        let count = self.front.len().min(buf.len());
        let (front, rest) = self.front.split_at(count);
        buf.fill(self.octet);
        buf[..count].copy_from_slice(front);
        self.front = rest;
        Ok(buf.len())
    }
}

/// Gives the front, and then the octet for ever.
pub fn endless_reader(front: &[u8], octet: u8) -> Watched<EndlessReader<'_>> {
    Watched::new(EndlessReader { front, octet })
}

/// How a full writer fails.
#[derive(Clone, Copy, PartialEq, Eq)]
pub enum Full {
    /// A write fails.
    Fails,
    /// A write takes none of some octets.
    TakesNone,
    /// The first flush fails.
    FailsToFlush,
}

/// Takes at most so many octets at a write, and fails once: where it has taken `room` octets, or as it is flushed. Behind
/// that it takes all, so that a test sees a call that is made again.
#[derive(Drop)]
pub struct FakeWriter {
    pub held: Vec<u8>,
    room: usize,
    most: usize,
    full: Full,
    pub flushes: u64,
}

impl Write for FakeWriter {
    fn write(&mut self, buf: &[u8]) -> io::Result<usize> {
        let count = buf.len().min(self.room).min(self.most);
        if count == 0 && !buf.is_empty() {
            self.room = usize::MAX;
            return match self.full {
                Full::TakesNone => Ok(0),
                _ => Err(io::Error::from(io::ErrorKind::BrokenPipe)),
            };
        }
        self.held.extend_from_slice(&buf[..count])?;
        self.room -= count;
        Ok(count)
    }

    fn flush(&mut self) -> io::Result<()> {
        self.flushes = self.flushes.saturating_add(1);
        if self.flushes == 1 && self.full == Full::FailsToFlush {
            return Err(io::Error::from(io::ErrorKind::BrokenPipe));
        }
        Ok(())
    }
}

/// Takes `room` octets, `most` at a write, and then fails once.
pub fn writer(alloc: Global, room: usize, most: usize, full: Full) -> Watched<FakeWriter> {
    Watched::new(FakeWriter {
        held: Vec::new(alloc),
        room,
        most,
        full,
        flushes: 0,
    })
}

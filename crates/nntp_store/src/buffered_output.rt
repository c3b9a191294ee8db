//! Octets that are gathered for a writer.
ghost use Rattle.std.specs.Prelude.{◌≡◌, [], ◌||◌, is_err, OnOk};
ghost use Rattle.std.specs.List.{flat_map};
ghost use Rattle.std.specs.Iterator.{IsFinite};
ghost use Rattle.nntp_store.specs.Inner.Writing.{Writes};
ghost use Rattle.nntp_store.specs.Inner.Buffering.{taken, waiting, writer_failed, IsSameWriter, Puts, PutsAll};

use crate::output::{WriteFault, put};
use crate::watched::Watched;
use arrayvec::ArrayVec;
use std::io::Write;

/// How many octets may wait.
const MOST_WAITING: usize = 8192;

/// A writer, and octets that wait to be handed to it, many in one call. It asks for no memory.
#[derive(Drop)]
pub(crate) struct BufferedOutput<'a, W> {
    writer: &'a mut Watched<W>,
    waiting: ArrayVec<u8, MOST_WAITING>,
}

impl<'a, W: Write> BufferedOutput<'a, W> {
    /// Begins with no octet that waits.
    pub(crate) fn new(writer: &'a mut Watched<W>) -> BufferedOutput<'a, W>
        ensures writer { result.writer.now ≡ writer.old }
        ensures same_writer { result.writer.ghost_name ≡ writer.entry.ghost_name }
        ensures empty { waiting result ≡ [] }
    {
        BufferedOutput {
            writer,
            waiting: ArrayVec::new(),
        }
    }

    /// Hands the octets that wait to the writer. After a fault it took a front of them, and no more is to be put here.
    pub(crate) fn hand_on(&mut self) -> Result<(), WriteFault>
        ensures text { Writes result (taken W.contents self.old) (taken W.contents self.new) (waiting self.old) }
        ensures none_waits { OnOk result (waiting self.new ≡ []) }
        ensures failed { writer_failed self.new ≡ (writer_failed self.old || is_err result) }
        ensures same_writer { IsSameWriter self.old self.new }
    {
        put(self.writer, self.waiting.as_slice())?;
        self.waiting.clear();
        Ok(())
    }

    /// Puts octets behind those that wait. Where they don't fit, those that wait are handed on first, and then octets
    /// that are more than may wait are handed on themselves.
    pub(crate) fn put(&mut self, octets: &[u8]) -> Result<(), WriteFault>
        ensures { Puts W.contents result self.old self.new octets.now }
    {
        let Err(_) = self.waiting.try_extend_from_slice(octets) else {
            return Ok(());
        };
        self.hand_on()?;
        match self.waiting.try_extend_from_slice(octets) {
            Ok(()) => Ok(()),
            Err(_) => put(self.writer, octets),
        }
    }

    /// Puts the pieces there, one after the other.
    pub(crate) fn put_pieces(&mut self, pieces: &[&[u8]]) -> Result<(), WriteFault>
        ensures { Puts W.contents result self.old self.new (flat_map (λ piece. piece.now) pieces.now) }
    {
        self.put_each(pieces.iter(), |output, piece| output.put(*piece))
    }

    /// Puts each item there, up to the first that can't be put.
    pub(crate) fn put_each<I: Iterator, F: FnMut(&mut Self, I::Item) -> Result<(), WriteFault>>(
        &mut self,
        items: I,
        mut put: F,
    ) -> Result<(), WriteFault>
        requires can { I.can_next items }
        requires finite { IsFinite (I.remaining items) }
        requires callable { F.IsAlwaysCallable put }
        ensures { PutsAll W.contents I.next_gives F.FnMut result self.old self.new items put }
    {
        for item in items {
            put(self, item)?;
        }
        Ok(())
    }
}

//! Blocks that own their octets.
ghost use Rattle.std.specs.Prelude.{◌≡◌, ◌<◌, ◌^◌, ◌↔◌, ◌++◌, ◌∷◌, [], List, ℕ, length, IsTrue, IfOk, OnOk, OnErr};
ghost use Rattle.std.specs.List.{list_all};
ghost use Rattle.nntp_wire.specs.Inner.Octets.{are_octets};
ghost use Rattle.nntp_wire.specs.Octets.{crlf, is_clean};
ghost use Rattle.nntp_wire.specs.Block.{AreClean, stuffed};
ghost use Rattle.nntp_wire.specs.Inner.Block.{Sends, received};

use crate::block::Block;
use std::alloc::{AllocError, Allocator, Global};
use std::marker::Model;

/// The lines of a multi-line data block, which owns their octets in one piece of memory (RFC 3977,
/// section 3.1.1).
#[derive(Drop)]
pub struct OwnedBlock<A: Allocator = Global> {
    /// The octets of the lines, as they were sent.
    sent: Vec<u8, A>,
}

impl<A: Allocator> Model for OwnedBlock<A> {
    ghost use Rattle.std.specs.Prelude.{List, ℕ};
    ghost use Rattle.nntp_wire.specs.Inner.Block.{received, Sends};

    ghost Value = { List (List ℕ) };

    ghost view = { λ b. received b.sent.items };

    ghost invariant = { λ b. Sends b.sent.items (received b.sent.items) };
}

impl<A: Allocator> OwnedBlock<A> {
    /// Lends the block. It copies no octet.
    pub fn as_block(&self) -> Block<'_>
        ensures same { result ≡ self.now }
        ensures clean { AreClean self.now }
        ensures octets { IsTrue (list_all are_octets self.now) }
        ensures short { length self.now < 2 ^ 64 }
    {
        block_of(self.sent.as_slice())
    }

    /// Takes all lines out. Their memory is kept for those that follow.
    pub fn clear(&mut self)
        ensures { self.new ≡ [] }
    {
        self.sent.clear();
    }
}

impl<A: Allocator + Copy> OwnedBlock<A> {
    /// Creates a block of no lines. It takes no memory.
    pub fn new(alloc: A) -> OwnedBlock<A>
        ensures { result ≡ [] }
    {
        OwnedBlock {
            sent: Vec::new(alloc),
        }
    }

    /// Creates a block of no lines, with memory for so many octets as they are sent.
    ///
    /// # Errors
    ///
    /// [`AllocError`], if memory is refused.
    pub fn with_capacity(alloc: A, octets: usize) -> Result<OwnedBlock<A>, AllocError>
        ensures { IfOk result (λ block. block ≡ []) }
    {
        Ok(OwnedBlock {
            sent: Vec::with_capacity(alloc, octets)?,
        })
    }

    /// Adds the lines of another block behind the others.
    ///
    /// # Errors
    ///
    /// [`AllocError`], if memory is refused. The block stays as it was.
    pub fn extend(&mut self, block: &Block<'_>) -> Result<(), AllocError>
        ensures ok { OnOk result (self.new ≡ self.old ++ block.now) }
        ensures err { OnErr result (self.new ≡ self.old) }
    {
        self.sent.extend_from_slice(block.sent)
    }

    /// Adds a line behind the others. It has neither NUL, CR nor LF.
    ///
    /// # Errors
    ///
    /// [`AllocError`], if memory is refused. The block stays as it was.
    pub fn push(&mut self, line: &[u8]) -> Result<(), AllocError>
        requires { IsTrue (is_clean line.now) }
        ensures ok { OnOk result (self.new ≡ self.old ++ line.now ∷ []) }
        ensures err { OnErr result (self.new ≡ self.old) }
    {
        let length = self.sent.len();
        match put_line(&mut self.sent, line) {
            Ok(()) => Ok(()),
            Err(error) => {
                self.sent.truncate(length);
                Err(error)
            }
        }
    }
}

/// Lends the block whose lines these octets send.
pub(crate) fn block_of(sent: &[u8]) -> Block<'_>
    requires { Sends sent.now (received sent.now) }
    ensures lines { result ≡ received sent.now }
    ensures octets { IsTrue (list_all are_octets (received sent.now)) }
{
    Block { sent }
}

/// Adds a line as it is sent: with one more dot where it begins with one, and with CRLF.
fn put_line<A: Allocator + Copy>(sent: &mut Vec<u8, A>, line: &[u8]) -> Result<(), AllocError>
    ensures ok { OnOk result (sent.new.items ≡ sent.old.items ++ (stuffed line.now ++ crlf)) }
    ensures err { OnErr result ((more : List ℕ) × (sent.new.items ≡ sent.old.items ++ more)) }
{
    if line.first() == Some(&b'.') {
        sent.push(b'.')?;
    }
    sent.extend_from_slice(line)?;
    sent.extend_from_slice(b"\r\n")
}

impl<'a> Block<'a> {
    /// Tells whether both blocks have the same lines, in the same order, octet by octet.
    pub fn is_same(&self, other: &Block<'_>) -> bool
        ensures { IsTrue result ↔ (self.now ≡ other.now) }
    {
        self.sent == other.sent
    }

    /// Tells whether the lines are those of a head, an empty line and those of a body, octet by
    /// octet, as an article is sent (RFC 3977, section 3.6).
    pub fn is_article(&self, head: &Block<'_>, body: &Block<'_>) -> bool
        ensures { IsTrue result ↔ (self.now ≡ head.now ++ [] ∷ body.now) }
    {
        let Some(rest) = self.sent.strip_prefix(head.sent) else {
            return false;
        };
        match rest.strip_prefix(b"\r\n") {
            Some(back) => back == body.sent,
            None => false,
        }
    }

    /// Copies the octets into memory that is taken from `alloc`, in one piece.
    ///
    /// # Errors
    ///
    /// [`AllocError`], if memory is refused.
    pub fn to_owned<A: Allocator + Copy>(&self, alloc: A) -> Result<OwnedBlock<A>, AllocError>
        ensures { IfOk result (λ owned. owned ≡ self.now) }
    {
        Ok(OwnedBlock {
            sent: Vec::from_slice(alloc, self.sent)?,
        })
    }
}

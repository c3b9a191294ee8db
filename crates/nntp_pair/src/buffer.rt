//! The octets of a stream that came and that no exchange has passed.
ghost use Rattle.std.specs.Prelude.{◌≡◌, ◌≤◌, ◌++◌, [], length, drop, OnOk, OnErr};
ghost use Rattle.nntp_pair.specs.Inner.Sides.{given};
ghost use Rattle.nntp_pair.specs.declared.side.Side.TheVariants.{Client, Server};

use crate::side::Side;
use std::alloc::{AllocError, Allocator};
use std::marker::Model;

/// The octets of a stream that came and that no exchange has passed.
#[derive(Drop)]
pub(crate) struct Buffer<A: Allocator> {
    octets: Vec<u8, A>,
    /// How many of them are passed. They are given back once they are as many as the others.
    passed: usize,
}

impl<A: Allocator> Model for Buffer<A> {
    ghost use Rattle.std.specs.Prelude.{ℕ, ◌≤◌, List, drop, vec_len};

    ghost Value = { List ℕ };

    ghost view = { λ b. drop b.passed b.octets.items };

    ghost invariant = { λ b. b.passed ≤ vec_len b.octets };
}

impl<A: Allocator + Copy> Buffer<A> {
    /// No octets.
    pub(crate) fn new(alloc: A) -> Buffer<A>
        ensures { result ≡ [] }
    {
        Buffer {
            octets: Vec::new(alloc),
            passed: 0,
        }
    }

    /// The octets.
    pub(crate) fn as_slice(&self) -> &[u8]
        ensures { result.now ≡ self.now }
    {
        let (_, rest) = self.octets.as_slice().split_at(self.passed);
        rest
    }

    /// Takes octets in behind. An Err leaves it as it was.
    pub(crate) fn extend(&mut self, piece: &[u8]) -> Result<(), AllocError>
        ensures ok { OnOk result (self.new ≡ self.old ++ piece.now) }
        ensures err { OnErr result (self.new ≡ self.old) }
    {
        self.octets.extend_from_slice(piece)
    }

    /// Passes octets at the front. Each octet is moved at most once for each that is given back.
    pub(crate) fn pass(&mut self, count: usize)
        requires { count ≤ length self.old }
        ensures { self.new ≡ drop count self.old }
    {
        self.passed += count;
        let rest = self.octets.len() - self.passed;
        if rest <= self.passed {
            self.octets.copy_within(self.passed.., 0);
            self.octets.truncate(rest);
            self.passed = 0;
        }
    }

    /// Gives all octets back.
    pub(crate) fn clear(&mut self)
        ensures { self.new ≡ [] }
    {
        self.octets.clear();
        self.passed = 0;
    }
}

/// Takes octets of a side in behind those of its buffer. An Err leaves both buffers as they were.
pub(crate) fn extend<A: Allocator + Copy>(
    client: &mut Buffer<A>,
    server: &mut Buffer<A>,
    side: Side,
    piece: &[u8],
) -> Result<(), AllocError>
    ensures client { OnOk result (client.new ≡ client.old ++ given Client side piece.now) }
    ensures server { OnOk result (server.new ≡ server.old ++ given Server side piece.now) }
    ensures err { OnErr result ((client.new ≡ client.old) × (server.new ≡ server.old)) }
{
    match side {
        Side::Client => client.extend(piece),
        Side::Server => server.extend(piece),
    }
}

//! Parts of a block, line by line.
ghost use Rattle.std.specs.Prelude.{◌≡◌, ◌++◌, ◌∷◌, [], take, drop, MatchOption};
ghost use Rattle.nntp_wire.specs.Inner.Block.{HasNoEmptyLine, IsSent, Sends, received};
ghost use Rattle.nntp_wire.specs.Block.{sent};

use crate::block::Block;
use crate::stream::split_first_line;
use bstr::ByteSlice;

impl<'a> Block<'a> {
    /// Splits the block into one of its first `count` lines and one of the lines behind them. The
    /// first has all lines where there are fewer.
    pub fn split_at_line(&self, count: usize) -> (Block<'a>, Block<'a>)
        ensures front { result.0 ≡ take count self.now }
        ensures back { result.1 ≡ drop count self.now }
    {
        let all = self.sent;
        let rest = skip_lines(all, count);
        let (front, back) = all.split_at(all.len() - rest.len());
        (Block { sent: front }, Block { sent: back })
    }

    /// Splits the block at its first empty line, into one of the lines before it and one of those
    /// behind it. None where no line is empty.
    pub fn split_at_empty_line(&self) -> Option<(Block<'a>, Block<'a>)>
        ensures { MatchOption result (HasNoEmptyLine self.now) (λ parts. HasNoEmptyLine parts.0 × (self.now ≡ parts.0 ++ [] ∷ parts.1)) }
    {
        let mut length = 0;
        for line in self.sent.lines_with_terminator() {
            if line == b"\r\n".as_slice() {
                let (front, rest) = self.sent.split_at(length);
                let (_, back) = rest.split_at(2);
                return Some((Block { sent: front }, Block { sent: back }));
            }
            length += line.len();
        }
        None
    }

    /// Returns the same block once more. It borrows the same octets, and copies none.
    pub fn copy(&self) -> Block<'a>
        ensures { result ≡ self.now }
    {
        Block { sent: self.sent }
    }
}

/// Returns the octets behind the first `count` lines, or behind all where there are fewer.
fn skip_lines(bytes: &[u8], count: usize) -> &[u8]
    requires { IsSent bytes.now }
    ensures front { bytes.now ≡ sent (take count (received bytes.now)) ++ result.now }
    ensures back { Sends result.now (drop count (received bytes.now)) }
{
    let mut rest = bytes;
    for _line in 0..count {
        let Some((_, others)) = split_first_line(rest) else {
            return rest;
        };
        rest = others;
    }
    rest
}

//! Sessions, and what a task prints of them.
use nntp_check::Task;
use std::alloc::{AllocError, Global};

/// A session by name: what is done with it, what the client and the server sent, what is printed of it, and whether the
/// answer is yes.
#[derive(Clone, Copy)]
pub(crate) struct Reported {
    pub(crate) name: &'static str,
    pub(crate) task: Task,
    pub(crate) client: &'static [u8],
    pub(crate) server: &'static [u8],
    pub(crate) report: &'static [u8],
    pub(crate) answer: bool,
}

impl Reported {
    /// The capture of both streams, each in one piece, and of a spool piece that is passed over.
    pub(crate) fn capture(&self, alloc: Global) -> Result<Vec<u8>, AllocError> {
        let mut capture = Vec::new(alloc);
        put_piece(alloc, &mut capture, "client", self.client)?;
        put_piece(alloc, &mut capture, "server", self.server)?;
        put_piece(alloc, &mut capture, "spool", b"xyz")?;
        Ok(capture)
    }
}

/// Adds a piece of a capture.
fn put_piece(
    alloc: Global,
    capture: &mut Vec<u8>,
    word: &str,
    octets: &[u8],
) -> Result<(), AllocError> {
    let line = format!(in alloc; "{word} {}\n", octets.len())?;
    capture.extend_from_slice(line.as_bytes())?;
    capture.extend_from_slice(octets)
}

//! The exchanges of two streams, and where each ends.
use nntp_pair::{Exchange, Pairs, Step};
use std::alloc::{AllocError, Global};

/// An exchange, and how many octets the server has sent up to its end.
#[derive(Drop)]
pub struct Answered<'a> {
    pub exchange: Exchange<'a>,
    pub end: usize,
}

/// All exchanges of two streams, in order.
pub fn exchanges<'a>(
    alloc: Global,
    client: &'a [u8],
    server: &'a [u8],
) -> Result<Vec<Answered<'a>>, AllocError> {
    let mut answered = Vec::new(alloc);
    let mut pairs = Pairs::new(client, server);
    for _ in 0..server.len() {
        let Step::Exchange(exchange) = pairs.next() else {
            break;
        };
        let end = server.len().saturating_sub(pairs.ahead().rest.len());
        answered.push(Answered { exchange, end })?;
    }
    Ok(answered)
}

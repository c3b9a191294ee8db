//! Control messages (RFC 1036, section 3).

use std::alloc::{Allocator, Global};

/// What a Control header says (RFC 1036, section 3).
#[derive(Drop, PartialEq, Eq)]
pub enum Control<A: Allocator = Global> {
    /// The article with this message id is to be cancelled (RFC 1036, section 3.1). The id stands
    /// here with its angle brackets.
    Cancel(Vec<u8, A>),
    /// A group is to be made (RFC 1036, section 3.3).
    NewGroup {
        /// The octets of the group's name.
        name: Vec<u8, A>,
        /// Whether the third word of the content is `moderated`.
        moderated: bool,
    },
    /// The group of this name is to be removed (RFC 1036, section 3.4).
    RmGroup(Vec<u8, A>),
    /// The content of the header says none of these: its octets, as they are.
    Other(Vec<u8, A>),
}

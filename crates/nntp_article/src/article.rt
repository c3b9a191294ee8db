//! Articles (RFC 3977, section 3.6; RFC 1036): their parts, heads, headers and control messages.
mod control_headers;
mod control_message;
mod field;
mod fields;
mod head;
mod head_line;
mod header;
pub mod laws;
mod made_heads;
mod missing_headers;
mod parts;
mod required_headers;
mod said_id;
mod told_fields;

pub use control_headers::control;
pub use control_message::Control;
pub use field::Field;
pub use fields::{FieldWords, Fields};
pub use head::Head;
pub use header::{Header, Headers, content};
pub use made_heads::made_head;
pub use missing_headers::Missing;
pub use parts::Parts;
pub use required_headers::missing;
pub use said_id::lines_say;
pub use told_fields::ToldFields;

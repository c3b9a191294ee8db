//! The session of docs/EXAMPLE.md, hop by hop: what each call gives is what that page has worked out by hand.
mod conflict;
mod exchanges;
mod facts;
mod kept;
mod session;
mod verdicts;
mod visible;

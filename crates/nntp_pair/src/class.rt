//! Why octets of the server answer nothing, and why an answer is bad.
ghost use Rattle.std.specs.Prelude.{◌≡◌};

use std::fmt;
use thiserror::Error;

/// Why the server's next octets answer nothing.
#[derive(Clone, Copy, Debug, PartialEq, Eq, Error)]
pub enum PairClass {
    /// The connection is closed, or the client sent no line that they could answer.
    Surplus,
    /// They begin with no whole frame of a response (RFC 3977, section 3.1).
    Cut,
    /// They are a whole frame that spells no response.
    Malformed,
}

/// The class of a bad answer, which tells why it is bad. Each bad answer has exactly one.
#[derive(Clone, Copy, Debug, PartialEq, Eq, Error)]
pub enum Class {
    /// There are octets behind the end of the connection, or where no command is left to be
    /// answered.
    Surplus,
    /// The octets end within the response (RFC 3977, sections 3.1 and 3.1.1).
    Cut,
    /// The response spells no answer to its command (RFC 3977, section 3.2).
    Malformed,
    /// The command or the answers before it rule the answer out, whatever the articles are.
    OutOfPlace,
    /// No spool gives this answer together with those before it.
    Contradiction,
}

impl fmt::Display for PairClass {
    fn fmt<W: fmt::Write>(&self, f: &mut fmt::Formatter<W>) -> fmt::Result {
        f.write_str(match self {
            PairClass::Surplus => "Surplus",
            PairClass::Cut => "Cut",
            PairClass::Malformed => "Malformed",
        })
    }
}

impl fmt::Display for Class {
    fn fmt<W: fmt::Write>(&self, f: &mut fmt::Formatter<W>) -> fmt::Result {
        f.write_str(match self {
            Class::Surplus => "Surplus",
            Class::Cut => "Cut",
            Class::Malformed => "Malformed",
            Class::OutOfPlace => "OutOfPlace",
            Class::Contradiction => "Contradiction",
        })
    }
}

impl From<PairClass> for Class {
    ghost use Rattle.nntp_pair.specs.Classes.{class_of};

    ghost from_gives = { λ class result. result ≡ class_of class };

    fn from(class: PairClass) -> Class {
        match class {
            PairClass::Surplus => Class::Surplus,
            PairClass::Cut => Class::Cut,
            PairClass::Malformed => Class::Malformed,
        }
    }
}

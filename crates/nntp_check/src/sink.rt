//! What takes what a capture holds, as it comes.
ghost use Rattle.std.specs.Prelude.{◌≡◌, OnOk, IfErr};
ghost use Rattle.nntp_pair.specs.declared.pair_error.PairError.TheVariants.{Memory};
ghost use Rattle.nntp_check.specs.Capture.{Held, with_another};
ghost use Rattle.nntp_check.specs.Inner.Sinks.{HasRoom, Takes};
ghost use Rattle.nntp_check.specs.declared.capture_reader.Passage.TheVariants.{From};

use crate::source::Source;
use nntp_pair::PairError;

/// Takes what a capture holds as it comes: octets of one source each time, and where the next session begins. After an
/// error it takes no more.
pub(crate) trait Sink {
    /// What it judges by; the unit type, where it judges nothing.
    ghost By: { Type 0 };

    /// What it keeps is that of what came.
    ghost stands: { By → Self → Held → Type 0 };

    /// Takes the next octets of a source.
    ///
    /// # Errors
    ///
    /// `Memory` where memory is refused.
    fn take(&mut self, source: Source, octets: &[u8]) -> Result<(), PairError>
        requires { (by : By) × HasRoom (stands by self.old) octets.now }
        ensures ok { OnOk result ((by : By) → Takes (stands by self.old) (stands by self.new) (From source) octets.now) }
        ensures err { IfErr result (λ error. error ≡ Memory) };

    /// Ends the session that goes on, and begins the next one.
    ///
    /// # Errors
    ///
    /// `Memory` where memory is refused.
    fn begin_session(&mut self) -> Result<(), PairError>
        requires { (by : By) × (held : Held) × stands by self.old held }
        ensures ok { OnOk result ((by : By) (held : Held) → stands by self.old held → stands by self.new (with_another held)) }
        ensures err { IfErr result (λ error. error ≡ Memory) };
}

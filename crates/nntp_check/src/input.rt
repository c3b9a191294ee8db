//! What a run reads: a capture, to its end.
ghost use Rattle.std.specs.Prelude.{◌≡◌, ◌↔◌, ◌<◌, [], ℕ, List, length, false, true, IfOk, OnOk, IfErr, IsErrOf};
ghost use Rattle.nntp_pair.specs.declared.pair_error.PairError.TheVariants.{Memory};
ghost use Rattle.nntp_store.specs.Inner.Watched.{has_failed_of};
ghost use Rattle.nntp_check.specs.Capture.{Held, nothing};
ghost use Rattle.nntp_check.specs.Run.{read_by, ReadsCapture, IsInputFault};
ghost use Rattle.nntp_check.specs.Inner.Sinks.{FitBehind, HasRoom, PassesOn, StopsBehind, Takes};

use crate::capture_reader::{CaptureReader, Passage};
use crate::run_fault::RunFault;
use crate::sink::Sink;
use nntp_pair::PairError;
use nntp_spool::Watched;
use std::io::Read;

/// How many octets are asked for at a read.
const READ_OCTETS: usize = 1 << 16;

/// Reads the capture that the input has into a sink, at most `most` octets, and tells whether a piece of it begins a
/// session. Behind a fault nothing more is read.
pub(crate) fn read_capture<R: Read, S: Sink>(
    input: &mut Watched<R>,
    sink: &mut S,
    most: u64,
) -> Result<bool, RunFault>
    requires { (by : S.By) × S.stands by sink.old nothing }
    ensures ok { IfOk result (λ is_several. (by : S.By) → S.stands by sink.old nothing
        → (held : Held) × ReadsCapture (read_by R.remaining input.old input.new most) (record { held = held; is_several = is_several })
        × S.stands by sink.new held) }
    ensures err { IfErr result (IsInputFault (read_by R.remaining input.old input.new most)) }
    ensures failed { has_failed_of input.old ≡ false → (IsErrOf result RunFault.Read ↔ (has_failed_of input.new ≡ true)) }
{
    let mut reader = CaptureReader::new();
    let mut buffer = [0u8; READ_OCTETS];
    let mut came = 0u64;
    loop {
        let Ok(count) = input.read(&mut buffer) else {
            return Err(RunFault::Read);
        };
        if count == 0 {
            return Ok(reader.finish()?);
        }
        let fitting = (count as u64).min(most - came);
        pass_on(&mut reader, sink, &buffer[..fitting as usize])?;
        if fitting < count as u64 {
            return Err(RunFault::TooLong);
        }
        came += fitting;
    }
}

/// Passes octets of a capture on to a sink, up to the first fault.
fn pass_on<S: Sink>(reader: &mut CaptureReader, sink: &mut S, octets: &[u8]) -> Result<(), RunFault>
    requires room { (by : S.By) × FitBehind reader.old (S.stands by sink.old) octets.now }
    ensures ok { OnOk result ((by : S.By) → PassesOn reader.old reader.new (S.stands by sink.old) (S.stands by sink.new) octets.now []) }
    ensures err { IfErr result (λ fault. (by : S.By) → StopsBehind reader.old (S.stands by sink.old) octets.now fault) }
{
    let mut rest = octets;
    while !rest.is_empty() {
        rest = pass_front(reader, sink, rest)?;
    }
    Ok(())
}

/// Passes a front of the octets on, and gives the rest.
fn pass_front<'a, S: Sink>(
    reader: &mut CaptureReader,
    sink: &mut S,
    octets: &'a [u8],
) -> Result<&'a [u8], RunFault>
    requires some { 0 < length octets.now }
    requires room { (by : S.By) × FitBehind reader.old (S.stands by sink.old) octets.now }
    ensures ok { IfOk result (λ rest. ((by : S.By) → PassesOn reader.old reader.new (S.stands by sink.old) (S.stands by sink.new) octets.now rest.now)
        × (length rest.now < length octets.now)) }
    ensures err { IfErr result (λ fault. (by : S.By) → StopsBehind reader.old (S.stands by sink.old) octets.now fault) }
{
    let taken = reader.take(octets)?;
    pass(sink, taken.passage, taken.octets)?;
    Ok(taken.rest)
}

/// Passes octets on to a sink, if they are of a source, and where the next session begins.
fn pass<S: Sink>(sink: &mut S, passage: Passage, octets: &[u8]) -> Result<(), PairError>
    requires { (by : S.By) × HasRoom (S.stands by sink.old) octets.now }
    ensures ok { OnOk result ((by : S.By) → Takes (S.stands by sink.old) (S.stands by sink.new) passage octets.now) }
    ensures err { IfErr result (λ error. error ≡ Memory) }
{
    match passage {
        Passage::FirstLine => Ok(()),
        Passage::NextSession => sink.begin_session(),
        Passage::From(source) => sink.take(source, octets),
    }
}

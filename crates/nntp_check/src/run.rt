//! Runs: what one reads is a capture, and what it writes is the report on it.
ghost use Rattle.std.specs.Prelude.{◌≡◌, ◌≢◌, ◌↔◌, ◌⊎◌, ◌||◌, ◌++◌, false, true, ℕ, List, [], is_err, length, IfOk, IfErr, IsErrOf};
ghost use Rattle.std.specs.Io.KnownBytes.{Keeps};
ghost use Rattle.nntp_several.specs.Inner.VerifyingView.{verified_shown};
ghost use Rattle.nntp_store.specs.Watched.{inner_of};
ghost use Rattle.nntp_store.specs.Inner.Watched.{has_failed_of};
ghost use Rattle.nntp_store.specs.Writing.{Wrote};
ghost use Rattle.nntp_store.specs.Inner.Writing.{Writes};
ghost use Rattle.nntp_check.specs.Inner.Collecting.{IsUnverified, VerifiesHeld, held_in, judged_report};
ghost use Rattle.nntp_check.specs.Capture.{sessions_of};
ghost use Rattle.nntp_check.specs.Inner.Report.{IsVerifiedWithin, IsWithin, text_behind};
ghost use Rattle.nntp_check.specs.Report.{is_permitted, names_of, verified_report};
ghost use Rattle.nntp_verdict.specs.Verdict.{sessions_verdict_shown, is_consistent_of_all};
ghost use Rattle.nntp_wire.specs.declared.overviews.Overviews.TheVariants.{Opaque};
ghost use Rattle.nntp_check.specs.Run.{read_by, written_by, CheckReports, VerifyReports, ShowReports, ExplainReports};
ghost use Rattle.nntp_check.specs.Run.{TaskReports, IsReported, IsCheckFault, IsVerifyFault, IsShowFault, IsExplainFault, IsTaskFault};

use crate::capture_checker::{CaptureChecker, JudgedCapture};
use crate::command_line::Task;
use crate::input::read_capture;
use crate::report::{first_lines, put_text_behind, put_verified};
use crate::run_fault::RunFault;
use crate::session_printer::SessionPrinter;
use crate::streams::Streams;
use bumpalo::Bump;
use nntp_explain::{Explanation, explain_sessions, explain_taking};
use nntp_several::{VerifiedSessions, verify_sessions};
use nntp_spool::{Spool, Watched, WriteFault, put};
use nntp_verdict::SessionsVerdict;
use nntp_wire::{Limit, Marks, Overviews};
use std::alloc::{AllocError, Allocator};
use std::io::{Read, Write};

/// Flushes once.
fn flush<W: Write>(output: &mut Watched<W>) -> Result<(), WriteFault>
    ensures text { Keeps (W.contents (inner_of output.old)) (W.contents (inner_of output.new)) }
    ensures failed { has_failed_of output.new ≡ (has_failed_of output.old || is_err result) }
{
    match output.flush() {
        Ok(()) => Ok(()),
        Err(_) => Err(WriteFault),
    }
}

/// Writes a report that stands whole, and then flushes once: the answer is the one that is told with it.
fn print<W: Write>(text: &[u8], answer: bool, output: &mut Watched<W>) -> Result<bool, RunFault>
    ensures ok { IfOk result (λ told. (told ≡ answer) × Wrote (W.contents (inner_of output.old)) (W.contents (inner_of output.new)) text.now []) }
    ensures err { IfErr result (λ fault. (fault ≡ RunFault.Write)
        × ((left : List ℕ) × Wrote (W.contents (inner_of output.old)) (W.contents (inner_of output.new)) text.now left)) }
    ensures write_failed { has_failed_of output.old ≡ false → (IsErrOf result RunFault.Write ↔ (has_failed_of output.new ≡ true)) }
{
    put(output, text)?;
    flush(output)?;
    Ok(answer)
}

/// Writes the first lines of the report on a verdict and what stands behind them, and then flushes once. It takes no
/// memory.
fn print_report<A: Allocator, W: Write>(
    first: &[u8],
    verdict: &SessionsVerdict<A>,
    output: &mut Watched<W>,
) -> Result<(), WriteFault>
    ensures text { Writes result (W.contents (inner_of output.old)) (W.contents (inner_of output.new)) (first.now
        ++ text_behind (sessions_verdict_shown verdict.now)) }
    ensures failed { has_failed_of output.new ≡ (has_failed_of output.old || is_err result) }
{
    put(output, first)?;
    put_text_behind(verdict, output)?;
    flush(output)
}

/// Whether the spool permits all answers.
fn is_permitted<A: Allocator>(verified: &VerifiedSessions<A>) -> bool
    ensures { result ≡ is_permitted (verified_shown verified.now) }
{
    match verified {
        VerifiedSessions::Permits { .. } => true,
        VerifiedSessions::Refuses { .. } => false,
    }
}

/// Takes what memory the report on a verdict needs, and writes it: the answer is whether the sessions are consistent.
fn report_verdict<A: Allocator + Copy, W: Write>(
    alloc: A,
    is_several: bool,
    judged: &JudgedCapture<A>,
    output: &mut Watched<W>,
) -> Result<bool, RunFault>
    requires { IsWithin (length judged.now.names.items) (sessions_verdict_shown judged.now.verdict) }
    ensures ok { IfOk result (λ answer. (answer ≡ is_consistent_of_all (sessions_verdict_shown judged.now.verdict))
        × Wrote (W.contents (inner_of output.old)) (W.contents (inner_of output.new)) (judged_report is_several judged.now) []) }
    ensures err { IfErr result (λ fault. (fault ≡ RunFault.Memory)
        ⊎ ((fault ≡ RunFault.Write) × ((left : List ℕ)
        × Wrote (W.contents (inner_of output.old)) (W.contents (inner_of output.new)) (judged_report is_several judged.now) left))) }
    ensures unwritten { IfErr result (λ e. e ≢ RunFault.Write → output.new ≡ output.old) }
    ensures unread { IfErr result (λ e. e ≢ RunFault.Read) }
    ensures write_failed { has_failed_of output.old ≡ false → (IsErrOf result RunFault.Write ↔ (has_failed_of output.new ≡ true)) }
{
    let first = first_lines(alloc, is_several, &judged.names, &judged.verdict)?;
    print_report(&first, &judged.verdict, output)?;
    Ok(judged.verdict.is_consistent())
}

/// Judges the sessions of the capture that the input has, as they come, by the limit and the marks, and writes the report
/// on them: the answer is whether they are consistent. Overviews are opaque. It reads at most `most` octets, up to
/// the input's end, behind a bad answer too, and passes over spool pieces; at the first fault it ends. What memory the
/// report needs is taken before its first octet is written; one flush follows the last.
///
/// # Errors
///
/// `Read` where the reader fails, `TooLong` where more than `most` octets come, `Capture` where the input is no capture,
/// and `Memory` where memory is refused: the first of them that occurs, and then nothing is written. `Write` where the
/// writer fails: then it took a front of the report. `Spool` isn't answered.
pub fn run_check<A: Allocator + Copy, R: Read, W: Write>(
    alloc: A,
    limit: Limit,
    marks: Marks,
    input: &mut Watched<R>,
    output: &mut Watched<W>,
    most: u64,
) -> Result<bool, RunFault>
    // What was read is a capture, and what was written is the report on its sessions.
    ensures ok { IfOk result (IsReported (CheckReports limit marks Opaque) (read_by R.remaining input.old input.new most)
        (written_by W.contents output.old output.new)) }
    // Which fault it is, by what was read and written.
    ensures err { IfErr result (IsCheckFault limit marks Opaque (read_by R.remaining input.old input.new most)
        (written_by W.contents output.old output.new)) }
    // After any fault but `Write` the writer isn't touched.
    ensures unwritten { IfErr result (λ e. e ≢ RunFault.Write → output.new ≡ output.old) }

    ensures read_failed { has_failed_of input.old ≡ false → (IsErrOf result RunFault.Read ↔ (has_failed_of input.new ≡ true)) }
    ensures write_failed { has_failed_of output.old ≡ false → (IsErrOf result RunFault.Write ↔ (has_failed_of output.new ≡ true)) }
{
    run_check_taking(alloc, limit, marks, Overviews::Opaque, input, output, most)
}

/// Does what [`run_check`] does, where overviews are taken so.
fn run_check_taking<A: Allocator + Copy, R: Read, W: Write>(
    alloc: A,
    limit: Limit,
    marks: Marks,
    overviews: Overviews,
    input: &mut Watched<R>,
    output: &mut Watched<W>,
    most: u64,
) -> Result<bool, RunFault>
    ensures ok { IfOk result (IsReported (CheckReports limit marks overviews) (read_by R.remaining input.old input.new most)
        (written_by W.contents output.old output.new)) }
    ensures err { IfErr result (IsCheckFault limit marks overviews (read_by R.remaining input.old input.new most)
        (written_by W.contents output.old output.new)) }
    ensures unwritten { IfErr result (λ e. e ≢ RunFault.Write → output.new ≡ output.old) }
    ensures read_failed { has_failed_of input.old ≡ false → (IsErrOf result RunFault.Read ↔ (has_failed_of input.new ≡ true)) }
    ensures write_failed { has_failed_of output.old ≡ false → (IsErrOf result RunFault.Write ↔ (has_failed_of output.new ≡ true)) }
{
    let mut checker = CaptureChecker::new(alloc, limit, marks, overviews);
    let is_several = read_capture(input, &mut checker, most)?;
    let judged = checker.finish()?;
    report_verdict(alloc, is_several, &judged, output)
}

/// Verifies what was collected of a capture by the spool whose text is there. The spool stands in the arena.
fn verify_collected<A: Allocator + Copy, S: Allocator + Copy>(
    alloc: A,
    arena: S,
    marks: Marks,
    overviews: Overviews,
    streams: &Streams<A>,
) -> Result<VerifiedSessions<A>, RunFault>
    ensures ok { IfOk result (λ verified. VerifiesHeld marks overviews (held_in streams.now) (verified_shown verified)) }
    ensures err { IfErr result (IsUnverified (held_in streams.now)) }
    ensures by_text { IfErr result (λ fault. (fault ≢ RunFault.Read) × (fault ≢ RunFault.Write)) }
{
    let spool = Spool::read_with(arena, alloc, &streams.spool)?;
    let sessions = streams.recorded(overviews)?;
    Ok(verify_sessions(alloc, marks, &spool, &sessions)?)
}

/// Takes what memory the report on what `verify` answers of a capture needs, and writes it: the answer is whether the
/// spool permits all answers.
fn report_verified<A: Allocator + Copy, W: Write>(
    alloc: A,
    is_several: bool,
    overviews: Overviews,
    streams: &Streams<A>,
    verified: &VerifiedSessions<A>,
    output: &mut Watched<W>,
) -> Result<bool, RunFault>
    requires { IsVerifiedWithin (length (sessions_of overviews (held_in streams.now))) (verified_shown verified.now) }
    ensures ok { IfOk result (λ answer. (answer ≡ is_permitted (verified_shown verified.now))
        × Wrote (W.contents (inner_of output.old)) (W.contents (inner_of output.new))
        (verified_report is_several (names_of (sessions_of overviews (held_in streams.now))) (verified_shown verified.now)) []) }
    ensures err { IfErr result (λ fault. (fault ≡ RunFault.Memory)
        ⊎ ((fault ≡ RunFault.Write) × ((left : List ℕ) × Wrote (W.contents (inner_of output.old)) (W.contents (inner_of output.new))
        (verified_report is_several (names_of (sessions_of overviews (held_in streams.now))) (verified_shown verified.now)) left))) }
    ensures unwritten { IfErr result (λ e. e ≢ RunFault.Write → output.new ≡ output.old) }
    ensures unread { IfErr result (λ e. e ≢ RunFault.Read) }
    ensures write_failed { has_failed_of output.old ≡ false → (IsErrOf result RunFault.Write ↔ (has_failed_of output.new ≡ true)) }
{
    let sessions = streams.named(overviews)?;
    let mut text = Vec::new(alloc);
    put_verified(&mut text, is_several, &sessions, verified)?;
    print(&text, is_permitted(verified), output)
}

/// Tells whether the spool of a capture explains its sessions, and writes the report on them: the answer is whether the
/// spool permits all answers. The spool is the one whose text the joined spool pieces are; article numbers are judged by
/// its limit, and the water marks of a 211 (RFC 3977, section 6.1.1) are read as `marks` tells. Overviews are
/// opaque. It reads and writes as [`run_check`] does.
///
/// # Errors
///
/// Those of [`run_check`], and `Spool` where the joined spool pieces are the text of no spool.
pub fn run_verify<A: Allocator + Copy, R: Read, W: Write>(
    alloc: A,
    marks: Marks,
    input: &mut Watched<R>,
    output: &mut Watched<W>,
    most: u64,
) -> Result<bool, RunFault>
    // What was read is a capture, and what was written is the report on its sessions and its spool.
    ensures ok { IfOk result (IsReported (VerifyReports marks Opaque) (read_by R.remaining input.old input.new most)
        (written_by W.contents output.old output.new)) }
    // Which fault it is, by what was read and written.
    ensures err { IfErr result (IsVerifyFault marks Opaque (read_by R.remaining input.old input.new most)
        (written_by W.contents output.old output.new)) }
    // After any fault but `Write` the writer isn't touched.
    ensures unwritten { IfErr result (λ e. e ≢ RunFault.Write → output.new ≡ output.old) }

    ensures read_failed { has_failed_of input.old ≡ false → (IsErrOf result RunFault.Read ↔ (has_failed_of input.new ≡ true)) }
    ensures write_failed { has_failed_of output.old ≡ false → (IsErrOf result RunFault.Write ↔ (has_failed_of output.new ≡ true)) }
{
    run_verify_taking(alloc, marks, Overviews::Opaque, input, output, most)
}

/// Does what [`run_verify`] does, where overviews are taken so.
fn run_verify_taking<A: Allocator + Copy, R: Read, W: Write>(
    alloc: A,
    marks: Marks,
    overviews: Overviews,
    input: &mut Watched<R>,
    output: &mut Watched<W>,
    most: u64,
) -> Result<bool, RunFault>
    ensures ok { IfOk result (IsReported (VerifyReports marks overviews) (read_by R.remaining input.old input.new most)
        (written_by W.contents output.old output.new)) }
    ensures err { IfErr result (IsVerifyFault marks overviews (read_by R.remaining input.old input.new most)
        (written_by W.contents output.old output.new)) }
    ensures unwritten { IfErr result (λ e. e ≢ RunFault.Write → output.new ≡ output.old) }
    ensures read_failed { has_failed_of input.old ≡ false → (IsErrOf result RunFault.Read ↔ (has_failed_of input.new ≡ true)) }
    ensures write_failed { has_failed_of output.old ≡ false → (IsErrOf result RunFault.Write ↔ (has_failed_of output.new ≡ true)) }
{
    let mut streams = Streams::new(alloc);
    let is_several = read_capture(input, &mut streams, most)?;
    let arena = Bump::new(alloc);
    let verified = verify_collected(alloc, &arena, marks, overviews, &streams)?;
    report_verified(alloc, is_several, overviews, &streams, &verified, output)
}

/// Writes the sessions of the capture that the input has as a reader sees them: the answer is whether all octets of the
/// servers are answers. It reads and writes as [`run_check`] does.
///
/// # Errors
///
/// Those of [`run_check`].
pub fn run_show<A: Allocator + Copy, R: Read, W: Write>(
    alloc: A,
    input: &mut Watched<R>,
    output: &mut Watched<W>,
    most: u64,
) -> Result<bool, RunFault>
    // What was read is a capture, and what was written is what its sessions show.
    ensures ok { IfOk result (IsReported ShowReports (read_by R.remaining input.old input.new most) (written_by W.contents output.old output.new)) }
    // Which fault it is, by what was read and written.
    ensures err { IfErr result (IsShowFault (read_by R.remaining input.old input.new most) (written_by W.contents output.old output.new)) }
    // After any fault but `Write` the writer isn't touched.
    ensures unwritten { IfErr result (λ e. e ≢ RunFault.Write → output.new ≡ output.old) }

    ensures read_failed { has_failed_of input.old ≡ false → (IsErrOf result RunFault.Read ↔ (has_failed_of input.new ≡ true)) }
    ensures write_failed { has_failed_of output.old ≡ false → (IsErrOf result RunFault.Write ↔ (has_failed_of output.new ≡ true)) }
{
    let mut printer = SessionPrinter::new(alloc);
    let is_several = read_capture(input, &mut printer, most)?;
    let shown = printer.finish(is_several)?;
    print(shown.text, shown.is_answered, output)
}

/// Explains what was collected of a capture: several sessions, or the only one.
fn explain_collected<A: Allocator + Copy>(
    alloc: A,
    limit: Limit,
    marks: Marks,
    overviews: Overviews,
    is_several: bool,
    streams: &Streams<A>,
) -> Result<Explanation<A>, AllocError>
    ensures { IfOk result (λ told. ExplainReports limit marks overviews (record { held = held_in streams.now; is_several = is_several }) told.text.items
        told.is_without_fault) }
{
    if is_several {
        return explain_sessions(alloc, limit, marks, &streams.named(overviews)?);
    }
    let session = streams.last(overviews);
    explain_taking(
        alloc,
        limit,
        marks,
        session.overviews,
        session.client,
        session.server,
    )
}

/// Reads the sessions of the capture that the input has to their ends, by the limit and the marks, and writes each bad
/// answer of them, with where its session stands there: the answer is whether none is bad. A bad answer is passed over,
/// and the next one is judged behind those that were accepted. Overviews are opaque. It reads and writes as
/// [`run_check`] does, and holds all streams whole.
///
/// # Errors
///
/// Those of [`run_check`].
pub fn run_explain<A: Allocator + Copy, R: Read, W: Write>(
    alloc: A,
    limit: Limit,
    marks: Marks,
    input: &mut Watched<R>,
    output: &mut Watched<W>,
    most: u64,
) -> Result<bool, RunFault>
    // What was read is a capture, and what was written is the report on the one reading of its sessions.
    ensures ok { IfOk result (IsReported (ExplainReports limit marks Opaque) (read_by R.remaining input.old input.new most)
        (written_by W.contents output.old output.new)) }
    // Which fault it is, by what was read and written.
    ensures err { IfErr result (IsExplainFault limit marks Opaque (read_by R.remaining input.old input.new most)
        (written_by W.contents output.old output.new)) }
    // After any fault but `Write` the writer isn't touched.
    ensures unwritten { IfErr result (λ e. e ≢ RunFault.Write → output.new ≡ output.old) }

    ensures read_failed { has_failed_of input.old ≡ false → (IsErrOf result RunFault.Read ↔ (has_failed_of input.new ≡ true)) }
    ensures write_failed { has_failed_of output.old ≡ false → (IsErrOf result RunFault.Write ↔ (has_failed_of output.new ≡ true)) }
{
    run_explain_taking(alloc, limit, marks, Overviews::Opaque, input, output, most)
}

/// Does what [`run_explain`] does, where overviews are taken so.
fn run_explain_taking<A: Allocator + Copy, R: Read, W: Write>(
    alloc: A,
    limit: Limit,
    marks: Marks,
    overviews: Overviews,
    input: &mut Watched<R>,
    output: &mut Watched<W>,
    most: u64,
) -> Result<bool, RunFault>
    ensures ok { IfOk result (IsReported (ExplainReports limit marks overviews) (read_by R.remaining input.old input.new most)
        (written_by W.contents output.old output.new)) }
    ensures err { IfErr result (IsExplainFault limit marks overviews (read_by R.remaining input.old input.new most)
        (written_by W.contents output.old output.new)) }
    ensures unwritten { IfErr result (λ e. e ≢ RunFault.Write → output.new ≡ output.old) }
    ensures read_failed { has_failed_of input.old ≡ false → (IsErrOf result RunFault.Read ↔ (has_failed_of input.new ≡ true)) }
    ensures write_failed { has_failed_of output.old ≡ false → (IsErrOf result RunFault.Write ↔ (has_failed_of output.new ≡ true)) }
{
    let mut streams = Streams::new(alloc);
    let is_several = read_capture(input, &mut streams, most)?;
    let told = explain_collected(alloc, limit, marks, overviews, is_several, &streams)?;
    print(&told.text, told.is_without_fault, output)
}

/// Does the task: what `run_check`, `run_verify`, `run_show` or `run_explain` does, by what the task holds, where overviews
/// are taken as it says.
///
/// # Errors
///
/// Those of the run that the task is.
pub fn run_task<A: Allocator + Copy, R: Read, W: Write>(
    alloc: A,
    task: Task,
    input: &mut Watched<R>,
    output: &mut Watched<W>,
    most: u64,
) -> Result<bool, RunFault>
    // What was read is a capture, and what was written is the task's report on it.
    ensures ok { IfOk result (IsReported (TaskReports task) (read_by R.remaining input.old input.new most) (written_by W.contents output.old output.new)) }
    // Which fault it is, by what was read and written.
    ensures err { IfErr result (IsTaskFault task (read_by R.remaining input.old input.new most) (written_by W.contents output.old output.new)) }
    // After any fault but `Write` the writer isn't touched.
    ensures unwritten { IfErr result (λ e. e ≢ RunFault.Write → output.new ≡ output.old) }

    ensures read_failed { has_failed_of input.old ≡ false → (IsErrOf result RunFault.Read ↔ (has_failed_of input.new ≡ true)) }
    ensures write_failed { has_failed_of output.old ≡ false → (IsErrOf result RunFault.Write ↔ (has_failed_of output.new ≡ true)) }
{
    match task {
        Task::Check {
            limit,
            marks,
            overviews,
        } => run_check_taking(alloc, limit, marks, overviews, input, output, most),
        Task::Verify { marks, overviews } => {
            run_verify_taking(alloc, marks, overviews, input, output, most)
        }
        Task::Show => run_show(alloc, input, output, most),
        Task::Explain {
            limit,
            marks,
            overviews,
        } => run_explain_taking(alloc, limit, marks, overviews, input, output, most),
    }
}

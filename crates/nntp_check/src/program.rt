//! The program: its words are read, what they ask for is done, and then it ends.
ghost use Rattle.std.specs.Prelude.{IfErr};
ghost use Rattle.nntp_check.specs.Inner.CommandLine.{IsNoRun, StaysOrIsUntold, code_status};
ghost use Rattle.nntp_check.specs.CommandLine.{MayEndWith};
ghost use Rattle.nntp_check.specs.Run.{EndsRun, EndsProgram};

use crate::command_line::{Failure, job, refusal, status};
use crate::run::run_task;
use clap::error::ErrorKind;
use nntp_spool::Watched;
use std::alloc::{AllocError, Global};
use std::env::{self, Env};
use std::io::{self, Read, Write};
use std::process::ExitCode;

/// The most octets that the program reads.
const MOST: u64 = 1 << 30;

/// The words of the command line, the program's name first.
fn words<R: Env + AllocGlobal>(rt: &R) -> io::Result<Vec<String>> {
    Ok(env::args(rt)?.collect(rt.alloc())?)
}

/// Why the words can't be read: one is not UTF-8, or memory is refused.
fn unread(error: io::Error) -> Failure
    ensures { IsNoRun result }
{
    match error.kind() {
        io::ErrorKind::OutOfMemory => Failure::Words(AllocError.into()),
        _ => Failure::NotText,
    }
}

/// Does what the words of the command line ask for, of which the first is the program's name. It reads at most 2^30
/// octets.
///
/// # Errors
///
/// `Words` and `ExtraWord` where the words ask for no task, and then nothing is read or written. `Run` with the fault of
/// the run.
fn run_words<R: Read, W: Write>(
    alloc: Global,
    words: &[String],
    input: &mut Watched<R>,
    output: &mut Watched<W>,
) -> Result<bool, Failure>
    ensures { EndsRun R.remaining W.contents input.old input.new output.old output.new result }
{
    match job(alloc, words) {
        Ok(task) => run_task(alloc, task, input, output, MOST).map_err(Failure::Run),
        Err(error) => Err(refusal(error, words)),
    }
}

/// Prints help that was asked for on standard output, and why there is no answer on standard error.
fn tell(rt: &(impl Print + Eprint), outcome: Result<bool, Failure>) -> Result<bool, Failure>
    ensures { StaysOrIsUntold outcome result }
{
    let told = match &outcome {
        Ok(_) => Ok(()),
        Err(Failure::Words(error)) => match error.kind() {
            ErrorKind::OutOfMemory => eprintln!(rt; "nntpcheck: out of memory"),
            _ => error.print(rt),
        },
        Err(failure) => eprintln!(rt; "{failure}"),
    };
    match (told, status(&outcome)) {
        // Help that could not be written is a fault. Where nothing can be told on standard error, the status still says it.
        (Err(_), 0) => Err(Failure::Help),
        _ => outcome,
    }
}

/// Prints help that was asked for on standard output, and why there is no answer on standard error; and gives the status
/// that the process ends with: that of the outcome, or 3 where help could not be written.
fn conclude(rt: &(impl Print + Eprint), outcome: Result<bool, Failure>) -> ExitCode
    ensures { MayEndWith outcome (code_status result) }
{
    let outcome = tell(rt, outcome);
    if let Err(failure @ Failure::Help) = &outcome {
        let _ = eprintln!(rt; "{failure}");
    }
    ExitCode::from(status(&outcome))
}

/// What `main` does: what the words of the command line ask for is done, on at most 2^30 octets of the input, help is
/// printed on standard output, and why there is no answer on standard error. Gives the status that the process ends with.
pub fn run_program<R: Env + AllocGlobal + Print + Eprint, I: Read, O: Write>(
    rt: &R,
    input: &mut Watched<I>,
    output: &mut Watched<O>,
) -> ExitCode
    ensures { EndsProgram I.remaining O.contents input.old input.new output.old output.new (code_status result) }
{
    let outcome = match words(rt) {
        Ok(words) => run_words(rt.alloc(), &words, input, output),
        Err(error) => Err(unread(error)),
    };
    conclude(rt, outcome)
}

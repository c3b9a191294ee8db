//! What the command line asks for, and how the process ends.
ghost use Rattle.std.specs.Prelude.{◌≡◌, ◌⊎◌};
ghost use Rattle.nntp_check.specs.CommandLine.{exit_status};

use crate::run_fault::RunFault;
use clap::error::ErrorKind;
use clap::{Arg, ArgAction, ArgMatches, Command};
use nntp_wire::{Limit, Marks, Overviews};
use std::alloc::{AllocError, Global};
use thiserror::Error;

/// What the words ask for.
#[derive(Clone, Copy, Debug, PartialEq, Eq)]
pub enum Task {
    /// Judge the sessions of a capture by the limit and the marks, as `run_check` does, where overviews are taken so.
    Check {
        limit: Limit,
        marks: Marks,
        overviews: Overviews,
    },
    /// Tell whether a given spool explains them, as `run_verify` does, by the marks, where overviews are taken so.
    Verify {
        marks: Marks,
        overviews: Overviews,
    },
    /// Show them as a reader sees them, as `run_show` does.
    Show,
    /// Tell all that is bad of them by the limit and the marks, as `run_explain` does, where overviews are taken so.
    Explain {
        limit: Limit,
        marks: Marks,
        overviews: Overviews,
    },
}

/// What the help of each task says behind its options.
const CHECK_HELP: &str = "\
Reads a capture from standard input, to its end, and passes over its spool pieces.
Writes to standard output how many answers are consistent, and a spool; or the bad answer with its
class, the command that it answers, and the reply. Several sessions are judged together, and the bad
answer stands behind the number and the name of its session.
Exit status: 0 if a spool explains all sessions, 1 if none does, 2 if the command line is refused,
3 after a fault, which is told on standard error.";

const VERIFY_HELP: &str = "\
Reads a capture from standard input, to its end; its joined spool pieces are the text of a spool, which
says how large article numbers may be.
Writes to standard output how many answers the spool permits, or the first that it doesn't; of several
sessions that stands behind the number and the name of its session.
Exit status: 0 if the spool explains all sessions, 1 if it doesn't, 2 if the command line is refused,
3 after a fault, which is told on standard error.";

const SHOW_HELP: &str = "\
Reads a capture from standard input, to its end, and passes over its spool pieces.
Writes to standard output a line for each answer, with the command line that it answers, and under
it the group that it names, or what the head that it sends says: its control messages, and which
required headers are missing. The last line tells how the session ends. Each of several sessions stands
behind its number and its name.
A capture has all that was sent, passwords too, and this prints them.
Exit status: 0 if all octets of the server are answers, 1 if some are not, 2 if the command line is
refused, 3 after a fault, which is told on standard error.";

const EXPLAIN_HELP: &str = "\
Reads a capture from standard input, to its end, and passes over its spool pieces.
Writes to standard output each bad answer with its class, the command that it answers, and the reply;
where its session stands there: the selected group, the current article, and the answers that made them
so; and why it is bad: what it breaks, or which accepted answers it contradicts, and about what. A bad
answer is passed over, so that what follows is judged too. Several sessions are judged together, and the
bad answers of each stand behind its number and its name. The last line tells how many answers there
are, how many of them are bad, and how many commands have none.
Exit status: 0 if no answer is bad, 1 if some are, 2 if the command line is refused, 3 after a fault,
which is told on standard error.";

/// What the program's help ends with.
const PROGRAM_HELP: &str = "\
Example:
  printf 'client 15\\nGROUP g\\r\\nQUIT\\r\\nserver 30\\n200 hi\\r\\n211 0 1 0 g\\r\\n205 bye\\r\\n' | nntpcheck check

docs/FORMATS.md in the program's repository describes captures, reports, spools and exit statuses.";

/// Why the program gives no answer.
#[derive(Debug, Drop, Error)]
pub enum Failure {
    /// The words were refused, ask for help, or memory ran out while they were read.
    #[error("{0}")]
    Words(clap::Error),
    /// The words were refused, and one behind the task is no option, as the name of a file isn't.
    #[error("{0}\na capture is read from standard input: nntpcheck check < my.capture")]
    ExtraWord(clap::Error),
    /// A word is not UTF-8.
    #[error("nntpcheck: a word is not UTF-8")]
    NotText,
    /// The help that was asked for could not be written.
    #[error("nntpcheck: write failed")]
    Help,
    #[error("nntpcheck: {0}")]
    Run(RunFault),
}

/// The option by which article numbers may be wide.
const WIDE: &str = "wide";

/// The option by which marks are read strictly.
const STRICT_MARKS: &str = "strict-marks";

/// The option by which overviews are judged.
const OVERVIEW: &str = "overview";

/// An option without a value.
fn flag<'a>(alloc: Global, name: &'a str, help: &'a str) -> Arg<'a> {
    Arg::new(alloc, name)
        .long(name)
        .action(ArgAction::SetTrue)
        .help(help)
}

/// The option by which article numbers may be wide.
fn wide<'a>(alloc: Global) -> Arg<'a> {
    flag(
        alloc,
        WIDE,
        "Let article numbers go up to 9,999,999,999,999,999, not up to 2,147,483,647",
    )
}

/// The option by which marks are read strictly.
fn strict_marks<'a>(alloc: Global) -> Arg<'a> {
    flag(
        alloc,
        STRICT_MARKS,
        "Read the marks of a 211 as the least and the greatest number of a group that has numbers, not as bounds",
    )
}

/// The option by which overviews are judged.
fn overview<'a>(alloc: Global) -> Arg<'a> {
    flag(
        alloc,
        OVERVIEW,
        "Judge OVER and XOVER too, and HDR and XHDR of Message-ID: which articles a range has, their ids and headers",
    )
}

/// A task with the two options that all tasks have that judge.
fn judging<'a>(alloc: Global, task: Command<'a>) -> Result<Command<'a>, AllocError> {
    task.arg(strict_marks(alloc))?.arg(overview(alloc))
}

/// The command that judges a session.
fn check<'a>(alloc: Global) -> Result<Command<'a>, AllocError> {
    let task = Command::new(alloc, "check")
        .about(
            "Judge the capture on standard input: write a spool that explains its sessions, or name the first answer that none explains",
        )
        .override_usage("nntpcheck check [OPTIONS] < CAPTURE")
        .after_help(CHECK_HELP)
        .arg(wide(alloc))?;
    judging(alloc, task)
}

/// The command that tells whether a given spool explains a session.
fn verify<'a>(alloc: Global) -> Result<Command<'a>, AllocError> {
    let task = Command::new(alloc, "verify")
        .about(
            "Tell whether the spool in the capture on standard input explains its sessions, or name the first answer that it doesn't explain",
        )
        .override_usage("nntpcheck verify [OPTIONS] < CAPTURE")
        .after_help(VERIFY_HELP);
    judging(alloc, task)
}

/// The command that shows a session.
fn show<'a>(alloc: Global) -> Command<'a> {
    Command::new(alloc, "show")
        .about(
            "Show the sessions of the capture on standard input as a reader sees them, and judge nothing else",
        )
        .override_usage("nntpcheck show < CAPTURE")
        .after_help(SHOW_HELP)
}

/// The command that explains what is bad of a session.
fn explain<'a>(alloc: Global) -> Result<Command<'a>, AllocError> {
    let task = Command::new(alloc, "explain")
        .about(
            "Tell all bad answers of the sessions in the capture on standard input, and why each is bad",
        )
        .override_usage("nntpcheck explain [OPTIONS] < CAPTURE")
        .after_help(EXPLAIN_HELP)
        .arg(wide(alloc))?;
    judging(alloc, task)
}

/// Whether the option stands behind the task.
fn is_given(matches: &ArgMatches<'_>, task: &str, option: &str) -> bool {
    match matches.subcommand_matches(task) {
        Some(options) => options.get_flag(option),
        None => false,
    }
}

/// How the task is to read marks.
fn marks_for(matches: &ArgMatches<'_>, task: &str) -> Marks {
    if is_given(matches, task, STRICT_MARKS) {
        Marks::Strict
    } else {
        Marks::Lenient
    }
}

/// How large the task is to let article numbers be.
fn limit_for(matches: &ArgMatches<'_>, task: &str) -> Limit {
    if is_given(matches, task, WIDE) {
        Limit::Wide
    } else {
        Limit::Narrow
    }
}

/// How the task is to take overviews.
fn overviews_for(matches: &ArgMatches<'_>, task: &str) -> Overviews {
    if is_given(matches, task, OVERVIEW) {
        Overviews::Judged
    } else {
        Overviews::Opaque
    }
}

/// The program with one task more, if that could be made. (A command is many drops to check at each `?` where it is held,
/// so it is held at this one alone.)
fn with_task<'a>(
    program: Command<'a>,
    task: Result<Command<'a>, AllocError>,
) -> Result<Command<'a>, AllocError> {
    program.subcommand(task?)
}

/// The command of the program, with its tasks.
fn program<'a>(alloc: Global) -> Result<Command<'a>, AllocError> {
    let program = Command::new(alloc, "nntpcheck")
        .version("0.1.0")
        .about(
            "Judges recorded NNTP reader sessions (RFC 3977): is there one collection of articles that could have given all of a server's answers?",
        )
        .after_help(PROGRAM_HELP)
        .subcommand_required(true);
    let program = with_task(program, check(alloc))?;
    let program = with_task(program, verify(alloc))?;
    let program = program.subcommand(show(alloc))?;
    with_task(program, explain(alloc))
}

/// The task that the words ask for.
fn task_asked(matches: &ArgMatches<'_>) -> Task {
    match matches.subcommand_name() {
        Some("verify") => Task::Verify {
            marks: marks_for(matches, "verify"),
            overviews: overviews_for(matches, "verify"),
        },
        Some("show") => Task::Show,
        Some("explain") => Task::Explain {
            limit: limit_for(matches, "explain"),
            marks: marks_for(matches, "explain"),
            overviews: overviews_for(matches, "explain"),
        },
        _ => Task::Check {
            limit: limit_for(matches, "check"),
            marks: marks_for(matches, "check"),
            overviews: overviews_for(matches, "check"),
        },
    }
}

/// Reads the words of the command line, of which the first is the program's name, as the task that they ask for.
///
/// # Errors
///
/// An error of `clap` where the words are refused, where they ask for help, and where memory is refused.
pub fn job(alloc: Global, words: &[String]) -> Result<Task, clap::Error> {
    let matches = program(alloc)?.try_get_matches_from(words)?;
    Ok(task_asked(&matches))
}

/// Why there is no task: the words were refused or ask for help. Where a word that is no option stands behind the
/// task, that says so.
pub fn refusal(error: clap::Error, words: &[String]) -> Failure
    ensures { (result ≡ Failure.Words error) ⊎ (result ≡ Failure.ExtraWord error) }
{
    if error.kind() == ErrorKind::UnknownArgument && has_extra_word(words) {
        Failure::ExtraWord(error)
    } else {
        Failure::Words(error)
    }
}

/// Whether a word that is no option stands behind the program's name and the task.
fn has_extra_word(words: &[String]) -> bool {
    words.iter().skip(2).any(|word| !word.starts_with('-'))
}

/// The status that the process ends with: 0 yes and help, 1 no, 2 words that were refused, 3 a fault.
pub fn status(outcome: &Result<bool, Failure>) -> u8
    ensures { result ≡ exit_status outcome.now }
{
    match outcome {
        Ok(true) => 0,
        Ok(false) => 1,
        Err(Failure::Words(error)) => match error.kind() {
            ErrorKind::DisplayHelp | ErrorKind::DisplayVersion => 0,
            ErrorKind::OutOfMemory => 3,
            _ => 2,
        },
        Err(Failure::ExtraWord(_)) => 2,
        Err(Failure::NotText) => 2,
        Err(Failure::Help) => 3,
        Err(Failure::Run(_)) => 3,
    }
}

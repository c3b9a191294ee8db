//! The command line, the words on standard error, and the exit status.
use crate::tasks::{
    CHECK, CHECK_OVERVIEW, CHECK_OVERVIEW_STRICTLY, CHECK_OVERVIEW_WIDE,
    CHECK_OVERVIEW_WIDE_AND_STRICT, CHECK_STRICTLY, CHECK_WIDE, CHECK_WIDE_AND_STRICT, EXPLAIN,
    EXPLAIN_OVERVIEW, EXPLAIN_OVERVIEW_STRICTLY, EXPLAIN_OVERVIEW_WIDE,
    EXPLAIN_OVERVIEW_WIDE_AND_STRICT, EXPLAIN_STRICTLY, EXPLAIN_WIDE, VERIFY, VERIFY_OVERVIEW,
    VERIFY_OVERVIEW_STRICTLY, VERIFY_STRICTLY,
};
use clap::error::ErrorKind;
use nntp_check::{Failure, Kind, ReadFault, RunFault, Task, job, refusal, status};
use std::alloc::{AllocError, Global};
use std::process::Abort;
use std::test::Fail;

fn words(alloc: Global, of: &[&str]) -> Result<Vec<String>, AllocError> {
    let mut words = Vec::new(alloc);
    for word in of {
        words.push(String::from_str(alloc, word)?)?;
    }
    Ok(words)
}

/// Words, and the task that they ask for.
const ASKED: [(&[&str], Task); 22] = [
    (&["nntpcheck", "check"], CHECK),
    (&["nntpcheck", "check", "--strict-marks"], CHECK_STRICTLY),
    (&["nntpcheck", "check", "--wide"], CHECK_WIDE),
    (
        &["nntpcheck", "check", "--wide", "--strict-marks"],
        CHECK_WIDE_AND_STRICT,
    ),
    (
        &["nntpcheck", "check", "--strict-marks", "--wide"],
        CHECK_WIDE_AND_STRICT,
    ),
    (&["nntpcheck", "verify"], VERIFY),
    (&["nntpcheck", "verify", "--strict-marks"], VERIFY_STRICTLY),
    (&["nntpcheck", "show"], Task::Show),
    (&["nntpcheck", "explain"], EXPLAIN),
    (
        &["nntpcheck", "explain", "--strict-marks"],
        EXPLAIN_STRICTLY,
    ),
    (&["nntpcheck", "explain", "--wide"], EXPLAIN_WIDE),
    (&["nntpcheck", "check", "--overview"], CHECK_OVERVIEW),
    (
        &["nntpcheck", "check", "--strict-marks", "--overview"],
        CHECK_OVERVIEW_STRICTLY,
    ),
    (
        &["nntpcheck", "check", "--overview", "--wide"],
        CHECK_OVERVIEW_WIDE,
    ),
    (
        &[
            "nntpcheck",
            "check",
            "--wide",
            "--strict-marks",
            "--overview",
        ],
        CHECK_OVERVIEW_WIDE_AND_STRICT,
    ),
    (
        &[
            "nntpcheck",
            "check",
            "--overview",
            "--strict-marks",
            "--wide",
        ],
        CHECK_OVERVIEW_WIDE_AND_STRICT,
    ),
    (&["nntpcheck", "verify", "--overview"], VERIFY_OVERVIEW),
    (
        &["nntpcheck", "verify", "--overview", "--strict-marks"],
        VERIFY_OVERVIEW_STRICTLY,
    ),
    (&["nntpcheck", "explain", "--overview"], EXPLAIN_OVERVIEW),
    (
        &["nntpcheck", "explain", "--strict-marks", "--overview"],
        EXPLAIN_OVERVIEW_STRICTLY,
    ),
    (
        &["nntpcheck", "explain", "--wide", "--overview"],
        EXPLAIN_OVERVIEW_WIDE,
    ),
    (
        &[
            "nntpcheck",
            "explain",
            "--wide",
            "--overview",
            "--strict-marks",
        ],
        EXPLAIN_OVERVIEW_WIDE_AND_STRICT,
    ),
];

#[test]
fn words_that_ask_for_a_task(rt: HostRuntime) -> Result<(), Fail> {
    for (of, task) in ASKED {
        let words = words(rt.alloc(), of)?;
        assert_eq!(rt; job(rt.alloc(), &words)?, task, "{of:?}");
    }
    Ok(())
}

/// Words that ask for no task, of which kind the error is, and the exit status.
const REFUSED: [(&[&str], ErrorKind, u8); 21] = [
    (&["nntpcheck"], ErrorKind::MissingSubcommand, 2),
    (&["nntpcheck", "check", "x"], ErrorKind::UnknownArgument, 2),
    (
        &["nntpcheck", "check", "--x"],
        ErrorKind::UnknownArgument,
        2,
    ),
    (&["nntpcheck", "verify", "x"], ErrorKind::UnknownArgument, 2),
    (&["nntpcheck", "show", "x"], ErrorKind::UnknownArgument, 2),
    (
        &["nntpcheck", "explain", "x"],
        ErrorKind::UnknownArgument,
        2,
    ),
    (
        &["nntpcheck", "verify", "--wide"],
        ErrorKind::UnknownArgument,
        2,
    ),
    (
        &["nntpcheck", "show", "--wide"],
        ErrorKind::UnknownArgument,
        2,
    ),
    (
        &["nntpcheck", "show", "--strict-marks"],
        ErrorKind::UnknownArgument,
        2,
    ),
    (
        &["nntpcheck", "show", "--overview"],
        ErrorKind::UnknownArgument,
        2,
    ),
    (
        &["nntpcheck", "verify", "--overview", "--wide"],
        ErrorKind::UnknownArgument,
        2,
    ),
    (
        &["nntpcheck", "--overview", "check"],
        ErrorKind::UnknownArgument,
        2,
    ),
    (
        &["nntpcheck", "check", "--overviews"],
        ErrorKind::UnknownArgument,
        2,
    ),
    (
        &["nntpcheck", "--wide", "check"],
        ErrorKind::UnknownArgument,
        2,
    ),
    (
        &["nntpcheck", "check", "--strict"],
        ErrorKind::UnknownArgument,
        2,
    ),
    (&["nntpcheck", "tell"], ErrorKind::InvalidSubcommand, 2),
    (&["nntpcheck", "--help"], ErrorKind::DisplayHelp, 0),
    (&["nntpcheck", "check", "-h"], ErrorKind::DisplayHelp, 0),
    (&["nntpcheck", "show", "--help"], ErrorKind::DisplayHelp, 0),
    (&["nntpcheck", "explain", "-h"], ErrorKind::DisplayHelp, 0),
    (&["nntpcheck", "--version"], ErrorKind::DisplayVersion, 0),
];

#[test]
fn words_that_ask_for_no_task(rt: HostRuntime) -> Result<(), Fail> {
    let alloc = rt.alloc();
    for (of, kind, code) in REFUSED {
        let words = words(alloc, of)?;
        match job(alloc, &words) {
            Ok(_) => assert!(rt; false, "not refused"),
            Err(error) => {
                assert_eq!(rt; error.kind(), kind);
                assert_eq!(rt; error.use_stderr(), code == 2);
                assert_eq!(rt; status(&Err(refusal(error, &words))), code);
            }
        }
    }
    Ok(())
}

/// What is told where a word that is no option stands behind the task.
const HINT: &str = "\na capture is read from standard input: nntpcheck check < my.capture";

/// Words that are refused, and whether that is told.
const HINTS: [(&[&str], bool); 5] = [
    (&["nntpcheck", "check", "my.capture"], true),
    (
        &["nntpcheck", "verify", "--strict-marks", "my.capture"],
        true,
    ),
    (&["nntpcheck", "check", "--x"], false),
    (&["nntpcheck", "my.capture"], false),
    (&["nntpcheck"], false),
];

#[test]
fn a_word_that_is_no_option(rt: HostRuntime) -> Result<(), Fail> {
    let alloc = rt.alloc();
    for (of, has_hint) in HINTS {
        let words = words(alloc, of)?;
        match job(alloc, &words) {
            Ok(_) => assert!(rt; false, "not refused"),
            Err(error) => {
                let told = format!(in alloc; "{}", refusal(error, &words))?;
                assert_eq!(rt; told.ends_with(HINT), has_hint, "{told}");
            }
        }
    }
    Ok(())
}

/// Words that ask for help, and what that tells.
const HELPS: [(&[&str], &[&str]); 5] = [
    (
        &["nntpcheck", "--help"],
        &[
            "  check ",
            "  verify ",
            "  show ",
            "Example:\n  printf 'client 15\\nGROUP g",
            "docs/FORMATS.md",
        ],
    ),
    (
        &["nntpcheck", "check", "--help"],
        &[
            "  --wide",
            "9,999,999,999,999,999",
            "  --strict-marks",
            "  --overview",
            "Judge OVER and XOVER too",
            "\nReads a capture",
            "\nWrites to standard output",
            "\nExit status: 0 if",
        ],
    ),
    (
        &["nntpcheck", "verify", "--help"],
        &[
            "  --strict-marks",
            "  --overview",
            "\nReads a capture",
            "\nWrites to standard output",
            "\nExit status: 0 if",
        ],
    ),
    (
        &["nntpcheck", "explain", "--help"],
        &[
            "  --wide",
            "  --strict-marks",
            "  --overview",
            "\nReads a capture",
            "\nWrites to standard output",
            "\nExit status: 0 if",
        ],
    ),
    (
        &["nntpcheck", "show", "-h"],
        &[
            "\nReads a capture",
            "\nWrites to standard output",
            "\nExit status: 0 if",
        ],
    ),
];

#[test]
fn help_tells_what_is_read_and_written(rt: HostRuntime) -> Result<(), Fail> {
    let alloc = rt.alloc();
    for (of, wanted) in HELPS {
        let words = words(alloc, of)?;
        match job(alloc, &words) {
            Ok(_) => assert!(rt; false, "no help"),
            Err(error) => {
                let help = format!(in alloc; "{error}")?;
                for part in wanted {
                    assert!(rt; help.as_str().contains(*part), "{part}: {help}");
                }
            }
        }
    }
    Ok(())
}

/// Faults, and what is told of each.
const FAULTS: [(RunFault, &str); 6] = [
    (RunFault::Read, "nntpcheck: read failed"),
    (RunFault::TooLong, "nntpcheck: input too long"),
    (
        RunFault::Capture { piece: 7 },
        "nntpcheck: bad capture piece 7",
    ),
    (
        RunFault::Spool(ReadFault {
            line: 12,
            kind: Kind::DuplicateId,
        }),
        "nntpcheck: spool line 12 DuplicateId",
    ),
    (RunFault::Memory, "nntpcheck: out of memory"),
    (RunFault::Write, "nntpcheck: write failed"),
];

#[test]
fn faults_by_name(rt: HostRuntime) -> Result<(), Fail> {
    for (fault, text) in FAULTS {
        let failure = Failure::Run(fault);
        assert_eq!(rt; format!(in rt.alloc(); "{failure}")?.as_str(), text);
        assert_eq!(rt; status(&Err(failure)), 3);
    }
    let text = format!(in rt.alloc(); "{}", Failure::NotText)?;
    assert_eq!(rt; text.as_str(), "nntpcheck: a word is not UTF-8");
    Ok(())
}

#[test]
fn exit_status_of_each_outcome(rt: HostRuntime) {
    assert_eq!(rt; status(&Ok(true)), 0);
    assert_eq!(rt; status(&Ok(false)), 1);
    assert_eq!(rt; status(&Err(Failure::NotText)), 2);
    assert_eq!(rt; status(&Err(Failure::Help)), 3);
    assert_eq!(rt;
        status(&Err(Failure::Words(clap::Error::from(AllocError)))),
        3
    );
}

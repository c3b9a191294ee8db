//! The reports of verdicts.
use nntp_sessions::with_spool_text;
use nntp_verdict::Verdict;
use std::alloc::{AllocError, Allocator, Global};

/// Writes the first line of the report on a bad answer, and the answer with nothing escaped.
pub(crate) fn show_bad<A: Allocator>(
    shown: &mut Vec<u8>,
    first: &str,
    command: Option<&Vec<u8, A>>,
    reply: &[u8],
) -> Result<(), AllocError> {
    shown.extend_from_slice(first.as_bytes())?;
    match command {
        Some(line) => {
            shown.extend_from_slice(b"command ")?;
            shown.extend_from_slice(line)?;
        }
        None => shown.extend_from_slice(b"no command")?,
    }
    shown.extend_from_slice(b"\nanswer ")?;
    shown.extend_from_slice(reply)?;
    shown.extend_from_slice(b"\n")
}

/// The report on a verdict, with nothing escaped.
pub fn shown<A: Allocator>(alloc: Global, verdict: &Verdict<A>) -> Result<Vec<u8>, AllocError> {
    match verdict {
        Verdict::Consistent { spool, answers } => {
            let counts = spool.counts();
            let first = format!(in alloc;
                "consistent answers={answers} groups={} numbers={} articles={}\n",
                counts.groups, counts.numbers, counts.articles
            )?;
            with_spool_text(first.into_bytes(), spool)
        }
        Verdict::Bad {
            answer,
            class,
            command,
            reply,
        } => {
            let mut shown = Vec::new(alloc);
            let first = format!(in alloc; "bad answer {answer} {class}\n")?;
            show_bad(&mut shown, first.as_str(), command.as_ref(), reply)?;
            Ok(shown)
        }
    }
}

//! What is said of exchanges that are judged one after the other.
use crate::{Judged, judge};
use nntp_sessions::{Answered, Choice};
use std::alloc::{AllocError, Global};
use std::test::Fail;

/// How many exchanges are consistent with all before them, what is said of the next, if there is one, and the text of the
/// spool that is given for those that are consistent.
#[derive(Drop)]
pub struct SlowVerdict {
    pub good: usize,
    pub judged: Judged,
    pub text: Vec<u8>,
}

impl SlowVerdict {
    /// Judges one exchange after the other. They may be of several sessions, as `judge` says.
    pub fn of(
        alloc: Global,
        choice: Choice,
        exchanges: &[Answered<'_>],
    ) -> Result<SlowVerdict, AllocError> {
        let (judged, text) = judge(alloc, choice, &[])?;
        let mut verdict = SlowVerdict {
            good: 0,
            judged,
            text,
        };
        for count in 1..=exchanges.len() {
            if verdict.judged == Judged::Consistent {
                let (front, _) = exchanges.split_at(count);
                verdict.go_on(alloc, choice, front)?;
            }
        }
        Ok(verdict)
    }

    /// Judges the last of these exchanges. Those before it are the consistent ones.
    pub fn go_on(
        &mut self,
        alloc: Global,
        choice: Choice,
        exchanges: &[Answered<'_>],
    ) -> Result<(), AllocError> {
        let (judged, text) = judge(alloc, choice, exchanges)?;
        self.judged = judged;
        if judged == Judged::Consistent {
            self.good = exchanges.len();
            self.text = text;
        }
        Ok(())
    }

    /// The first line of the report of `check`, as far as it is told here. Where octets that are no whole answer follow, it
    /// isn't a yes.
    pub fn first_line(&self, alloc: Global, is_whole: bool) -> Result<String, AllocError> {
        let SlowVerdict { good, judged, .. } = *self;
        match judged {
            Judged::Consistent if is_whole => format!(in alloc; "consistent answers={good} "),
            Judged::Consistent => format!(in alloc; "bad answer {good} "),
            _ => format!(in alloc; "bad answer {good} {judged:?}\n"),
        }
    }

    /// The report of `check` on two streams, which end behind the last exchange, says the same.
    ///
    /// # Errors
    ///
    /// Want of memory, and the report, where it says something else.
    pub fn expect_told(&self, alloc: Global, name: &str, report: &[u8]) -> Result<(), Fail> {
        let first = self.first_line(alloc, true)?;
        let is_given = self.judged != Judged::Consistent || report.ends_with(&self.text);
        if is_given && report.starts_with(first.as_bytes()) {
            return Ok(());
        }
        let report = report.escape_ascii();
        Err(Fail::new(format_args!("{name}: {report}, and wanted is {first}")))
    }
}

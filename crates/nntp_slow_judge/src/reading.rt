//! A session that is read on behind bad answers: one that no spool permits with those accepted before is left out.
use crate::given::given_spool;
use crate::said::Said;
use crate::spool::Spool;
use crate::told::Told;
use crate::{Judged, judge_listed};
use nntp_pair::{Exchange, PairClass, Pairs, Step};
use nntp_sessions::Choice;
use nntp_wire::Overviews;
use std::alloc::{AllocError, Global};

/// What was read of a session.
#[derive(Drop)]
pub struct Reading<'a> {
    alloc: Global,
    choice: Choice,
    /// What the accepted answers say.
    said: Said<'a>,
    /// The accepted answers.
    accepted: Vec<Told<'a>>,
    /// Those that don't fit, or contradict the accepted ones.
    refused: Vec<Told<'a>>,
    /// How many answers are bad.
    bad: u64,
    /// A line for each bad answer, and in the end the last line of the report.
    lines: String,
}

/// Reads a session to its end, where overviews are taken so.
pub fn read<'a>(
    alloc: Global,
    choice: Choice,
    overviews: Overviews,
    (client, server): (&'a [u8], &'a [u8]),
) -> Result<Reading<'a>, AllocError> {
    let mut reading = Reading::new(alloc, choice);
    reading.read(Pairs::taking(overviews, client, server), (client, server))?;
    Ok(reading)
}

impl<'a> Reading<'a> {
    fn new(alloc: Global, choice: Choice) -> Reading<'a> {
        Reading {
            alloc,
            choice,
            said: Said::new(alloc),
            accepted: Vec::new(alloc),
            refused: Vec::new(alloc),
            bad: 0,
            lines: String::new(alloc),
        }
    }

    /// Reads the pairs of both streams to their end.
    fn read(
        &mut self,
        mut pairs: Pairs<'a>,
        (client, server): (&'a [u8], &'a [u8]),
    ) -> Result<(), AllocError> {
        for _ in 0..=server.len() {
            match pairs.next() {
                Step::Exchange(exchange) => self.judge(exchange)?,
                Step::Bad { index, class } => match class {
                    PairClass::Malformed => {
                        pairs.pass_over();
                        self.leave_out(index, "Malformed")?;
                    }
                    PairClass::Cut => return self.stop(index, "Cut", client),
                    PairClass::Surplus => return self.stop(index, "Surplus", client),
                },
                Step::End { .. } => return self.end(pairs.index(), client),
            }
        }
        Ok(())
    }

    /// Ends at octets that answer nothing.
    fn stop(&mut self, index: u64, class: &str, client: &[u8]) -> Result<(), AllocError> {
        self.leave_out(index, class)?;
        self.end(index.saturating_add(1), client)
    }

    /// The lines `bad answer K CLASS`, and the last line.
    pub fn lines(&self) -> &str {
        self.lines.as_str()
    }

    /// The accepted answer of an index.
    fn accepted(&self, index: u64) -> Option<&Told<'a>> {
        self.accepted.iter().find(|told| told.index() == index)
    }

    /// The answer of an index that doesn't fit, or contradicts the accepted ones.
    fn refused(&self, index: u64) -> Option<&Told<'a>> {
        self.refused.iter().find(|told| told.index() == index)
    }

    /// Whether some spool has what a bad answer and accepted ones say by themselves, where one of these may be left out:
    /// they are given by their indexes. What an answer says of the numbers of a group includes that there is such a group.
    /// `None` where one of them isn't there.
    pub fn some_spool_has(
        &self,
        bad: u64,
        reasons: &[u64],
        left_out: Option<u64>,
    ) -> Result<Option<bool>, AllocError> {
        let Some(told) = self.refused(bad) else {
            return Ok(None);
        };
        let mut said = Said::new(self.alloc);
        if !self.hear_alone(told, reasons, left_out, &mut said)? {
            return Ok(None);
        }
        let is_had = match given_spool(self.alloc, self.choice, &said)? {
            Some(spool) => {
                told.is_had(self.alloc, &spool, self.choice.marks)?
                    && self.are_had(reasons, left_out, &spool)?
            }
            None => false,
        };
        Ok(Some(is_had))
    }

    /// Adds what these answers say by themselves, with their groups, and tells whether they are there.
    fn hear_alone(
        &self,
        bad: &Told<'a>,
        reasons: &[u64],
        left_out: Option<u64>,
        said: &mut Said<'a>,
    ) -> Result<bool, AllocError> {
        bad.hear_alone(said)?;
        for index in reasons {
            if left_out != Some(*index) {
                let Some(told) = self.accepted(*index) else {
                    return Ok(false);
                };
                told.hear_alone(said)?;
            }
        }
        said.add_groups()?;
        Ok(true)
    }

    /// Whether the spool has what the accepted answers of these indexes say.
    fn are_had(
        &self,
        indexes: &[u64],
        left_out: Option<u64>,
        spool: &Spool,
    ) -> Result<bool, AllocError> {
        for index in indexes {
            let is_had = match self.accepted(*index) {
                Some(told) => told.is_had(self.alloc, spool, self.choice.marks)?,
                None => false,
            };
            if left_out != Some(*index) && !is_had {
                return Ok(false);
            }
        }
        Ok(true)
    }

    /// Accepts the next exchange, or leaves it out.
    fn judge(&mut self, exchange: Exchange<'a>) -> Result<(), AllocError> {
        let index = exchange.index();
        let told = Told::new(&self.said, exchange);
        let class = match self.judged(&told)? {
            Judged::Consistent => {
                told.hear(&mut self.said)?;
                self.accepted.push(told)?;
                return Ok(());
            }
            Judged::OutOfPlace => "OutOfPlace",
            Judged::Contradiction => "Contradiction",
        };
        self.refused.push(told)?;
        self.leave_out(index, class)
    }

    /// What is said of an answer behind the accepted ones.
    fn judged(&self, told: &Told<'a>) -> Result<Judged, AllocError> {
        let mut exchanges = Vec::new(self.alloc);
        for accepted in &self.accepted {
            exchanges.push(&accepted.exchange)?;
        }
        exchanges.push(&told.exchange)?;
        let (judged, _) = judge_listed(self.alloc, self.choice, &exchanges)?;
        Ok(judged)
    }

    /// Tells that an answer is bad.
    fn leave_out(&mut self, index: u64, class: &str) -> Result<(), AllocError> {
        self.bad = self.bad.saturating_add(1);
        let line = format!(in self.alloc; "bad answer {index} {class}\n")?;
        self.lines.push_str(line.as_str())
    }

    /// Tells the last line, where there are so many answers.
    fn end(&mut self, answers: u64, client: &[u8]) -> Result<(), AllocError> {
        let bad = self.bad;
        let unanswered = count_lines(client).saturating_sub(answers.saturating_sub(1));
        let line = format!(in self.alloc;
            "end answers={answers} bad={bad} unanswered={unanswered}\n"
        )?;
        self.lines.push_str(line.as_str())
    }
}

/// How many lines the client sent.
fn count_lines(client: &[u8]) -> u64 {
    let mut count = 0u64;
    let mut before = 0;
    for octet in client {
        if before == b'\r' && *octet == b'\n' {
            count = count.saturating_add(1);
        }
        before = *octet;
    }
    count
}

//! Every session of at most three exchanges out of twelve, by lenient and by strict marks, and one of a thousand groups:
//! all judges agree, and each spool that is given is read back and permitted.
use crate::runs::expect_run;
use nntp_check::Task;
use nntp_fixtures::{check_by, checked_split, expect_octets, expect_verified, put, shown};
use nntp_run_fixtures::{check_task, verify_task, written};
use nntp_sessions::{
    CHOICES, Choice, NARROW_LENIENT, NARROW_STRICT, capture, exchanges, verified_report, with_spool,
};
use nntp_slow_judge::{Put, SlowVerdict, put_spool};
use nntp_spool::Verified;
use nntp_wire::Overviews;
use std::alloc::{AllocError, Global};
use std::test::Fail;

/// A command and its answer.
type Exchange = (&'static str, &'static str);

const EXCHANGES: [Exchange; 12] = [
    ("GROUP g\r\n", "211 2 1 5 g\r\n"),
    ("GROUP g\r\n", "411 no\r\n"),
    ("LISTGROUP g\r\n", "211 1 1 5 g\r\n3\r\n.\r\n"),
    ("NEXT\r\n", "223 4 <b@x>\r\n"),
    ("NEXT\r\n", "421 no\r\n"),
    ("LAST\r\n", "422 no\r\n"),
    ("STAT\r\n", "223 2 <a@b>\r\n"),
    ("STAT\r\n", "420 no\r\n"),
    ("STAT 1\r\n", "423 no\r\n"),
    ("HEAD <a@b>\r\n", "221 0 <a@b>\r\nSubject: s\r\n.\r\n"),
    ("BODY <w0@invented.invalid>\r\n", "430 no\r\n"),
    ("LIST\r\n", "215 l\r\ng 5 1 y\r\n.\r\n"),
];

/// What the client and the server sent, and how many answers that are.
#[derive(Drop)]
struct Recording {
    client: String,
    server: String,
    answers: usize,
}

impl Recording {
    /// A greeting.
    fn new(alloc: Global) -> Result<Recording, AllocError> {
        Ok(Recording {
            client: String::new(alloc),
            server: String::from_str(alloc, "200 hi\r\n")?,
            answers: 1,
        })
    }

    /// A greeting and these exchanges.
    fn of(alloc: Global, exchanges: &[Exchange]) -> Result<Recording, AllocError> {
        let mut recording = Recording::new(alloc)?;
        for (command, answer) in exchanges {
            recording.push(*command, *answer)?;
        }
        Ok(recording)
    }

    fn push(&mut self, command: &str, answer: &str) -> Result<(), AllocError> {
        self.client.push_str(command)?;
        self.server.push_str(answer)?;
        self.answers = self.answers.saturating_add(1);
        Ok(())
    }

    fn streams(&self) -> (&[u8], &[u8]) {
        (self.client.as_bytes(), self.server.as_bytes())
    }

    fn capture(&self, alloc: Global) -> Result<String, AllocError> {
        capture(alloc, self.client.as_str(), self.server.as_str())
    }

    /// The report of `check`, on which `Checker` agrees.
    fn checked(&self, alloc: Global, choice: Choice) -> Result<Vec<u8>, Fail> {
        let name = self.client.as_str();
        let (client, server) = self.streams();
        let report = shown(alloc, &check_by(choice, alloc, (client, server))?)?;
        for places in [(client.len() / 2, server.len() / 2), (0, server.len() / 3)] {
            let split = checked_split(alloc, choice, (client, server), places)?;
            expect_octets(name, &split, &report)?;
        }
        Ok(report)
    }

    /// The run that judges the session writes this report.
    fn check(&self, alloc: Global, choice: Choice, report: &[u8]) -> Result<(), Fail> {
        let name = self.client.as_str();
        let capture = self.capture(alloc)?;
        let answer = report.starts_with(b"consistent ");
        expect_run(
            alloc,
            name,
            check_task(choice, Overviews::Opaque),
            capture.as_str(),
            (answer, report),
        )
    }

    /// The run that shows the session finds as many answers.
    fn show(&self, alloc: Global) -> Result<(), Fail> {
        let capture = self.capture(alloc)?;
        let (answer, octets) = written(alloc, Task::Show, capture.as_bytes())?;
        let last = format!(in alloc; "\nend answers={} unanswered=0\n", self.answers)?;
        if answer && octets.ends_with(last.as_bytes()) {
            return Ok(());
        }
        let name = self.client.as_str();
        Err(Fail::new(format_args!("{name}: {}", octets.escape_ascii())))
    }

    /// The report of `check`, on which `Checker` and the runs agree.
    fn report(&self, alloc: Global, choice: Choice) -> Result<String, Fail> {
        let report = self.checked(alloc, choice)?;
        self.check(alloc, choice, &report)?;
        self.show(alloc)?;
        Ok(String::from_utf8(report)?)
    }

    /// What is answered where a spool permits it.
    fn permitted(&self) -> Verified {
        Verified::Permits {
            answers: self.answers as u64,
        }
    }

    /// The run of `verify` permits the spool of a text.
    fn verify(&self, alloc: Global, choice: Choice, text: &str) -> Result<(), Fail> {
        let name = self.client.as_str();
        let streams = self.capture(alloc)?;
        let capture = with_spool(alloc, streams.as_str(), text)?;
        let report = verified_report(alloc, self.permitted())?;
        let wanted = (true, report.as_bytes());
        let task = verify_task(choice, Overviews::Opaque);
        expect_run(alloc, name, task, capture.as_str(), wanted)
    }

    /// Reads the text of the given spool back, which has to be permitted.
    fn put_given(&self, alloc: Global, choice: Choice, text: &str) -> Result<(), Fail> {
        let name = self.client.as_str();
        let verified = put(alloc, name, choice.marks, text.as_bytes(), self.streams())?;
        expect_verified(name, verified, self.permitted())?;
        self.verify(alloc, choice, text)
    }

    /// Compares the report of `check` with what the slow judge says.
    fn judge_slowly(&self, alloc: Global, choice: Choice, report: &[u8]) -> Result<(), Fail> {
        let (client, server) = self.streams();
        let exchanges = exchanges(alloc, client, server)?;
        if exchanges.len() != self.answers {
            return Err("some octets are no answers".into());
        }
        let slow = SlowVerdict::of(alloc, choice, &exchanges)?;
        slow.expect_told(alloc, self.client.as_str(), report)
    }

    /// The slow judge permits the spool of a text.
    fn put_slowly(&self, alloc: Global, choice: Choice, text: &str) -> Result<(), Fail> {
        let put = put_spool(alloc, choice.marks, text.as_bytes(), self.streams())?;
        let wanted = Put {
            answers: self.answers as u64,
            are_all: true,
        };
        if put == Some(wanted) {
            return Ok(());
        }
        let name = self.client.as_str();
        Err(Fail::new(format_args!("{name}: {put:?}")))
    }

    /// Has all judges say the same. Returns 1 where it is consistent, and else 0.
    fn count(&self, alloc: Global, choice: Choice) -> Result<u64, Fail> {
        let report = self.report(alloc, choice)?;
        self.judge_slowly(alloc, choice, report.as_bytes())?;
        if !report.starts_with("consistent ") {
            return Ok(0);
        }
        let Some((_, text)) = report.split_once('\n') else {
            return Err("a report has no line".into());
        };
        self.put_given(alloc, choice, text)?;
        self.put_slowly(alloc, choice, text)?;
        Ok(1)
    }
}

/// Counts the session of these exchanges, if it is consistent.
fn count(alloc: Global, choice: Choice, exchanges: &[Exchange]) -> Result<u64, Fail> {
    Recording::of(alloc, exchanges)?.count(alloc, choice)
}

/// Counts the consistent sessions of these two exchanges and one more.
fn count_third(
    alloc: Global,
    choice: Choice,
    first: Exchange,
    second: Exchange,
) -> Result<u64, Fail> {
    let mut consistent = 0u64;
    for third in EXCHANGES {
        let counted = count(alloc, choice, &[first, second, third])?;
        consistent = consistent.saturating_add(counted);
    }
    Ok(consistent)
}

/// How many sessions are consistent: of at most two exchanges, and of three by what the first of them is. The tests
/// want as many as `bench/small_spools` counts, which tries each spool of one group with numbers from 1 to 5, each at
/// `<a@b>`, `<b@x>`, `<w0@invented.invalid>` or another id: `tools/test` compares the lines of both constants.
#[derive(Clone, Copy, Debug, PartialEq, Eq)]
struct Family {
    at_most_two: u64,
    /// From a GROUP or LISTGROUP on.
    from_groups: u64,
    /// From a command on that needs a selected group.
    from_steps: u64,
    /// From an id or a list of groups on.
    from_others: u64,
}

const LENIENT: Family = Family {
    at_most_two: 1 + 6 + 39,
    from_groups: 103 + 9 + 64,
    from_steps: 0,
    from_others: 39 + 39 + 34,
};

const STRICT: Family = Family {
    at_most_two: 1 + 5 + 24,
    from_groups: 45 + 9,
    from_steps: 0,
    from_others: 24 + 24 + 19,
};

/// Counts the consistent sessions of at most two exchanges.
fn count_two(alloc: Global, choice: Choice) -> Result<u64, Fail> {
    let mut consistent = count(alloc, choice, &[])?;
    for first in EXCHANGES {
        let counted = count(alloc, choice, &[first])?;
        consistent = consistent.saturating_add(counted);
        for second in EXCHANGES {
            let counted = count(alloc, choice, &[first, second])?;
            consistent = consistent.saturating_add(counted);
        }
    }
    Ok(consistent)
}

/// Counts the consistent sessions of three exchanges that begin with one of these.
fn count_three(alloc: Global, choice: Choice, first: &[Exchange]) -> Result<u64, Fail> {
    let mut consistent = 0u64;
    for first in first {
        for second in EXCHANGES {
            let counted = count_third(alloc, choice, *first, second)?;
            consistent = consistent.saturating_add(counted);
        }
    }
    Ok(consistent)
}

/// Counts the consistent sessions of the whole family.
fn count_family(alloc: Global, choice: Choice) -> Result<Family, Fail> {
    let (groups, rest) = EXCHANGES.split_at(3);
    let (steps, others) = rest.split_at(6);
    Ok(Family {
        at_most_two: count_two(alloc, choice)?,
        from_groups: count_three(alloc, choice, groups)?,
        from_steps: count_three(alloc, choice, steps)?,
        from_others: count_three(alloc, choice, others)?,
    })
}

#[test]
fn at_most_three_exchanges(rt: HostRuntime) -> Result<(), Fail> {
    let family = count_family(rt.alloc(), NARROW_LENIENT)?;
    assert_eq!(rt; family, LENIENT);
    Ok(())
}

#[test]
fn at_most_three_exchanges_with_strict_marks(rt: HostRuntime) -> Result<(), Fail> {
    let family = count_family(rt.alloc(), NARROW_STRICT)?;
    assert_eq!(rt; family, STRICT);
    Ok(())
}

#[test]
fn a_thousand_groups(rt: HostRuntime) -> Result<(), Fail> {
    let mut recording = Recording::new(rt.alloc())?;
    for number in 0..1000 {
        let command = format!(in rt.alloc(); "GROUP g{number}\r\n")?;
        let answer = format!(in rt.alloc(); "211 0 1 0 g{number}\r\n")?;
        recording.push(command.as_str(), answer.as_str())?;
    }
    let first = "consistent answers=1001 groups=1000 numbers=0 articles=0\n";
    for choice in CHOICES {
        let report = recording.report(rt.alloc(), choice)?;
        let Some(text) = report.strip_prefix(first) else {
            return Err("another first line".into());
        };
        recording.put_given(rt.alloc(), choice, text)?;
    }
    Ok(())
}

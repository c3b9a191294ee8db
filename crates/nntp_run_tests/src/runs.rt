//! Runs over captures, by readers and writers that give and take a little or fail.
use crate::tasks::{CHECK, CHECK_WIDE_AND_STRICT, EXPLAIN, VERIFY, VERIFY_STRICTLY};
use nntp_check::{Failure, RunFault, Task, run_task, status};
use nntp_sessions::{
    FakeWriter, Full, capture, cut_reader, endless_reader, reader, with_spool, writer,
};
use std::alloc::{AllocError, Global};
use std::process::Abort;
use std::test::Fail;

/// A run by name: its task, its input, which read of it fails, counted from 1, how many octets it may have, and what the
/// run answers and writes.
#[derive(Clone, Copy)]
pub(crate) struct Run<'a> {
    pub(crate) name: &'a str,
    pub(crate) task: Task,
    pub(crate) input: &'a [u8],
    /// No read fails where it is 0.
    pub(crate) fails_at: u64,
    pub(crate) most: u64,
    pub(crate) answer: Result<bool, RunFault>,
    pub(crate) report: &'a [u8],
}

impl<'a> Run<'a> {
    /// The run of a task over an input that no limit stops.
    pub(crate) fn of(
        name: &'a str,
        task: Task,
        input: &'a [u8],
        answer: bool,
        report: &'a [u8],
    ) -> Run<'a> {
        Run {
            name,
            task,
            input,
            fails_at: 0,
            most: 1 << 30,
            answer: Ok(answer),
            report,
        }
    }

    /// The run of a task over an input with a fault, of which this read fails. It writes nothing.
    fn of_fault(task: Task, input: &'a [u8], fails_at: u64, most: u64, fault: RunFault) -> Run<'a> {
        Run {
            name: "a fault",
            task,
            input,
            fails_at,
            most,
            answer: Err(fault),
            report: b"",
        }
    }

    /// The same run, where a fault stops it behind this front of the report.
    pub(crate) fn stopped(&self, fault: RunFault, front: &'a [u8]) -> Run<'a> {
        Run {
            answer: Err(fault),
            report: front,
            ..*self
        }
    }

    /// Expects the run to have ended as it should, with so many flushes. A failure tells this place.
    pub(crate) fn expect_end(
        &self,
        rt: &impl Abort,
        place: u64,
        outcome: Result<bool, RunFault>,
        written: &FakeWriter,
        flushes: u64,
    ) {
        let Run { name, task, .. } = *self;
        assert_eq!(rt;
            (outcome, written.held.as_slice(), written.flushes),
            (self.answer, self.report, flushes),
            "{name}, {task:?}, at {place}"
        );
        let code = match outcome {
            Ok(true) => 0,
            Ok(false) => 1,
            Err(_) => 3,
        };
        assert_eq!(rt; status(&outcome.map_err(Failure::Run)), code, "{name}");
    }

    /// The run ends as it should, with so many octets at a read and at a write.
    pub(crate) fn pass(&self, rt: &impl Abort, alloc: Global, octets: usize) {
        self.pass_full(rt, alloc, (octets, octets), Full::Fails);
    }

    /// The run ends as it should, with a writer that is full behind the report. The reader fails exactly where the run
    /// answers so, and so does the writer. No read follows one that fails.
    pub(crate) fn pass_full(
        &self,
        rt: &impl Abort,
        alloc: Global,
        (at_a_read, at_a_write): (usize, usize),
        full: Full,
    ) {
        let mut input = reader(self.input, at_a_read, self.fails_at);
        let mut output = writer(alloc, self.report.len(), at_a_write, full);
        let outcome = run_task(alloc, self.task, &mut input, &mut output, self.most);
        let Run { name, answer, .. } = *self;
        let failed = (input.failed(), output.failed());
        let reads = input.into_inner().reads;
        let wanted = (
            answer == Err(RunFault::Read),
            answer == Err(RunFault::Write),
        );
        assert_eq!(rt; failed, wanted, "{name}, at {}", self.report.len());
        assert!(rt;
            !wanted.0 || reads == self.fails_at,
            "{name}, {reads} reads"
        );
        let flushes = u64::from(answer.is_ok() || full == Full::FailsToFlush);
        self.expect_end(rt, reads, outcome, &output.into_inner(), flushes);
    }
}

/// A session of two commands, in two pieces.
pub(crate) const CAPTURE: &[u8] =
    b"client 15\nGROUP g\r\nQUIT\r\nserver 30\n200 hi\r\n211 0 1 0 g\r\n205 bye\r\n";

pub(crate) const REPORT: &[u8] =
    b"consistent answers=3 groups=1 numbers=0 articles=0\nspool 1\ngroup g 0\nend\n";

/// Tasks, each with a capture of this session and the report on it.
const REPORTS: [(Task, &[u8], &[u8]); 6] = [
    (CHECK, CAPTURE, REPORT),
    (
        CHECK_WIDE_AND_STRICT,
        CAPTURE,
        b"consistent answers=3 groups=1 numbers=0 articles=0\nspool 2\nlimit 9999999999999999\ngroup g 0\nend\n",
    ),
    (
        VERIFY,
        b"client 15\nGROUP g\r\nQUIT\r\nserver 30\n200 hi\r\n211 0 1 0 g\r\n205 bye\r\nspool 22\nspool 1\ngroup g 0\nend\n",
        b"permits answers=3\n",
    ),
    (
        VERIFY_STRICTLY,
        b"client 15\nGROUP g\r\nQUIT\r\nserver 30\n200 hi\r\n211 0 1 0 g\r\n205 bye\r\nspool 45\nspool 2\nlimit 9999999999999999\ngroup g 0\nend\n",
        b"permits answers=3\n",
    ),
    (
        Task::Show,
        CAPTURE,
        b"0 greeting -> 200 hi\n1 GROUP g -> 211 0 1 0 g\n  group g\n2 QUIT -> 205 bye\nend answers=3 unanswered=0\n",
    ),
    (EXPLAIN, CAPTURE, b"end answers=3 bad=0 unanswered=0\n"),
];

const TASKS: [Task; 6] = [
    CHECK,
    CHECK_WIDE_AND_STRICT,
    VERIFY,
    VERIFY_STRICTLY,
    Task::Show,
    EXPLAIN,
];

#[test]
fn report_of_a_capture(rt: HostRuntime) {
    for (task, capture, report) in REPORTS {
        let run = Run {
            most: capture.len() as u64,
            ..Run::of("a capture", task, capture, true, report)
        };
        for octets in [1, 7, 4096] {
            run.pass(&rt, rt.alloc(), octets);
        }
    }
}

/// Captures of this session in more pieces.
const PIECES: [&[u8]; 3] = [
    b"client 9\nGROUP g\r\nserver 30\n200 hi\r\n211 0 1 0 g\r\n205 bye\r\nclient 6\nQUIT\r\n",
    b"client 0\nclient 15\nGROUP g\r\nQUIT\r\nspool 3\nxyzserver 0000000030\n200 hi\r\n211 0 1 0 g\r\n205 bye\r\n",
    b"server 1\n2server 29\n00 hi\r\n211 0 1 0 g\r\n205 bye\r\nclient 15\nGROUP g\r\nQUIT\r\n",
];

#[test]
fn pieces_of_one_stream_are_joined(rt: HostRuntime) {
    for capture in PIECES {
        Run::of("pieces", CHECK, capture, true, REPORT).pass(&rt, rt.alloc(), 4096);
    }
}

/// Octets that are no capture, or more than may be read; which read fails, if each gives one octet; how many may be read,
/// and the fault.
const FAULTS: [(&[u8], u64, u64, RunFault); 29] = [
    (CAPTURE, 0, 10, RunFault::TooLong),
    (CAPTURE, 0, 64, RunFault::TooLong),
    (b"z", 0, 0, RunFault::TooLong),
    (b"client 0\nz", 0, 9, RunFault::TooLong),
    (b"client 0\nz", 0, 10, RunFault::Capture { piece: 2 }),
    (b"client 0\nzz", 0, 10, RunFault::Capture { piece: 2 }),
    (b"spoon 0\n", 0, 100, RunFault::Capture { piece: 1 }),
    (b"clientserver 0\n", 0, 100, RunFault::Capture { piece: 1 }),
    (
        b"server 12345678901\n",
        0,
        100,
        RunFault::Capture { piece: 1 },
    ),
    (
        b"client 0\nclient 0\nclient 5\nQUIT",
        0,
        100,
        RunFault::Capture { piece: 3 },
    ),
    (b"client 5\nQUIT", 0, 100, RunFault::Capture { piece: 1 }),
    (b"x", 0, 100, RunFault::Capture { piece: 1 }),
    (b"client", 0, 100, RunFault::Capture { piece: 1 }),
    (b"client \n", 0, 100, RunFault::Capture { piece: 1 }),
    (b"client  1\nx", 0, 100, RunFault::Capture { piece: 1 }),
    (b"Client 0\n", 0, 100, RunFault::Capture { piece: 1 }),
    (
        b"client 00000000000\n",
        0,
        100,
        RunFault::Capture { piece: 1 },
    ),
    (b"client 1\r\nx", 0, 100, RunFault::Capture { piece: 1 }),
    (
        b"client 0\nserver 01\nxspool\n",
        0,
        100,
        RunFault::Capture { piece: 3 },
    ),
    // The first fault is told, and nothing is read behind it.
    (b"z", 1, 100, RunFault::Read),
    (b"z", 2, 100, RunFault::Capture { piece: 1 }),
    (b"z", 2, 0, RunFault::TooLong),
    (b"client 0\nz", 10, 100, RunFault::Read),
    (b"client 0\nz", 11, 100, RunFault::Capture { piece: 2 }),
    (b"client 0\nzz", 11, 100, RunFault::Capture { piece: 2 }),
    (b"client 0\nz", 11, 9, RunFault::TooLong),
    (b"client 0\nzz", 11, 9, RunFault::TooLong),
    (b"client 0\nz", 10, 9, RunFault::Read),
    (b"client 0\nclient", 16, 100, RunFault::Read),
];

#[test]
fn faults_of_captures(rt: HostRuntime) {
    for (octets, fails_at, most, fault) in FAULTS {
        for task in TASKS {
            let run = Run::of_fault(task, octets, fails_at, most, fault);
            run.pass(&rt, rt.alloc(), 1);
            if fails_at == 0 {
                run.pass(&rt, rt.alloc(), 4096);
            }
        }
    }
}

/// Tasks, and the report of each on the long session.
const LONG: [(Task, &[u8]); 4] = [
    (
        CHECK,
        b"consistent answers=2 groups=0 numbers=0 articles=0\nspool 1\nend\n",
    ),
    (VERIFY, b"permits answers=2\n"),
    (
        Task::Show,
        b"0 greeting -> 200 hi\n1 HELP -> 100 help\nend answers=2 unanswered=0\n",
    ),
    (EXPLAIN, b"end answers=2 bad=0 unanswered=0\n"),
];

/// A capture of an answer with more than 2^20 octets, and of a spool.
fn capture_of_a_long_block(alloc: Global) -> Result<String, AllocError> {
    let mut server = String::from_str(alloc, "200 hi\r\n100 help\r\n")?;
    for _ in 0..1 << 17 {
        server.push_str("a line\r\n")?;
    }
    server.push_str(".\r\n")?;
    let capture = capture(alloc, "HELP\r\n", server.as_str())?;
    with_spool(alloc, capture.as_str(), "spool 1\nend\n")
}

#[test]
fn more_than_a_million_octets(rt: HostRuntime) -> Result<(), Fail> {
    let capture = capture_of_a_long_block(rt.alloc())?;
    for (task, report) in LONG {
        let run = Run::of("a long block", task, capture.as_bytes(), true, report);
        run.pass(&rt, rt.alloc(), 4096);
    }
    Ok(())
}

/// Fronts of inputs, and the octet of which all the rest is.
const ENDLESS: [(&[u8], u8, RunFault); 3] = [
    (b"client 9999999999\n", b'x', RunFault::TooLong),
    (b"spool 0\nserver 9999999999\n", b'\n', RunFault::TooLong),
    (b"", b'z', RunFault::Capture { piece: 1 }),
];

#[test]
fn inputs_without_end(rt: HostRuntime) {
    for (front, octet, fault) in ENDLESS {
        for task in TASKS {
            let run = Run::of_fault(task, front, 0, 1000, fault);
            let mut input = endless_reader(front, octet);
            let mut output = writer(rt.alloc(), 1000, 1000, Full::Fails);
            let outcome = run_task(rt.alloc(), task, &mut input, &mut output, run.most);
            run.expect_end(&rt, 0, outcome, &output.into_inner(), 0);
        }
    }
}

/// A capture of a session with a dot line and a line of 512 octets, in pieces of both streams and of a spool.
fn long_capture(alloc: Global) -> Result<Vec<u8>, AllocError> {
    let mut capture = Vec::from_slice(
        alloc,
        b"client 17\nGROUP g\r\nHEAD 1\r\nserver 54\n200 hi\r\n211 1 1 1 g\r\n221 1 <a@b>\r\n..X: a\r\nControl: b\r\n",
    )?;
    capture.extend_from_slice(b"client 512\n")?;
    for _ in 0..510 {
        capture.push(b'X')?;
    }
    capture.extend_from_slice(
        b"\r\nspool 0000000032\nspool 1\ngroup g 1\n1 <a@b>\narticlserver 18\n.\r\n500 no\r\n205 bye",
    )?;
    capture.extend_from_slice(
        b"spool 35\ne <a@b> 2 0\n|.X: a\n|Control: b\nend\nserver 2\n\r\nclient 6\nQUIT\r\n",
    )?;
    Ok(capture)
}

impl Run<'_> {
    /// The run ends as it should where two reads give the capture, cut at each octet.
    pub(crate) fn cut_everywhere(&self, rt: &impl Abort, alloc: Global) {
        for at in 1..self.input.len() {
            let mut input = cut_reader(self.input, at);
            let mut output = writer(alloc, 10000, 10000, Full::Fails);
            let outcome = run_task(alloc, self.task, &mut input, &mut output, self.most);
            self.expect_end(rt, at as u64, outcome, &output.into_inner(), 1);
        }
    }
}

/// A run over the long capture, cut at each octet, ends as one that reads it at once.
fn cut_long_capture(rt: &impl Abort, alloc: Global, task: Task, capture: &[u8]) {
    let mut input = reader(capture, capture.len(), 0);
    let mut output = writer(alloc, 10000, 10000, Full::Fails);
    let whole = run_task(alloc, task, &mut input, &mut output, 1 << 30);
    assert_eq!(rt; whole, Ok(true), "{task:?}");
    let report = output.into_inner().held;
    Run::of("the long capture", task, capture, true, &report).cut_everywhere(rt, alloc);
}

#[test]
fn captures_cut_at_every_octet(rt: HostRuntime) -> Result<(), Fail> {
    let capture = long_capture(rt.alloc())?;
    for task in TASKS {
        cut_long_capture(&rt, rt.alloc(), task, &capture);
    }
    Ok(())
}

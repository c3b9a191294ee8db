//! Want of memory in a run: nothing is written, and the exit status is 3.
use crate::explanations::POINTS;
use crate::runs::{CAPTURE, REPORT, Run};
use crate::tasks::{CHECK, VERIFY};
use crate::trials::Trial;
use nntp_check::{Failure, Kind, ReadFault, RunFault, Task, run_task, status};
use nntp_little_memory::{
    Ended, Fault, give_each, give_rest_each, refuse_each, refuse_rest_each, right_if,
};
use nntp_sessions::{FakeWriter, Full, capture, reader, with_spool, writer};
use std::alloc::{Allocator, Global};
use std::process::Abort;
use std::test::Fail;

impl Run<'_> {
    /// How it ended, by the outcome and what was written.
    fn ended(&self, outcome: Result<bool, RunFault>, written: &FakeWriter) -> Ended {
        if outcome != Err(RunFault::Memory) {
            return right_if(outcome == self.answer && written.held.as_slice() == self.report);
        }
        let is_untouched = written.held.is_empty() && written.flushes == 0;
        if is_untouched && status(&outcome.map_err(Failure::Run)) == 3 {
            Ended::Memory
        } else {
            Ended::Wrong
        }
    }

    /// Runs with a few octets at a read. That a read failed is told exactly where one did: behind want of memory none is
    /// made.
    fn end<A: Allocator + Copy>(&self, alloc: Global, heap: A) -> Ended {
        let mut input = reader(self.input, 7, self.fails_at);
        let mut output = writer(alloc, 10000, 10000, Full::Fails);
        let outcome = run_task(heap, self.task, &mut input, &mut output, self.most);
        if input.failed() != (outcome == Err(RunFault::Read)) {
            return Ended::Wrong;
        }
        self.ended(outcome, &output.into_inner())
    }
}

/// Refuses each request of a run that makes some, alone and with all later ones. A run of `verify` may go on where one
/// alone was refused, since its arena asks for less then. Returns how many there are.
pub(crate) fn refuse_run<'a>(
    rt: &impl Abort,
    alloc: Global,
    run: &Run<'a>,
) -> Result<u64, Fault<'a>> {
    let refused = match run.task {
        Task::Verify { .. } => refuse_rest_each(alloc, run.name, |heap| run.end(alloc, heap))?,
        _ => refuse_each(alloc, run.name, |heap| run.end(alloc, heap))?,
    };
    assert!(rt; refused > 0, "{refused}");
    Ok(refused)
}

/// Gives a run a few octets of memory, and then more.
pub(crate) fn give_run<'a>(rt: &impl Abort, alloc: Global, run: &Run<'a>) -> Result<(), Fault<'a>> {
    let enough = match run.task {
        Task::Verify { .. } => give_rest_each(alloc, run.name, |heap| run.end(alloc, heap))?,
        _ => give_each(alloc, run.name, |heap| run.end(alloc, heap))?,
    };
    assert!(rt; enough > 16, "{enough}");
    Ok(())
}

/// Runs over captures, of which some have a fault.
const RUNS: [Run<'static>; 7] = [
    Run {
        name: "a session of two commands",
        task: CHECK,
        input: CAPTURE,
        fails_at: 0,
        most: 1 << 30,
        answer: Ok(true),
        report: REPORT,
    },
    Run {
        name: "a piece that is cut",
        task: CHECK,
        input: b"client 5\nQUIT",
        fails_at: 0,
        most: 1 << 30,
        answer: Err(RunFault::Capture { piece: 1 }),
        report: b"",
    },
    Run {
        name: "a piece that is bad behind octets of both streams",
        task: Task::Show,
        input: b"client 6\nHELP\r\nserver 8\n200 hi\r\nz",
        fails_at: 0,
        most: 1 << 30,
        answer: Err(RunFault::Capture { piece: 3 }),
        report: b"",
    },
    Run {
        name: "a piece that is bad behind a spool",
        task: VERIFY,
        input: b"client 6\nHELP\r\nspool 8\nspool 1\nz",
        fails_at: 0,
        most: 1 << 30,
        answer: Err(RunFault::Capture { piece: 3 }),
        report: b"",
    },
    Run {
        name: "more octets than may be read",
        task: CHECK,
        input: CAPTURE,
        fails_at: 0,
        most: 20,
        answer: Err(RunFault::TooLong),
        report: b"",
    },
    Run {
        name: "a read that fails behind octets of both streams",
        task: CHECK,
        input: CAPTURE,
        fails_at: 9,
        most: 1 << 30,
        answer: Err(RunFault::Read),
        report: b"",
    },
    Run {
        name: "a read that fails behind a spool",
        task: VERIFY,
        input: b"client 6\nHELP\r\nspool 8\nspool 1\nserver 0\n",
        fails_at: 6,
        most: 1 << 30,
        answer: Err(RunFault::Read),
        report: b"",
    },
];

#[test]
fn runs_over_captures(rt: HostRuntime) -> Result<(), Fail> {
    for run in RUNS {
        let refused = refuse_run(&rt, rt.alloc(), &run)?;
        assert!(rt; refused > 3 || run.answer != Ok(true), "{refused}");
    }
    Ok(())
}

#[test]
fn runs_over_a_text_of_no_spool(rt: HostRuntime) -> Result<(), Fail> {
    let session = capture(rt.alloc(), "QUIT\r\n", "200 hi\r\n205 bye\r\n")?;
    let capture = with_spool(rt.alloc(), session.as_str(), "spool 1\ngroup a,b 0\nend\n")?;
    let fault = RunFault::Spool(ReadFault {
        line: 2,
        kind: Kind::Name,
    });
    let name = "a text of no spool";
    let run = Run::of(name, VERIFY, capture.as_bytes(), false, b"").stopped(fault, b"");
    refuse_run(&rt, rt.alloc(), &run)?;
    Ok(())
}

#[test]
fn runs_over_worked_sessions(rt: HostRuntime) -> Result<(), Fail> {
    Ok(Trial::RefuseMemory.sessions(&rt, rt.alloc())?)
}

#[test]
fn runs_that_show_sessions(rt: HostRuntime) -> Result<(), Fail> {
    Ok(Trial::RefuseMemory.shown(&rt, rt.alloc())?)
}

#[test]
fn runs_that_explain_sessions(rt: HostRuntime) -> Result<(), Fail> {
    Ok(Trial::RefuseMemory.explained(&rt, rt.alloc())?)
}

#[test]
fn runs_over_several_sessions(rt: HostRuntime) -> Result<(), Fail> {
    Ok(Trial::RefuseMemory.several(&rt, rt.alloc())?)
}

#[test]
fn runs_over_overviews(rt: HostRuntime) -> Result<(), Fail> {
    Ok(Trial::RefuseMemory.overviews(&rt, rt.alloc())?)
}

#[test]
fn runs_that_explain_each_kind_of_point(rt: HostRuntime) -> Result<(), Fail> {
    Ok(Trial::RefuseMemory.reports(&rt, rt.alloc(), POINTS)?)
}

#[test]
fn runs_with_few_octets(rt: HostRuntime) -> Result<(), Fail> {
    Ok(Trial::GiveMemory.sessions(&rt, rt.alloc())?)
}

//! Readers and writers that fail, or give and take one octet, in runs over worked sessions.
use crate::runs::Run;
use crate::trials::Trial;
use nntp_check::RunFault;
use nntp_sessions::Full;
use std::alloc::Global;
use std::process::Abort;
use std::test::Fail;

impl Run<'_> {
    /// Each read fails in turn, and at last one that is not made.
    pub(crate) fn fail_reads(&self, rt: &impl Abort, alloc: Global) {
        // One read for each three octets or fewer, and one that finds the end.
        let reads = (self.input.len().div_ceil(3) as u64).saturating_add(1);
        let stopped = self.stopped(RunFault::Read, b"");
        for fails_at in 1..=reads {
            Run {
                fails_at,
                ..stopped
            }
            .pass(rt, alloc, 3);
        }
        let fails_at = reads.saturating_add(1);
        Run { fails_at, ..*self }.pass(rt, alloc, 3);
    }

    /// The writer is full behind each octet but the last.
    pub(crate) fn fail_writes(&self, rt: &impl Abort, alloc: Global, full: Full) {
        for room in 0..self.report.len() {
            let (front, _) = self.report.split_at(room);
            let stopped = self.stopped(RunFault::Write, front);
            stopped.pass_full(rt, alloc, (4096, 5), full);
        }
    }

    /// The writer takes all, and then its flush fails.
    pub(crate) fn fail_flush(&self, rt: &impl Abort, alloc: Global) {
        let stopped = self.stopped(RunFault::Write, self.report);
        stopped.pass_full(rt, alloc, (4096, 4096), Full::FailsToFlush);
    }
}

#[test]
fn one_octet_for_each_read_and_write(rt: HostRuntime) -> Result<(), Fail> {
    Ok(Trial::Pass(1).all(&rt, rt.alloc())?)
}

#[test]
fn failing_reads_leave_nothing_written(rt: HostRuntime) -> Result<(), Fail> {
    Ok(Trial::FailReads.all(&rt, rt.alloc())?)
}

#[test]
fn failing_writes_leave_a_front_of_the_report(rt: HostRuntime) -> Result<(), Fail> {
    Ok(Trial::FailWrites(Full::Fails).all(&rt, rt.alloc())?)
}

#[test]
fn writes_that_take_none_leave_a_front_of_the_report(rt: HostRuntime) -> Result<(), Fail> {
    Ok(Trial::FailWrites(Full::TakesNone).all(&rt, rt.alloc())?)
}

#[test]
fn a_flush_that_fails(rt: HostRuntime) -> Result<(), Fail> {
    Ok(Trial::FailFlush.all(&rt, rt.alloc())?)
}

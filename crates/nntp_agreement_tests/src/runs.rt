//! What runs answer and write.
use nntp_check::Task;
use nntp_fixtures::expect_octets;
use nntp_run_fixtures::written;
use std::alloc::Global;
use std::test::Fail;

/// The run of a task over a capture answers and writes this.
pub(crate) fn expect_run(
    alloc: Global,
    name: &str,
    task: Task,
    capture: &str,
    (answer, report): (bool, &[u8]),
) -> Result<(), Fail> {
    let (answered, octets) = written(alloc, task, capture.as_bytes())?;
    if answered != answer {
        return Err(Fail::new(format_args!("{name}: the run answers {answered}")));
    }
    expect_octets(name, &octets, report)
}

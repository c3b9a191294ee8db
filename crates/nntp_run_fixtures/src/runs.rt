//! What a run writes.
use nntp_check::{RunFault, Task, run_task};
use nntp_sessions::{Full, reader, writer};
use std::alloc::Global;

/// What the run of a task over a capture answers and writes, by a reader that gives 4096 octets at a read and a writer
/// that takes as many.
///
/// # Errors
///
/// The fault of the run.
pub fn written(alloc: Global, task: Task, capture: &[u8]) -> Result<(bool, Vec<u8>), RunFault> {
    let mut input = reader(capture, 4096, 0);
    let mut output = writer(alloc, 1 << 20, 4096, Full::Fails);
    let answer = run_task(alloc, task, &mut input, &mut output, 1 << 30)?;
    Ok((answer, output.into_inner().held))
}

//! Numbers of a group that are denied.
use std::alloc::AllocError;

/// That a group has none of the numbers from the first to the last.
#[derive(Clone, Copy)]
pub(crate) struct Denied<'a> {
    pub(crate) group: &'a [u8],
    pub(crate) first: u64,
    pub(crate) last: u64,
}

/// Denies the numbers outside two marks; all of them where both are 0.
pub(crate) fn outside<'a>(
    denied: &mut Vec<Denied<'a>>,
    group: &'a [u8],
    low: u64,
    high: u64,
) -> Result<(), AllocError> {
    denied.push(Denied {
        group,
        first: 0,
        last: low.saturating_sub(1),
    })?;
    denied.push(Denied {
        group,
        first: high.saturating_add(1),
        last: u64::MAX,
    })?;
    Ok(())
}

/// Denies the numbers of a range that a list leaves out.
pub(crate) fn gaps<'a>(
    denied: &mut Vec<Denied<'a>>,
    group: &'a [u8],
    (first, last): (u64, u64),
    listed: &[u64],
) -> Result<(), AllocError> {
    let mut from = first;
    for number in listed {
        if from < *number {
            denied.push(Denied {
                group,
                first: from,
                last: number.saturating_sub(1),
            })?;
        }
        from = number.saturating_add(1);
    }
    if from <= last {
        denied.push(Denied {
            group,
            first: from,
            last,
        })?;
    }
    Ok(())
}

/// The least number from 1 on that nothing denies the group.
pub(crate) fn least_free(denied: &[Denied<'_>], group: &[u8]) -> u64 {
    let mut least = 1u64;
    for _ in denied {
        for range in denied {
            if range.group == group && range.first <= least && least <= range.last {
                least = range.last.saturating_add(1);
            }
        }
    }
    least
}

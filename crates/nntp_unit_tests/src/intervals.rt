//! Tables of what is inserted, and what the set then answers.
use nntp_intervals::IntervalSet;
use std::alloc::{AllocError, Global};

const MAX: u64 = u64::MAX;

/// The intervals that are inserted, and which of `NUMBERS` the set then contains.
type Row = (&'static [(u64, u64)], &'static [u64]);

const NUMBERS: &[u64] = &[0, 1, 2, 3, 4, 5, 6, 7, 8, 9, 10, MAX - 1, MAX];

const ROWS: &[Row] = &[
    (&[], &[]),
    (&[(3, 5)], &[3, 4, 5]),
    (&[(5, 3)], &[]),
    (&[(3, 5), (6, 8)], &[3, 4, 5, 6, 7, 8]),
    (&[(6, 8), (3, 5)], &[3, 4, 5, 6, 7, 8]),
    (&[(3, 5), (7, 8)], &[3, 4, 5, 7, 8]),
    (&[(3, 9), (4, 5)], &[3, 4, 5, 6, 7, 8, 9]),
    (&[(4, 5), (3, 9)], &[3, 4, 5, 6, 7, 8, 9]),
    (
        &[(1, 1), (3, 3), (5, 5), (7, 7), (2, 6)],
        &[1, 2, 3, 4, 5, 6, 7],
    ),
    (
        &[(1, 1), (3, 3), (5, 5), (9, 9), (3, 6)],
        &[1, 3, 4, 5, 6, 9],
    ),
    (&[(0, 0), (MAX, MAX)], &[0, MAX]),
    (
        &[(6, MAX), (0, 4)],
        &[0, 1, 2, 3, 4, 6, 7, 8, 9, 10, MAX - 1, MAX],
    ),
    (
        &[(9, MAX), (6, MAX), (5, 5)],
        &[5, 6, 7, 8, 9, 10, MAX - 1, MAX],
    ),
    (&[(0, 7), (3, MAX)], NUMBERS),
];

fn set_of(alloc: Global, intervals: &[(u64, u64)]) -> Result<IntervalSet<Global>, AllocError> {
    let mut set = IntervalSet::new(alloc);
    for &(first, last) in intervals {
        set.insert(first, last)?;
    }
    Ok(set)
}

#[test]
fn inserted_numbers_are_contained(rt: HostRuntime) -> Result<(), AllocError> {
    for &(inserted, held) in ROWS {
        let set = set_of(rt.alloc(), inserted)?;
        for n in NUMBERS {
            assert!(rt; set.contains(*n) == held.contains(n), "{n}");
        }
    }
    Ok(())
}

/// A number, and the least number from there on that isn't among 0 to 2, 4, and 6 and above.
const FREE: &[(u64, Option<u64>)] = &[
    (0, Some(3)),
    (2, Some(3)),
    (3, Some(3)),
    (4, Some(5)),
    (5, Some(5)),
    (6, None),
    (MAX, None),
];

#[test]
fn free_numbers_are_found(rt: HostRuntime) -> Result<(), AllocError> {
    let set = set_of(rt.alloc(), &[(0, 2), (4, 4), (6, MAX)])?;
    for &(from, free) in FREE {
        assert!(rt; set.least_free_from(from) == free, "{from}");
    }
    Ok(())
}

/// An interval, and whether it has one of the numbers 3 to 5, and 9 and above.
const MET: &[(u64, u64, bool)] = &[
    (0, 2, false),
    (0, 3, true),
    (4, 4, true),
    (5, 8, true),
    (6, 8, false),
    (8, 6, false),
    (6, MAX, true),
    (5, 3, false),
];

#[test]
fn ranges_meet_the_set(rt: HostRuntime) -> Result<(), AllocError> {
    let set = set_of(rt.alloc(), &[(3, 5), (9, MAX)])?;
    for &(first, last, meets) in MET {
        assert!(rt; set.meets(first, last) == meets, "{first} to {last}");
    }
    Ok(())
}

//! Which requests are refused, and what that leaves behind.
use nntp_refusing::{Refusal, Refusing};
use std::process::Abort;
use std::test::Fail;

#[test]
fn requests_that_are_refused(rt: HostRuntime) {
    const ROWS: &[(Refusal, [bool; 5])] = &[
        (Refusal::Never, [false; 5]),
        (Refusal::One(0), [false; 5]),
        (Refusal::One(1), [true, false, false, false, false]),
        (Refusal::One(3), [false, false, true, false, false]),
        (Refusal::One(6), [false; 5]),
        (Refusal::From(1), [true; 5]),
        (Refusal::From(3), [false, false, true, true, true]),
        (Refusal::From(6), [false; 5]),
        (Refusal::EverySecond, [false, true, false, true, false]),
    ];
    for &(refusal, refused) in ROWS {
        let heap = Refusing::new(rt.alloc(), refusal);
        let mut has_refused = false;
        for is_refused in refused {
            let outcome = Vec::from_slice(&heap, b"octets");
            has_refused = has_refused || is_refused;
            assert!(rt; outcome.is_err() == is_refused, "{refusal:?}");
            assert!(rt; heap.has_refused() == has_refused, "{refusal:?}");
        }
        assert!(rt; heap.requests() == 5, "{refusal:?}");
    }
}

#[test]
fn refused_growth_leaves_the_vector(rt: HostRuntime) -> Result<(), Fail> {
    let heap = Refusing::new(rt.alloc(), Refusal::One(2));
    let mut octets = Vec::from_slice(&heap, b"abc")?;
    assert!(rt; octets.extend_from_slice(b"0123456789").is_err());
    assert!(rt; octets.as_slice() == b"abc".as_slice());
    octets.extend_from_slice(b"0123456789")?;
    assert!(rt; octets.as_slice() == b"abc0123456789".as_slice());
    assert!(rt; heap.requests() == 3);
    Ok(())
}

#[test]
fn only_requests_for_memory_count(rt: HostRuntime) -> Result<(), Fail> {
    let heap = Refusing::new(rt.alloc(), Refusal::One(3));
    let mut lines = Vec::with_capacity(&heap, 2)?;
    lines.push(Vec::from_slice(&heap, b"kept")?)?;
    drop(lines);
    assert!(rt; heap.requests() == 2);
    assert!(rt; !heap.has_refused());
    assert!(rt; Vec::from_slice(&heap, b"refused").is_err());
    assert!(rt; heap.has_refused());
    Ok(())
}

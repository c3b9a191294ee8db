//! Sessions that are noted by lenient and by strict marks: which answer is the first that is bad, or what is known
//! of the groups.
use nntp_fixtures::{
    Stop, Whole, bad_of, beginning, check_by, expect_front, expect_octets, group_lines, note_all,
    shown,
};
use nntp_pair::Class;
use nntp_sessions::{Choice, NARROW_LENIENT, NARROW_STRICT, Outcome, Row, each_row};
use std::alloc::Global;
use std::test::Fail;

/// How many answers are right, and the class of the one behind them, if that is bad; and else what is known of the groups.
type Noted = ((u64, Option<Class>), String);

/// How the noting of a session ended of which all exchanges were noted.
fn noted_whole(alloc: Global, whole: &Whole<Global>) -> Result<Noted, Fail> {
    let lines = group_lines(alloc, &whole.facts)?;
    Ok(((whole.answers, whole.class), lines))
}

/// How the noting of a session ends.
fn noted(alloc: Global, choice: Choice, (client, server): (&[u8], &[u8])) -> Result<Noted, Fail> {
    match note_all(alloc, choice.limit, choice.marks, client, server) {
        Ok(whole) => noted_whole(alloc, &whole),
        Err(Stop::Bad { answer, class }) => Ok(((answer, Some(class)), String::new(alloc))),
        Err(_) => Err("memory was refused".into()),
    }
}

/// Notes the session, which has to end so.
fn note(alloc: Global, row: &Row, choice: Choice, wanted: Outcome) -> Result<(), Fail> {
    let Row { name, .. } = *row;
    let (bad, lines) = noted(alloc, choice, row.streams())?;
    if bad != bad_of(wanted) {
        return Err(Fail::new(format_args!("{name}, {choice:?}: {bad:?}")));
    }
    match wanted {
        Outcome::Consistent(_, wanted) => expect_octets(name, lines.as_bytes(), wanted.as_bytes()),
        _ => Ok(()),
    }
}

/// Judges the session, which has to end so.
fn judge(alloc: Global, row: &Row, choice: Choice, wanted: Outcome) -> Result<(), Fail> {
    let (answer, class) = bad_of(wanted);
    let first = beginning(alloc, answer, class)?;
    let report = shown(alloc, &check_by(choice, alloc, row.streams())?)?;
    expect_front(row.name, &report, first.as_str())
}

#[test]
fn lenient_and_strict_marks(rt: HostRuntime) -> Result<(), Fail> {
    for row in each_row(rt.alloc())? {
        for (choice, outcome) in [(NARROW_LENIENT, row.lenient), (NARROW_STRICT, row.strict)] {
            note(rt.alloc(), row, choice, outcome)?;
            judge(rt.alloc(), row, choice, outcome)?;
        }
    }
    Ok(())
}

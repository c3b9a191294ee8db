//! What the session shows of its state, and what is known of the current article.
use crate::example::session::{CLIENT, NAME, SERVER, next};
use nntp_article::{Profile, Visible};
use nntp_facts::Position;
use nntp_pair::{Exchange, Pairs};
use nntp_wire::{Limit, Marks};
use std::alloc::AllocError;
use std::process::Abort;
use std::test::Fail;

/// The selected group, the greatest low mark of `misc.test`, whether the connection is closed, and the position.
type State = (Option<&'static [u8]>, Option<u64>, bool, Position);

/// Behind each answer.
const STATES: [State; 6] = [
    (None, None, false, Position::Nowhere),
    (Some(NAME), Some(1), false, Position::First),
    (Some(NAME), Some(1), false, Position::Known(2)),
    (Some(NAME), Some(1), false, Position::Known(2)),
    (Some(NAME), Some(1), false, Position::Known(2)),
    (Some(NAME), Some(1), true, Position::Known(2)),
];

/// Whether this is the state.
fn is_state(visible: &Visible, position: Position, (selected, low, is_closed, at): State) -> bool {
    visible.selected() == selected
        && visible.low(NAME) == low
        && visible.is_closed() == is_closed
        && position == at
}

/// Goes on to the state behind the answer, which fits.
fn go_on(
    rt: &impl Abort,
    visible: &mut Visible,
    position: Position,
    exchange: &Exchange<'_>,
) -> Result<Position, AllocError> {
    let profile = Profile::of(Limit::Narrow, Marks::Lenient);
    let (prompt, answer) = (exchange.prompt(), exchange.answer());
    assert!(rt; visible.fits(profile, prompt, answer)?);
    visible.advance(prompt, answer)?;
    Ok(position.after(prompt, answer))
}

#[test]
fn states(rt: HostRuntime) -> Result<(), Fail> {
    let mut visible = Visible::new(rt.alloc());
    let mut position = Position::Nowhere;
    let mut pairs = Pairs::new(CLIENT, SERVER);
    for state in &STATES {
        let exchange = next(&rt, &mut pairs);
        position = go_on(&rt, &mut visible, position, &exchange)?;
        assert!(rt;
            is_state(&visible, position, *state),
            "{}",
            exchange.index()
        );
    }
    Ok(())
}

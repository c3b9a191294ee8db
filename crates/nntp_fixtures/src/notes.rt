//! What is noted of all exchanges of a session.
ghost use Rattle.std.specs.Prelude.{◌≡◌, true, IfOk};
ghost use Rattle.nntp_witness.specs.Inner.Witness.{HaveNotedSome};

use nntp_facts::{Facts, FactsError, Noted};
use nntp_pair::{Class, Exchange, Pairs, Step};
use nntp_sessions::Outcome;
use nntp_wire::{Limit, Marks, Overviews};
use std::alloc::{AllocError, Allocator, Global};

/// What stops the noting of a session's exchanges.
#[derive(Clone, Copy, Debug, PartialEq, Eq)]
pub enum Stop {
    /// An answer that is bad.
    Bad { answer: u64, class: Class },
    /// Want of memory, and each later call failed.
    Memory,
    /// Any other outcome.
    Wrong,
}

/// The facts of a session whose exchanges were all noted.
#[derive(Drop)]
pub struct Whole<A: Allocator> {
    pub facts: Facts<A>,
    pub answers: u64,
    /// Of the octets that answer nothing, if some are left.
    pub class: Option<Class>,
}

/// Notes an exchange twice more behind a call that wanted memory.
fn after_want<A: Allocator + Copy>(mut facts: Facts<A>, exchange: &Exchange<'_>) -> Stop
    requires { facts.has_failed ≡ true }
{
    let first = facts.note(exchange);
    let second = facts.note(exchange);
    if first == Err(FactsError::Failed) && second == Err(FactsError::Failed) {
        Stop::Memory
    } else {
        Stop::Wrong
    }
}

/// Notes the exchanges of a session one after the other.
pub fn note_all<A: Allocator + Copy>(
    alloc: A,
    limit: Limit,
    marks: Marks,
    client: &[u8],
    server: &[u8],
) -> Result<Whole<A>, Stop>
    ensures { IfOk result (λ whole. HaveNotedSome whole.facts) }
{
    note_taking(alloc, limit, marks, Overviews::Opaque, client, server)
}

/// Notes the exchanges of a session one after the other, where overviews are taken so.
pub fn note_taking<A: Allocator + Copy>(
    alloc: A,
    limit: Limit,
    marks: Marks,
    overviews: Overviews,
    client: &[u8],
    server: &[u8],
) -> Result<Whole<A>, Stop>
    ensures { IfOk result (λ whole. HaveNotedSome whole.facts) }
{
    let mut facts = Facts::new(alloc, limit, marks);
    let mut answers = 0u64;
    let mut pairs = Pairs::taking(overviews, client, server);
    loop {
        let exchange = match pairs.next() {
            Step::Exchange(exchange) => exchange,
            Step::Bad { class, .. } => {
                let class = Some(Class::from(class));
                return Ok(Whole {
                    facts,
                    answers,
                    class,
                });
            }
            Step::End { .. } => {
                return Ok(Whole {
                    facts,
                    answers,
                    class: None,
                });
            }
        };
        let answer = exchange.index();
        match facts.note(&exchange) {
            Ok(Noted::Consistent) => answers = answer + 1,
            Ok(Noted::OutOfPlace) => {
                let class = Class::OutOfPlace;
                return Err(Stop::Bad { answer, class });
            }
            Ok(Noted::Contradiction) => {
                let class = Class::Contradiction;
                return Err(Stop::Bad { answer, class });
            }
            Err(FactsError::Memory) => return Err(after_want(facts, &exchange)),
            Err(FactsError::Failed) => return Err(Stop::Wrong),
        }
    }
}

/// How the report on a session begins, by the answer that is bad, or by how many are right.
pub fn beginning(alloc: Global, answer: u64, class: Option<Class>) -> Result<String, AllocError> {
    match class {
        Some(class) => format!(in alloc; "bad answer {answer} {class}\n"),
        None => format!(in alloc; "consistent answers={answer} "),
    }
}

/// How many answers are right, and the class of the one behind them, if that is bad.
pub fn bad_of(outcome: Outcome) -> (u64, Option<Class>) {
    match outcome {
        Outcome::Consistent(answers, _) => (answers, None),
        Outcome::OutOfPlace(answer) => (answer, Some(Class::OutOfPlace)),
        Outcome::Contradiction(answer) => (answer, Some(Class::Contradiction)),
    }
}

//! Calls that are made with too little memory, for tests: requests refused in turn, and only so much memory to have.
#![tactic(auto)]

use linked_list_allocator::LocalHeap;
use nntp_refusing::{Refusal, Refusing};
use std::alloc::Global;

/// More requests than any call of the tests makes.
const BOUND: u64 = 5000;

/// More octets than any call of the tests needs.
pub const AMPLE: usize = 1 << 18;

/// How a call ended.
#[derive(Clone, Copy, Debug, PartialEq, Eq)]
pub enum Ended {
    /// With the right answer.
    Right,
    /// It told that it wants memory, and left everything as it has to.
    Memory,
    /// With any other answer, or it left something else.
    Wrong,
}

/// Right or wrong.
pub fn right_if(is_right: bool) -> Ended {
    if is_right { Ended::Right } else { Ended::Wrong }
}

/// What a call did that it shouldn't.
#[derive(Clone, Copy, Debug, PartialEq, Eq)]
pub enum Wrong {
    /// It ended so where these requests were refused.
    Refused(Refusal, Ended),
    /// How many requests it makes isn't the same whether one or all later ones are refused, from this one on.
    Requests(u64),
    /// It goes on with requests.
    GoesOn,
    /// It ended so with this many octets of memory to have.
    Given(usize, Ended),
    /// It kept some of this many octets.
    Keeps(usize),
    /// It wants more than is ample.
    WantsMore,
    /// The tests' own memory was refused.
    NoHeap,
}

/// What a call of this name did that it shouldn't.
#[derive(Clone, Copy, Debug, PartialEq, Eq)]
pub struct Fault<'a> {
    pub name: &'a str,
    pub wrong: Wrong,
}

/// How many requests a call made, and whether one was refused.
#[derive(Clone, Copy, Debug, PartialEq, Eq)]
struct Requests {
    count: u64,
    has_refused: bool,
}

/// Makes the call with these requests refused. It has to want memory where one was, and else to answer
/// right.
fn refuse<F: Fn(&Refusing<Global>) -> Ended>(
    alloc: Global,
    refusal: Refusal,
    call: &F,
) -> Result<Requests, Wrong>
    requires { F.IsAlwaysCallable call.now }
{
    let heap = Refusing::new(alloc, refusal);
    let ended = call(&heap);
    let has_refused = heap.has_refused();
    let wanted = if has_refused {
        Ended::Memory
    } else {
        Ended::Right
    };
    if ended != wanted {
        return Err(Wrong::Refused(refusal, ended));
    }
    Ok(Requests {
        count: heap.requests(),
        has_refused,
    })
}

/// Refuses requests of a call as `refuse_each` says.
fn refuse_in_turn<F: Fn(&Refusing<Global>) -> Ended>(alloc: Global, call: &F) -> Result<u64, Wrong>
    requires { F.IsAlwaysCallable call.now }
{
    refuse(alloc, Refusal::EverySecond, call)?;
    for number in 1..BOUND {
        let from = refuse(alloc, Refusal::From(number), call)?;
        let one = refuse(alloc, Refusal::One(number), call)?;
        if from.has_refused != one.has_refused {
            return Err(Wrong::Requests(number));
        }
        if !one.has_refused {
            return if one.count == number - 1 {
                Ok(number - 1)
            } else {
                Err(Wrong::Requests(number))
            };
        }
    }
    Err(Wrong::GoesOn)
}

/// Refuses the first request of a call, then the second, and so on until it makes no more, each of them
/// alone and with all later ones; and every second one. Returns how many requests there are.
///
/// # Errors
///
/// What the call did that it shouldn't. It has to want memory where a request was refused, and else to answer right.
pub fn refuse_each<'a, F: Fn(&Refusing<Global>) -> Ended>(
    alloc: Global,
    name: &'a str,
    call: F,
) -> Result<u64, Fault<'a>>
    requires { F.IsAlwaysCallable call }
{
    match refuse_in_turn(alloc, &call) {
        Ok(count) => Ok(count),
        Err(wrong) => Err(Fault { name, wrong }),
    }
}

/// Makes the call with one request refused. It has to want memory, or to answer right.
fn refuse_one<F: Fn(&Refusing<Global>) -> Ended>(
    alloc: Global,
    number: u64,
    call: &F,
) -> Result<(), Wrong>
    requires { F.IsAlwaysCallable call.now }
{
    let one = Refusal::One(number);
    match call(&Refusing::new(alloc, one)) {
        Ended::Memory | Ended::Right => Ok(()),
        ended => Err(Wrong::Refused(one, ended)),
    }
}

/// Refuses requests of a call as `refuse_rest_each` says.
fn refuse_rest_in_turn<F: Fn(&Refusing<Global>) -> Ended>(
    alloc: Global,
    call: &F,
) -> Result<u64, Wrong>
    requires { F.IsAlwaysCallable call.now }
{
    for number in 1..BOUND {
        let rest = refuse(alloc, Refusal::From(number), call)?;
        if !rest.has_refused {
            return Ok(number - 1);
        }
        refuse_one(alloc, number, call)?;
    }
    Err(Wrong::GoesOn)
}

/// Refuses the first request of a call, then the second, and so on until it makes no more, each of them with all later
/// ones, and alone. Returns how many requests there are. It is for calls that ask for less where a request is refused:
/// where one alone was refused, such a call may answer right.
///
/// # Errors
///
/// Those of `refuse_each`.
pub fn refuse_rest_each<'a, F: Fn(&Refusing<Global>) -> Ended>(
    alloc: Global,
    name: &'a str,
    call: F,
) -> Result<u64, Fault<'a>>
    requires { F.IsAlwaysCallable call }
{
    match refuse_rest_in_turn(alloc, &call) {
        Ok(count) => Ok(count),
        Err(wrong) => Err(Fault { name, wrong }),
    }
}

/// Makes the call with so many octets of memory to have. It gives all of them back.
fn give<F: Fn(&LocalHeap) -> Ended>(alloc: Global, size: usize, call: &F) -> Result<Ended, Wrong>
    requires { F.IsAlwaysCallable call.now }
{
    let Ok(heap) = LocalHeap::new(alloc, size) else {
        return Err(Wrong::NoHeap);
    };
    let ended = call(&heap);
    if ended == Ended::Wrong {
        return Err(Wrong::Given(size, ended));
    }
    if heap.used() != 0 {
        return Err(Wrong::Keeps(size));
    }
    Ok(ended)
}

/// Gives octets to a call as `give_each` says.
fn give_more<F: Fn(&LocalHeap) -> Ended>(
    alloc: Global,
    may_want_again: bool,
    call: &F,
) -> Result<usize, Wrong>
    requires { F.IsAlwaysCallable call.now }
{
    let mut enough = 0;
    let mut size = 16;
    while size < AMPLE {
        let ended = give(alloc, size, call)?;
        if ended != Ended::Right {
            if enough != 0 && !may_want_again {
                return Err(Wrong::Given(size, ended));
            }
            enough = 0;
        } else if enough == 0 {
            enough = size;
        }
        size += size / 4 + 16;
    }
    if enough == 0 {
        return Err(Wrong::WantsMore);
    }
    Ok(enough)
}

/// Gives a call a few octets of memory, then some more, and so on until they are ample. Returns from which size on it
/// answers right.
///
/// # Errors
///
/// What the call did that it shouldn't. It has to want memory, and from some size on to answer right.
pub fn give_each<'a, F: Fn(&LocalHeap) -> Ended>(
    alloc: Global,
    name: &'a str,
    call: F,
) -> Result<usize, Fault<'a>>
    requires { F.IsAlwaysCallable call }
{
    match give_more(alloc, false, &call) {
        Ok(enough) => Ok(enough),
        Err(wrong) => Err(Fault { name, wrong }),
    }
}

/// Gives octets to a call as `give_each` does. It is for calls that ask for less where a request is refused: with some
/// more octets such a call may want memory once more.
///
/// # Errors
///
/// Those of `give_each`.
pub fn give_rest_each<'a, F: Fn(&LocalHeap) -> Ended>(
    alloc: Global,
    name: &'a str,
    call: F,
) -> Result<usize, Fault<'a>>
    requires { F.IsAlwaysCallable call }
{
    match give_more(alloc, true, &call) {
        Ok(enough) => Ok(enough),
        Err(wrong) => Err(Fault { name, wrong }),
    }
}

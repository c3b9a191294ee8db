//! An allocator for tests, which refuses some of the requests for memory that reach it.
#![tactic(auto)]

use std::alloc::{AllocError, Allocator};
use std::cell::Cell;

/// Which requests for memory are refused. The first has number 1.
#[derive(Clone, Copy, Debug, PartialEq, Eq)]
pub enum Refusal {
    Never,
    /// The one of this number.
    One(u64),
    /// The one of this number, and all later ones.
    From(u64),
    /// The second, the fourth, and so on.
    EverySecond,
}

impl Refusal {
    /// Whether the request of this number is refused.
    fn refuses(self, number: u64) -> bool {
        match self {
            Refusal::Never => false,
            Refusal::One(refused) => number == refused,
            Refusal::From(first) => first <= number,
            Refusal::EverySecond => number % 2 == 0,
        }
    }
}

/// Passes each call on to another allocator, but refuses some requests for memory. A reference to it
/// is an allocator too, which can be copied. A collection that grows or shrinks makes one request, for
/// its new block.
#[derive(Drop)]
pub struct Refusing<A: Allocator> {
    inner: A,
    refusal: Refusal,
    requests: Cell<u64>,
    has_refused: Cell<bool>,
}

impl<A: Allocator> Refusing<A> {
    /// No request has come yet.
    pub fn new(inner: A, refusal: Refusal) -> Refusing<A> {
        Refusing {
            inner,
            refusal,
            requests: Cell::new(0),
            has_refused: Cell::new(false),
        }
    }

    /// How many requests there were, refused ones among them.
    pub fn requests(&self) -> u64 {
        self.requests.get()
    }

    /// Whether a request was refused.
    pub fn has_refused(&self) -> bool {
        self.has_refused.get()
    }

    /// Counts a request, and tells whether it is refused.
    fn refuses(&self) -> bool {
        let number = self.requests.get().saturating_add(1);
        self.requests.set(number);
        let is_refused = self.refusal.refuses(number);
        if is_refused {
            self.has_refused.set(true);
        }
        is_refused
    }
}

unsafe impl<A: Allocator> Allocator for Refusing<A> {
    ghost dealloc_token = { λ refusing. A.dealloc_token refusing.inner };

    fn allocate(&self, size: usize, align: usize) -> Result<*mut u8, AllocError> {
        if self.refuses() {
            return Err(AllocError);
        }
        self.inner.allocate(size, align)
    }

    unsafe fn deallocate(&self, ptr: *mut u8, size: usize, align: usize) {
        self.inner.deallocate(ptr, size, align);
    }
}

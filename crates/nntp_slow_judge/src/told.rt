//! What answers say by themselves, each where it stands in its session, and whether a spool has it.
use crate::said::Said;
use crate::spool::Spool;
use crate::standing::Standing;
use nntp_pair::Exchange;
use nntp_wire::Marks;
use std::alloc::{AllocError, Global};

/// An answer where it stands.
#[derive(Drop)]
pub(crate) struct Told<'a> {
    /// The group that is selected before it.
    selected: Option<&'a [u8]>,
    /// The number of the current article, where an answer showed it.
    current: Option<u64>,
    pub(crate) exchange: Exchange<'a>,
}

impl<'a> Told<'a> {
    /// The answer behind those of which this was said.
    pub(crate) fn new(said: &Said<'a>, exchange: Exchange<'a>) -> Told<'a> {
        let (selected, current) = said.stands();
        Told {
            selected,
            current,
            exchange,
        }
    }

    /// The place of the answer in its session.
    pub(crate) fn index(&self) -> u64 {
        self.exchange.index()
    }

    /// Adds what it says behind those before it.
    pub(crate) fn hear(&self, said: &mut Said<'a>) -> Result<(), AllocError> {
        said.hear(&self.exchange)
    }

    /// Adds what it says where it stands.
    pub(crate) fn hear_alone(&self, said: &mut Said<'a>) -> Result<(), AllocError> {
        said.stand(self.selected, self.current);
        said.hear(&self.exchange)
    }

    /// Whether the spool has what the answer says where it stands. Its group needn't have the number of the current
    /// article, since by itself the answer doesn't say so. Where that number isn't shown, it is the first of the group.
    pub(crate) fn is_had(
        &self,
        alloc: Global,
        spool: &Spool,
        marks: Marks,
    ) -> Result<bool, AllocError> {
        Standing::at(alloc, spool, marks, self.selected, self.current).has(&self.exchange)
    }
}

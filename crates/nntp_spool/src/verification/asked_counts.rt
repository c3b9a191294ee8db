//! How many groups of a spool match the wildmats of LIST ACTIVE, each counted once (RFC 3977, section 7.6.3).
ghost use Rattle.std.specs.Prelude.{◌≡◌, Some, IfOk, OnOk};
ghost use Rattle.nntp_article.specs.Session.Spool.{Spool as SpoolValue};
ghost use Rattle.nntp_spool.specs.Inner.AskedCounts.{AreCounted, remembered, with_count};
ghost use Rattle.nntp_content.specs.Inner.Content.{asked_count};

use nntp_store::Content;
use nntp_wire::Wildmat;
use std::alloc::{AllocError, Allocator};
use std::collections::BTreeMap;
use std::marker::Model;

/// The counts of the groups that match each wildmat that was asked for.
#[derive(Drop)]
pub(crate) struct AskedCounts<A: Allocator> {
    alloc: A,
    /// The number of all groups, once LIST ACTIVE was asked without a wildmat.
    all: Option<usize>,
    /// The number of groups that match, by the octets of the wildmat.
    by_wildmat: BTreeMap<Vec<u8, A>, usize, A>,
}

impl<A: Allocator> Model for AskedCounts<A> {
    ghost use Rattle.std.specs.{Ordering.{nat_cmp}, Cmp.Lexicographic.{slice_cmp}};
    ghost use Rattle.nntp_article.specs.Inner.ShownMap.{shown};
    ghost use Rattle.nntp_spool.specs.Inner.AskedCounts.{AskedCounts as Counts, coded_counts};

    ghost Value = { Counts };

    ghost coded = { coded_counts };

    ghost view = { λ a. record { all = a.all; by_wildmat = shown (slice_cmp nat_cmp) (λ wildmat. wildmat.items) (λ count. count) a.by_wildmat.entries } };
}

impl<A: Allocator + Copy> AskedCounts<A> {
    /// Creates the counts of which none is remembered yet.
    pub(crate) fn new(alloc: A) -> AskedCounts<A>
        ensures { (S : SpoolValue) → AreCounted S result }
    {
        AskedCounts {
            alloc,
            all: None,
            by_wildmat: BTreeMap::new(alloc),
        }
    }

    /// Returns how many groups match. The spool's groups are gone through at the first time alone
    /// that this is asked for.
    pub(crate) fn count<S: Allocator>(
        &mut self,
        spool: &Content<S>,
        wildmat: &Option<Wildmat<'_>>,
    ) -> Result<usize, AllocError>
        requires { AreCounted spool.now self.old }
        ensures count { IfOk result (λ count. count ≡ asked_count spool.now wildmat.now) }
        ensures counted { IfOk result (λ _. AreCounted spool.now self.new) }
        ensures kept { IfOk result (λ count. remembered self.new wildmat.now ≡ Some count) }
    {
        if let Some(count) = self.remembered(wildmat) {
            return Ok(count);
        }
        let count = spool.count_asked(wildmat);
        self.remember(wildmat, count)?;
        Ok(count)
    }

    /// Remembers a count.
    fn remember(&mut self, wildmat: &Option<Wildmat<'_>>, count: usize) -> Result<(), AllocError>
        ensures { OnOk result (self.new ≡ with_count wildmat.now count self.old) }
    {
        match wildmat {
            Some(wildmat) => {
                let octets = Vec::from_slice(self.alloc, wildmat.as_slice())?;
                self.by_wildmat.insert(octets, count)?;
            }
            None => self.all = Some(count),
        }
        Ok(())
    }
}

impl<A: Allocator> AskedCounts<A> {
    /// Returns the count that is remembered.
    fn remembered(&self, wildmat: &Option<Wildmat<'_>>) -> Option<usize>
        ensures { result ≡ remembered self.now wildmat.now }
    {
        match wildmat {
            Some(wildmat) => self.by_wildmat.get(wildmat.as_slice()).copied(),
            None => self.all,
        }
    }
}

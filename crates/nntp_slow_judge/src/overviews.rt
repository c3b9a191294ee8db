//! OVER and XOVER, and HDR and XHDR of Message-ID, where they are judged: what fits what was asked for, what it says, and
//! whether a spool has that.
use crate::blocks::is_in;
use crate::fields::{Overview, told_by_head, told_by_overview};
use crate::said::Said;
use crate::spool::{Article, Group};
use crate::standing::Standing;
use crate::visible::Visible;
use nntp_wire::{Block, OverviewKeyword, OverviewLine, Range, Which, WhichArticles, overview_line};
use std::alloc::{AllocError, Global};

impl<'a> Visible<'a> {
    /// Whether a code alone fits.
    pub(crate) fn over_code_fits(
        &self,
        keyword: OverviewKeyword,
        which: &WhichArticles<'_>,
        code: u64,
    ) -> bool {
        let is_selected = self.is_selected();
        match (which, code) {
            (WhichArticles::Id(_), 430) => true,
            (WhichArticles::Range(_) | WhichArticles::Current, 412) => !is_selected,
            (WhichArticles::Range(_), 423) | (WhichArticles::Current, 420) => is_selected,
            (WhichArticles::Range(_), 420) => is_selected && is_old(keyword),
            _ => false,
        }
    }

    /// Whether the overviews are of what was asked for: of a range, or of one article.
    pub(crate) fn overviews_fit(
        &self,
        keyword: OverviewKeyword,
        which: &WhichArticles<'_>,
        block: &Block<'_>,
    ) -> bool {
        match which {
            WhichArticles::Range(range) => {
                self.is_selected()
                    && (is_old(keyword) || block.lines().next().is_some())
                    && self.range_fits(range, block)
                    && ids_differ(block)
            }
            WhichArticles::Id(word) => self.overview_fits(&Which::Id(*word), block),
            WhichArticles::Current => self.overview_fits(&Which::Current, block),
        }
    }

    /// Whether the numbers ascend and are numbers of the range.
    fn range_fits(&self, range: &Range, block: &Block<'_>) -> bool {
        let mut before = 0;
        for overview in block.overviews() {
            let number = overview.number;
            if number <= before || !self.is_number(number) || !is_in(range, number) {
                return false;
            }
            before = number;
        }
        true
    }

    /// Whether there is one overview, as of a success of STAT.
    fn overview_fits(&self, which: &Which<'_>, block: &Block<'_>) -> bool {
        match only(block) {
            Some((overview, _)) => self.number_fits(which, overview.number, &overview.id),
            None => false,
        }
    }
}

/// Whether the command is one of RFC 2980, which may list nothing of a range, and say so by 420 (sections 2.6 and 2.8).
fn is_old(keyword: OverviewKeyword) -> bool {
    match keyword {
        OverviewKeyword::Xover | OverviewKeyword::Xhdr => true,
        OverviewKeyword::Over | OverviewKeyword::Hdr => false,
    }
}

/// Whether no two overviews have one id.
fn ids_differ(block: &Block<'_>) -> bool {
    for (index, overview) in block.overviews().enumerate() {
        for other in block.overviews().take(index) {
            if other.id.as_slice() == overview.id.as_slice() {
                return false;
            }
        }
    }
    true
}

/// The overview and its line, if there is just one.
fn only<'a>(block: &Block<'a>) -> Option<(OverviewLine<'a>, &'a [u8])> {
    let mut lines = block.lines();
    let first = lines.next()?;
    if lines.next().is_some() {
        return None;
    }
    Some((overview_line(first)?, first))
}

impl<'a> Said<'a> {
    /// Adds what overviews say: which numbers a range has, with their ids, or what STAT would say of an article.
    pub(crate) fn hear_overviews(
        &mut self,
        which: &WhichArticles<'a>,
        block: &Block<'a>,
    ) -> Result<(), AllocError> {
        match (which, self.stands().0) {
            (WhichArticles::Range(range), Some(group)) => self.hear_range(group, range, block),
            (WhichArticles::Range(_), None) => Ok(()),
            _ => match only(block) {
                Some((overview, line)) => self.hear_overview(which, &overview, line),
                None => Ok(()),
            },
        }
    }

    /// What an overview tells of its article.
    fn tell(&mut self, id: &'a [u8], line: &'a [u8]) -> Result<(), AllocError> {
        self.overviews.push(Overview { id, line })?;
        Ok(())
    }

    /// The numbers of a range, each with its id and with what is told of it, and no others. Of HDR and XHDR no more is told.
    fn hear_range(
        &mut self,
        group: &'a [u8],
        range: &Range,
        block: &Block<'a>,
    ) -> Result<(), AllocError> {
        let mut from = range.first;
        for (overview, line) in block.overviews().zip(block.lines()) {
            let number = overview.number;
            let id = overview.id.as_slice();
            self.deny(group, from, number.saturating_sub(1))?;
            self.mention(id)?;
            self.show(group, number, Some(id))?;
            if overview.told.is_some() {
                self.tell(id, line)?;
            }
            from = number.saturating_add(1);
        }
        self.deny(group, from, range.last.unwrap_or(u64::MAX))
    }

    /// An article, with its number, its id, and what is told of it.
    fn hear_overview(
        &mut self,
        which: &WhichArticles<'a>,
        overview: &OverviewLine<'a>,
        line: &'a [u8],
    ) -> Result<(), AllocError> {
        let id = overview.id.as_slice();
        self.hear_stat(id)?;
        self.tell(id, line)?;
        let (Some(group), true) = (self.stands().0, overview.number != 0) else {
            return Ok(());
        };
        self.show(group, overview.number, Some(id))?;
        match (which, self.stands().1) {
            (WhichArticles::Current, None) => {
                self.deny(group, 0, overview.number.saturating_sub(1))
            }
            _ => Ok(()),
        }
    }

    /// Adds what a code alone says.
    pub(crate) fn hear_no_overview(
        &mut self,
        which: &WhichArticles<'a>,
        code: u64,
    ) -> Result<(), AllocError> {
        match (which, code, self.stands().0) {
            (WhichArticles::Id(word), 430, _) => self.mention(*word),
            (WhichArticles::Range(range), 420 | 423, Some(group)) => {
                self.deny(group, range.first, range.last.unwrap_or(u64::MAX))
            }
            (WhichArticles::Current, 420, Some(group)) => self.deny(group, 0, u64::MAX),
            _ => Ok(()),
        }
    }
}

impl<'s> Standing<'s> {
    /// Whether what overviews say is so.
    pub(crate) fn has_overviews(
        &self,
        which: &WhichArticles<'_>,
        block: &Block<'_>,
    ) -> Result<bool, AllocError> {
        Ok(self.has_places(which, block) && self.has_articles(block)?)
    }

    /// Whether the articles of overviews are where they say.
    fn has_places(&self, which: &WhichArticles<'_>, block: &Block<'_>) -> bool {
        match (which, only(block)) {
            (WhichArticles::Range(range), _) => {
                self.group()
                    .is_some_and(|group| group.is_range(range, block))
            }
            (WhichArticles::Id(_), Some((overview, _))) => self.has_place(&overview),
            (WhichArticles::Current, Some((overview, _))) => {
                self.has_place(&overview) && self.number() == Some(overview.number)
            }
            (_, None) => false,
        }
    }

    /// Whether the id of an overview is at its number, if that isn't 0.
    fn has_place(&self, overview: &OverviewLine<'_>) -> bool {
        let is_there = match self.group() {
            Some(group) => group.has_at(overview.number, overview.id.as_slice()),
            None => false,
        };
        overview.number == 0 || is_there
    }

    /// Whether there are the articles of overviews, each of which tells what its overview tells, if this tells something.
    fn has_articles(&self, block: &Block<'_>) -> Result<bool, AllocError> {
        for (overview, line) in block.overviews().zip(block.lines()) {
            let tells = match self.article(overview.id.as_slice()) {
                Some(article) => overview.told.is_none() || article.tells(self.alloc(), line)?,
                None => false,
            };
            if !tells {
                return Ok(false);
            }
        }
        Ok(true)
    }

    /// Whether what a code alone says is so.
    pub(crate) fn has_no_overview(&self, which: &WhichArticles<'_>, code: u64) -> bool {
        match (which, code) {
            (WhichArticles::Id(word), 430) => self.article(*word).is_none(),
            (WhichArticles::Range(range), 420 | 423) => {
                !self.group().is_some_and(|group| group.has_within(range))
            }
            (WhichArticles::Current, 420) => self.number().is_none(),
            _ => true,
        }
    }
}

impl Article {
    /// Whether its head tells what an overview tells.
    fn tells(&self, alloc: Global, line: &[u8]) -> Result<bool, AllocError> {
        let told = told_by_head(alloc, self.head.as_slice())?;
        Ok(told == told_by_overview(alloc, line)?)
    }
}

impl Group {
    /// Whether the overviews are of its numbers in the range, each with the id that it has there, and of no others.
    fn is_range(&self, range: &Range, block: &Block<'_>) -> bool {
        for overview in block.overviews() {
            let number = overview.number;
            if !self.has_at(number, overview.id.as_slice()) || !is_in(range, number) {
                return false;
            }
        }
        self.is_whole_range(range, block)
    }

    /// Whether the overviews are of all of its numbers in the range.
    fn is_whole_range(&self, range: &Range, block: &Block<'_>) -> bool {
        for numbered in &self.numbers {
            let number = numbered.number;
            if is_in(range, number) && !has_number(block, number) {
                return false;
            }
        }
        true
    }

    /// Whether it has a number in the range.
    fn has_within(&self, range: &Range) -> bool {
        self.numbers
            .iter()
            .any(|numbered| is_in(range, numbered.number))
    }
}

/// Whether one of the overviews is that of the number.
fn has_number(block: &Block<'_>, number: u64) -> bool {
    for overview in block.overviews() {
        if overview.number == number {
            return true;
        }
    }
    false
}

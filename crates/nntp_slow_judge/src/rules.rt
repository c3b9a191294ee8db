//! What a spool has to be.
use crate::spool::{Article, Group, Spool};
use crate::visible::greatest;
use nntp_article::lines_say;
use nntp_wire::{GroupName, MessageId};

impl Spool {
    /// Whether its groups and its articles are as those of a spool have to be, each list in its order.
    pub(crate) fn is_spool(&self) -> bool {
        self.has_groups() && self.has_articles()
    }

    /// Whether its groups are groups, and their names ascend.
    fn has_groups(&self) -> bool {
        let mut before: &[u8] = &[];
        for group in &self.groups {
            let name = group.name.as_slice();
            if name <= before || !self.is_group(group) {
                return false;
            }
            before = name;
        }
        true
    }

    /// Whether the name is a group's, the numbers ascend up to the limit, and each has an id that no other one has and
    /// that has an article.
    fn is_group(&self, group: &Group) -> bool {
        let mut before = 0;
        for numbered in &group.numbers {
            let number = numbered.number;
            let id = numbered.id.as_slice();
            if number <= before || number > greatest(self.limit) {
                return false;
            }
            if !group.has_once(id) || self.article(id).is_none() {
                return false;
            }
            before = number;
        }
        GroupName::parse(group.name.as_slice()).is_some()
    }

    /// Whether its articles are articles, and their ids ascend.
    fn has_articles(&self) -> bool {
        let mut before: &[u8] = &[];
        for article in &self.articles {
            let id = article.id.as_slice();
            if id <= before || !article.is_article() {
                return false;
            }
            before = id;
        }
        true
    }
}

impl Group {
    /// Whether one number alone has the id.
    fn has_once(&self, id: &[u8]) -> bool {
        let mut count = 0u64;
        for numbered in &self.numbers {
            if numbered.id.as_slice() == id {
                count = count.saturating_add(1);
            }
        }
        count == 1
    }
}

impl Article {
    /// Whether the id is one, the head is a head that says no other id, and the lines of the body are lines.
    fn is_article(&self) -> bool {
        let id = self.id.as_slice();
        let is_own_head = match lines_say(self.head.as_slice()) {
            Some(Some(said)) => said.as_slice() == id,
            Some(None) => true,
            None => false,
        };
        is_own_head
            && MessageId::parse(id).is_some()
            && self.body.iter().all(|line| is_line(line.as_slice()))
    }
}

/// Whether there is no NUL, CR or LF.
fn is_line(octets: &[u8]) -> bool {
    octets
        .iter()
        .all(|octet| *octet != 0 && *octet != b'\r' && *octet != b'\n')
}

//! A spool by plain lists, and what is looked up in it.
use nntp_wire::Limit;
use std::alloc::Global;

/// A number of a group, and its id.
#[derive(Drop)]
pub(crate) struct Numbered {
    pub(crate) number: u64,
    pub(crate) id: Vec<u8>,
}

/// A group: its name, and its numbers from the least to the greatest.
#[derive(Drop)]
pub(crate) struct Group {
    pub(crate) name: Vec<u8>,
    pub(crate) numbers: Vec<Numbered>,
}

/// An article: its id, and the lines of its head and of its body.
#[derive(Drop)]
pub(crate) struct Article {
    pub(crate) id: Vec<u8>,
    pub(crate) head: Vec<Vec<u8>>,
    pub(crate) body: Vec<Vec<u8>>,
}

/// A spool: its groups in the order of their names, and its articles in that of their ids.
#[derive(Drop)]
pub(crate) struct Spool {
    pub(crate) limit: Limit,
    pub(crate) groups: Vec<Group>,
    pub(crate) articles: Vec<Article>,
}

impl Spool {
    /// A spool with nothing in it.
    pub(crate) fn new(alloc: Global, limit: Limit) -> Spool {
        Spool {
            limit,
            groups: Vec::new(alloc),
            articles: Vec::new(alloc),
        }
    }

    /// The group of a name.
    pub(crate) fn group(&self, name: &[u8]) -> Option<&Group> {
        self.groups
            .iter()
            .find(|group| group.name.as_slice() == name)
    }

    /// The article of an id.
    pub(crate) fn article(&self, id: &[u8]) -> Option<&Article> {
        self.articles
            .iter()
            .find(|article| article.id.as_slice() == id)
    }
}

impl Group {
    /// Whether it has the number.
    pub(crate) fn has(&self, number: u64) -> bool {
        self.numbers
            .iter()
            .any(|numbered| numbered.number == number)
    }

    /// Whether it has the id at the number.
    pub(crate) fn has_at(&self, number: u64, id: &[u8]) -> bool {
        self.numbers.iter().any(|numbered| numbered.number == number
            && numbered.id.as_slice() == id)
    }

    /// Whether each of its numbers lies between these.
    pub(crate) fn is_between(&self, low: u64, high: u64) -> bool {
        self.numbers.iter().all(|numbered| low <= numbered.number && numbered.number <= high)
    }

    /// Whether these are its least and its greatest number, where it has some.
    pub(crate) fn has_ends(&self, low: u64, high: u64) -> bool {
        match (self.numbers.first(), self.numbers.last()) {
            (Some(first), Some(last)) => first.number == low && last.number == high,
            _ => true,
        }
    }

    /// Its least number.
    pub(crate) fn least(&self) -> Option<u64> {
        match self.numbers.first() {
            Some(first) => Some(first.number),
            None => None,
        }
    }

    /// Its least number above this one.
    pub(crate) fn above(&self, from: u64) -> Option<u64> {
        for numbered in &self.numbers {
            if numbered.number > from {
                return Some(numbered.number);
            }
        }
        None
    }

    /// Its greatest number below this one.
    pub(crate) fn below(&self, from: u64) -> Option<u64> {
        let mut below = None;
        for numbered in &self.numbers {
            if numbered.number < from {
                below = Some(numbered.number);
            }
        }
        below
    }
}

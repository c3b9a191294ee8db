//! What comes of adding what is said of an id.
ghost use Rattle.std.specs.{Prelude.{◌≡◌, None, Some, IsTrue, option_map}, Rc.{rc_str_bytes}};
ghost use Rattle.nntp_kept_articles.specs.Inner.ArticleView.{is_added, text_of};

use std::alloc::Allocator;
use std::rc::RcStr;

/// What comes of adding what is said of an id.
#[derive(Drop)]
pub enum Added<A: Allocator> {
    /// What is said can't be so, and nothing is added.
    Never,
    /// What is said is added, and no text is handed back.
    Unnamed,
    /// What is said is added, and this is the text of the id, which has an article.
    Named(RcStr<A>),
}

impl<A: Allocator> Added<A> {
    /// Tells whether what is said is added.
    pub fn at_all(&self) -> bool
        ensures { result ≡ is_added self.now }
    {
        !matches!(self, Added::Never)
    }

    /// Returns what comes of it by whether what is said is added, where no text is handed back.
    pub fn unnamed_if(does: bool) -> Added<A>
        ensures added { is_added result ≡ does }
        ensures text { text_of result ≡ None }
    {
        if does { Added::Unnamed } else { Added::Never }
    }

    /// Returns what comes of it by whether what is said is added, where the id has this text.
    pub fn named_if(does: bool, text: RcStr<A>) -> Added<A>
        ensures added { is_added result ≡ does }
        ensures text { IsTrue does → text_of result ≡ Some (rc_str_bytes text) }
    {
        if does {
            Added::Named(text)
        } else {
            Added::Never
        }
    }

    /// Returns the text of the id, where it is handed back.
    pub fn text(self) -> Option<RcStr<A>>
        ensures { option_map (λ text. rc_str_bytes text) result ≡ text_of self }
    {
        match self {
            Added::Named(text) => Some(text),
            _ => None,
        }
    }
}

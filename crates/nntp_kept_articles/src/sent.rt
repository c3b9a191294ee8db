//! What a success sends of an article.
ghost use Rattle.std.specs.Prelude.{◌≡◌, IsTrue, option_map};
ghost use Rattle.nntp_article.specs.{Article.Parts.{Id}, Session.Machine.{head_fits}};
ghost use Rattle.nntp_kept_articles.specs.Inner.Articles.{head_sent, body_sent};

use nntp_article::Parts;
use nntp_wire::{Block, What};

/// The parts of an article that a success sends.
#[derive(Drop)]
pub struct Sent<'a> {
    /// The lines of the head.
    pub head: Option<Block<'a>>,
    /// The lines of the body.
    pub body: Option<Block<'a>>,
}

impl<'a> Sent<'a> {
    /// Returns the parts that a success sends in its block.
    pub fn of(what: What, block: Option<&Block<'a>>) -> Sent<'a>
        ensures head { (id : Id) → IsTrue (head_fits what id (option_map (λ b. b.now) block.entry))
            → result.head ≡ head_sent what (option_map (λ b. b.now) block.entry) }
        ensures body { (id : Id) → IsTrue (head_fits what id (option_map (λ b. b.now) block.entry))
            → result.body ≡ body_sent what (option_map (λ b. b.now) block.entry) }
    {
        match (what, block) {
            (What::Article, Some(lines)) => Sent::parts(Parts::split(lines)),
            (What::Head, Some(lines)) => Sent {
                head: Some(lines.copy()),
                body: None,
            },
            (What::Body, Some(lines)) => Sent {
                head: None,
                body: Some(lines.copy()),
            },
            _ => Sent {
                head: None,
                body: None,
            },
        }
    }

    /// Returns the head and the body of a whole article.
    fn parts(parts: Option<Parts<'a>>) -> Sent<'a>
        ensures head { result.head ≡ option_map (λ p. p.head) parts.entry }
        ensures body { result.body ≡ option_map (λ p. p.body) parts.entry }
    {
        match parts {
            Some(parts) => Sent {
                head: Some(parts.head),
                body: Some(parts.body),
            },
            None => Sent {
                head: None,
                body: None,
            },
        }
    }
}

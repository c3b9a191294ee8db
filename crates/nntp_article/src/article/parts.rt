//! The two parts of an article (RFC 3977, section 3.6).
ghost use Rattle.std.specs.Prelude.{◌≡◌, ◌↔◌, IsSome, IsTrue, IfSome};
ghost use Rattle.std.specs.List.{list_any};
ghost use Rattle.nntp_article.specs.Article.Parts.{is_empty, head_part, body_part};

use nntp_wire::Block;

/// The head and the body of an article, as they stand round its first empty line (RFC 3977, section
/// 3.6).
#[derive(Drop)]
pub struct Parts<'a> {
    /// The lines before the first empty line. They need not be a head.
    pub head: Block<'a>,
    /// The lines behind the first empty line. There may be none.
    pub body: Block<'a>,
}

impl<'a> Parts<'a> {
    /// The parts of an article, which is given as its lines. None where no line is empty.
    pub fn split(article: &Block<'a>) -> Option<Parts<'a>>
        ensures some { IsSome result ↔ IsTrue (list_any is_empty article.now) }
        ensures head { IfSome result (λ parts. parts.head ≡ head_part article.now) }
        ensures body { IfSome result (λ parts. parts.body ≡ body_part article.now) }
    {
        let (head, body) = article.split_at_empty_line()?;
        Some(Parts { head, body })
    }
}

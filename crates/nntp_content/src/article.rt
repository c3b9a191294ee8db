//! The lines of an article.
ghost use Rattle.std.specs.Prelude.{◌≡◌, ◌<◌, ◌^◌, IfOk, IsTrue, length};
ghost use Rattle.std.specs.List.{list_all};
ghost use Rattle.nntp_article.specs.Session.Spool.{is_line};
ghost use Rattle.nntp_content.specs.Inner.ArticleLines.{text_of_article, text_stored, AreLines, HasLineCount};
ghost use Rattle.nntp_wire.specs.Inner.Held.{held};

use nntp_wire::OwnedBlock;
use std::alloc::{AllocError, Allocator, Global};
use std::rc::Rc;

/// An article, which is the lines of its head and those of its body (RFC 3977, section 3.6). No
/// line has a CRLF at its end.
#[derive(Drop)]
pub struct Article<A: Allocator = Global> {
    /// The lines of the headers, first to last, continuation lines among them.
    pub head: Vec<Vec<u8, A>, A>,
    /// The lines behind the empty line that ends the head, first to last. They are without the dots
    /// that are put in front to send them (RFC 3977, section 3.1.1).
    pub body: Vec<Vec<u8, A>, A>,
}

/// An article as a spool stores it, with each part in one piece of memory, which may be shared.
#[derive(Drop)]
pub struct StoredArticle<A: Allocator> {
    /// The lines of the headers.
    pub head: Rc<OwnedBlock<A>, A>,
    /// The lines behind the empty line that ends the head.
    pub body: Rc<OwnedBlock<A>, A>,
}

impl<A: Allocator + Copy> StoredArticle<A> {
    /// Copies a head and a body, each into as much memory as it needs.
    pub(crate) fn new<T: Allocator>(
        alloc: A,
        head: &OwnedBlock<T>,
        body: &OwnedBlock<T>,
    ) -> Result<StoredArticle<A>, AllocError>
        ensures text { IfOk result (λ stored. text_stored stored ≡ record { head = head.now; body = body.now }) }
        ensures line_count { IfOk result (λ stored. HasLineCount (text_stored stored)) }
    {
        Ok(StoredArticle {
            head: copied(alloc, head)?,
            body: copied(alloc, body)?,
        })
    }

    /// Copies an article whose lines have no NUL, CR or LF.
    pub fn of(alloc: A, article: &Article<A>) -> Result<StoredArticle<A>, AllocError>
        requires { AreLines (text_of_article article.now) }
        ensures text { IfOk result (λ stored. text_stored stored ≡ text_of_article article.now) }
        ensures line_count { IfOk result (λ stored. HasLineCount (text_stored stored)) }
    {
        let head = joined(alloc, &article.head)?;
        let body = joined(alloc, &article.body)?;
        StoredArticle::new(alloc, &head, &body)
    }
}

impl<A: Allocator> StoredArticle<A> {
    /// Shares a head and a body. It copies no octet.
    pub fn sharing(
        head: &Rc<OwnedBlock<A>, A>,
        body: &Rc<OwnedBlock<A>, A>,
    ) -> Result<StoredArticle<A>, AllocError>
        ensures { IfOk result (λ stored. text_stored stored ≡ record { head = head.now.value; body = body.now.value }) }
    {
        Ok(StoredArticle {
            head: head.clone()?,
            body: body.clone()?,
        })
    }
}

/// Copies lines into as much memory as they need, to be shared.
fn copied<A: Allocator + Copy, T: Allocator>(
    alloc: A,
    lines: &OwnedBlock<T>,
) -> Result<Rc<OwnedBlock<A>, A>, AllocError>
    ensures same { IfOk result (λ copy. copy.value ≡ lines.now) }
    ensures short { length lines.now < 2 ^ 64 }
{
    Ok(Rc::new(alloc, lines.as_block().to_owned(alloc)?)?)
}

/// Copies lines that have no NUL, CR or LF into one piece of memory.
fn joined<A: Allocator + Copy>(alloc: A, lines: &[Vec<u8, A>]) -> Result<OwnedBlock<A>, AllocError>
    requires { IsTrue (list_all is_line (held lines.now)) }
    ensures { IfOk result (λ block. block ≡ held lines.now) }
{
    let mut block = OwnedBlock::new(alloc);
    for line in lines {
        block.push(line.as_slice())?;
    }
    Ok(block)
}

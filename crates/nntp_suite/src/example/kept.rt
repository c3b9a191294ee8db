//! What is kept of the accepted answers, and the answer that is refused.
use crate::example::session::{CLIENT, ID, SERVER, SHORTER_CLIENT, SHORTER_SERVER, are_head_lines};
use nntp_facts::{Facts, ShownArticle};
use nntp_fixtures::{Stop, group_lines, note_all};
use nntp_pair::Class;
use nntp_wire::{Limit, Marks};
use std::process::Abort;
use std::test::Fail;

#[test]
fn answer_4_is_refused(rt: HostRuntime) {
    let noted = note_all(rt.alloc(), Limit::Narrow, Marks::Lenient, CLIENT, SERVER);
    let refused = Stop::Bad {
        answer: 4,
        class: Class::Contradiction,
    };
    assert!(rt; matches!(noted, Err(stop) if stop == refused));
}

/// Whether the article has this id and this head, of which a success told, and a body that none did.
fn is_the_article(article: &ShownArticle<'_>) -> bool {
    let Some(head) = article.head() else {
        return false;
    };
    article.id().as_str().as_bytes() == ID
        && article.is_sent()
        && article.body().is_none()
        && are_head_lines(head.as_block().lines())
}

/// One article is shown.
fn expect_articles(rt: &impl Abort, facts: &Facts) {
    let Some(article) = facts.article(0) else {
        panic!(rt; "no article");
    };
    assert!(rt; is_the_article(&article));
    assert!(rt; facts.article(1).is_none());
    assert!(rt; facts.mentions(ID));
    assert!(rt; !facts.mentions(b"<w0@invented.invalid>"));
}

/// The number 2 is shown with its id, and 1 is given beside it.
#[test]
fn the_others_are_kept(rt: HostRuntime) -> Result<(), Fail> {
    let alloc = rt.alloc();
    let (client, server) = (SHORTER_CLIENT, SHORTER_SERVER);
    let Ok(whole) = note_all(alloc, Limit::Narrow, Marks::Lenient, client, server) else {
        return Err("an answer is refused".into());
    };
    assert!(rt; whole.answers == 5 && whole.class.is_none());
    let lines = group_lines(alloc, &whole.facts)?;
    assert_eq!(rt; lines.as_str(), "misc.test 2<a@x> unseen 1\n");
    expect_articles(&rt, &whole.facts);
    Ok(())
}

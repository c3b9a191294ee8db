//! The codes that fit a prompt (RFC 3977, sections 3.2, 5, 6 and 7.6).
ghost use Rattle.std.specs.Prelude.{◌≡◌, ◌∷◌, [], is_some};
ghost use Rattle.nntp_wire.specs.Answer.{overview_code, success_code};
ghost use Rattle.nntp_wire.specs.Inner.View.{asked, request, target, overviewed};
ghost use Rattle.nntp_article.specs.Session.Machine.{none_in_range};
ghost use Rattle.nntp_article.specs.Session.Misfit.{codes_if_selected, retrieve_codes, over_codes, command_codes, allowed_codes, code_misfit};
ghost use Rattle.nntp_article.specs.Inner.MisfitView.{why};

use crate::session::misfit::Misfit;
use crate::session::visible::Visible;
use nntp_wire::{Command, OverviewKeyword, Prompt, What, Which, WhichArticles};
use std::alloc::Allocator;

/// These codes where a group is selected, and else 412.
fn codes_if_selected(is_selected: bool, codes: &'static [u64]) -> &'static [u64]
    ensures { result.now ≡ codes_if_selected is_selected codes.now }
{
    if is_selected { codes } else { &[412] }
}

/// The code of success, and 430.
fn codes_by_id(what: What) -> &'static [u64]
    ensures { result.now ≡ success_code what ∷ 430 ∷ [] }
{
    match what {
        What::Article => &[220, 430],
        What::Head => &[221, 430],
        What::Body => &[222, 430],
        What::Stat => &[223, 430],
    }
}

/// The code of success, and 423.
fn codes_by_number(what: What) -> &'static [u64]
    ensures { result.now ≡ success_code what ∷ 423 ∷ [] }
{
    match what {
        What::Article => &[220, 423],
        What::Head => &[221, 423],
        What::Body => &[222, 423],
        What::Stat => &[223, 423],
    }
}

/// The code of success, and 420.
fn codes_by_current(what: What) -> &'static [u64]
    ensures { result.now ≡ success_code what ∷ 420 ∷ [] }
{
    match what {
        What::Article => &[220, 420],
        What::Head => &[221, 420],
        What::Body => &[222, 420],
        What::Stat => &[223, 420],
    }
}

/// The codes that fit ARTICLE, HEAD, BODY and STAT.
fn retrieve_codes(is_selected: bool, what: What, which: &Which<'_>) -> &'static [u64]
    ensures { result.now ≡ retrieve_codes is_selected what (target which.now) }
{
    match which {
        Which::Id(_) => codes_by_id(what),
        Which::Number(None) => codes_if_selected(is_selected, &[423]),
        Which::Number(Some(_)) => codes_if_selected(is_selected, codes_by_number(what)),
        Which::Current => codes_if_selected(is_selected, codes_by_current(what)),
    }
}

/// The code of success, and those by which a range has no article.
fn codes_by_range(keyword: OverviewKeyword) -> &'static [u64]
    ensures { result.now ≡ overview_code keyword ∷ none_in_range keyword }
{
    match keyword {
        OverviewKeyword::Over => &[224, 423],
        OverviewKeyword::Xover => &[224, 420, 423],
        OverviewKeyword::Hdr => &[225, 423],
        OverviewKeyword::Xhdr => &[221, 420, 423],
    }
}

/// The code of success, and that by which an id has no article.
fn overview_codes_by_id(keyword: OverviewKeyword) -> &'static [u64]
    ensures { result.now ≡ overview_code keyword ∷ 430 ∷ [] }
{
    match keyword {
        OverviewKeyword::Over | OverviewKeyword::Xover => &[224, 430],
        OverviewKeyword::Hdr => &[225, 430],
        OverviewKeyword::Xhdr => &[221, 430],
    }
}

/// The code of success, and that by which there is no current article.
fn overview_codes_by_current(keyword: OverviewKeyword) -> &'static [u64]
    ensures { result.now ≡ overview_code keyword ∷ 420 ∷ [] }
{
    match keyword {
        OverviewKeyword::Over | OverviewKeyword::Xover => &[224, 420],
        OverviewKeyword::Hdr => &[225, 420],
        OverviewKeyword::Xhdr => &[221, 420],
    }
}

/// The codes that fit OVER, XOVER, HDR and XHDR.
fn over_codes(
    is_selected: bool,
    keyword: OverviewKeyword,
    which: &WhichArticles<'_>,
) -> &'static [u64]
    ensures { result.now ≡ over_codes is_selected keyword (overviewed which.now) }
{
    match which {
        WhichArticles::Id(_) => overview_codes_by_id(keyword),
        WhichArticles::Range(_) => codes_if_selected(is_selected, codes_by_range(keyword)),
        WhichArticles::Current => {
            codes_if_selected(is_selected, overview_codes_by_current(keyword))
        }
    }
}

/// The codes that fit a command.
fn command_codes(is_selected: bool, command: &Command<'_>) -> &'static [u64]
    ensures { result.now ≡ command_codes is_selected (request command.now) }
{
    match command {
        Command::Capabilities => &[101],
        Command::ModeReader => &[200, 201],
        Command::Quit => &[205],
        Command::Group(_) => &[211, 411],
        Command::ListGroup { group: None, .. } => codes_if_selected(is_selected, &[211]),
        Command::ListGroup { group: Some(_), .. } => &[211, 411],
        Command::Next => codes_if_selected(is_selected, &[223, 420, 421]),
        Command::Last => codes_if_selected(is_selected, &[223, 420, 422]),
        Command::Retrieve { what, which } => retrieve_codes(is_selected, *what, which),
        Command::ListActive(_) => &[215],
        Command::Over { keyword, which } => over_codes(is_selected, *keyword, which),
        Command::Opaque => &[381],
        Command::IllFormed => &[],
    }
}

impl<A: Allocator> Visible<A> {
    /// The codes that fit a prompt, generic failures to a command aside.
    fn allowed_codes(&self, prompt: &Prompt<'_>) -> &'static [u64]
        ensures { result.now ≡ allowed_codes self.now (asked prompt.now) }
    {
        match prompt {
            Prompt::Greeting => &[200, 201, 400, 502],
            Prompt::To(command) => command_codes(self.is_selected(), command),
        }
    }

    /// The reason that the code of the answer is at fault.
    pub(crate) fn code_misfit(&self, prompt: &Prompt<'_>, code: u64) -> Misfit<'static>
        ensures { why result ≡ code_misfit self.now (asked prompt.now) code }
    {
        Misfit::WrongCode {
            code,
            allowed: self.allowed_codes(prompt),
        }
    }
}

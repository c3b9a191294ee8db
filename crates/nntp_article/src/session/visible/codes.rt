//! Answers of a code alone.
ghost use Rattle.std.specs.Prelude.{◌≡◌, ◌==◌, ◌&&◌, ◌||◌, is_none, is_some};
ghost use Rattle.nntp_wire.specs.Answer.{plain};
ghost use Rattle.nntp_wire.specs.Command.{over};
ghost use Rattle.nntp_wire.specs.Inner.View.{asked, request, overviewed};
ghost use Rattle.nntp_article.specs.Session.Machine.{code_fits, fits, is_generic, is_one_of, none_in_range};

use crate::session::profile::Profile;
use crate::session::visible::Visible;
use nntp_wire::{Command, OverviewKeyword, Prompt, Which, WhichArticles};
use std::alloc::Allocator;

/// Whether the code is a generic failure, which any command may be answered with (RFC 3977, section
/// 3.2.1).
pub fn is_generic_failure(code: u64) -> bool
    ensures { result ≡ is_generic code }
{
    matches!(
        code,
        400 | 401 | 403 | 480 | 483 | 500 | 501 | 502 | 503 | 504
    )
}

/// Whether the code tells that a range has no article.
fn is_none_in_range(keyword: OverviewKeyword, code: u64) -> bool
    ensures { result ≡ is_one_of (none_in_range keyword) code }
{
    match keyword {
        OverviewKeyword::Over | OverviewKeyword::Hdr => code == 423,
        OverviewKeyword::Xover | OverviewKeyword::Xhdr => code == 420 || code == 423,
    }
}

impl<A: Allocator> Visible<A> {
    /// Whether an answer of this code alone fits.
    pub(crate) fn fits_plain(&self, prompt: &Prompt<'_>, code: u64) -> bool
        ensures { (profile : Profile) → result ≡ fits profile self.now (asked prompt.now) (plain code) }
    {
        match prompt {
            Prompt::Greeting => matches!(code, 200 | 201 | 400 | 502),
            Prompt::To(command) => is_generic_failure(code) || self.fits_code(command, code),
        }
    }

    /// Whether the code, where it is no generic failure, fits the command.
    fn fits_code(&self, command: &Command<'_>, code: u64) -> bool
        ensures { result ≡ code_fits self.now (request command.now) code }
    {
        match command {
            Command::Capabilities => code == 101,
            Command::ModeReader => code == 200 || code == 201,
            Command::Quit => code == 205,
            Command::Group(_) => code == 411,
            Command::ListGroup { group: None, .. } => code == 412 && !self.is_selected(),
            Command::ListGroup { group: Some(_), .. } => code == 411,
            Command::Next => self.fits_selected(code, code == 420 || code == 421),
            Command::Last => self.fits_selected(code, code == 420 || code == 422),
            Command::Retrieve { which, .. } => match which {
                Which::Id(_) => code == 430,
                Which::Number(_) => self.fits_selected(code, code == 423),
                Which::Current => self.fits_selected(code, code == 420),
            },
            Command::Over { keyword, which } => self.fits_over(*keyword, which, code),
            Command::Opaque => code == 381 || code < 300 || code >= 400,
            _ => false,
        }
    }

    /// Whether the code, where it is no generic failure, fits OVER, XOVER, HDR or XHDR.
    fn fits_over(&self, keyword: OverviewKeyword, which: &WhichArticles<'_>, code: u64) -> bool
        ensures { result ≡ code_fits self.now (over keyword (overviewed which.now)) code }
    {
        match which {
            WhichArticles::Id(_) => code == 430,
            WhichArticles::Range(_) => self.fits_selected(code, is_none_in_range(keyword, code)),
            WhichArticles::Current => self.fits_selected(code, code == 420),
        }
    }

    /// Whether the code tells that no group is selected, where none is, or else that the selected one lacks an article.
    fn fits_selected(&self, code: u64, tells_lack: bool) -> bool
        ensures { result ≡ ((code == 412 && is_none self.now.selected) || (tells_lack && is_some self.now.selected)) }
    {
        if self.is_selected() {
            return tells_lack;
        }
        code == 412
    }
}

//! The marks of a 211 (RFC 3977, section 6.1.1).
ghost use Rattle.std.specs.Prelude.{◌≡◌};
ghost use Rattle.nntp_article.specs.Session.Machine.{are_zeros};
ghost use Rattle.nntp_article.specs.Session.Misfit.{marks_misfit};
ghost use Rattle.nntp_article.specs.Inner.MisfitView.{why_if};

use crate::session::misfit::Misfit;
use crate::session::profile::Profile;
use crate::session::visible::Visible;
use nntp_wire::WaterMarks;
use std::alloc::Allocator;

/// Whether all three numbers are zero.
pub(crate) fn are_zeros(marks: WaterMarks) -> bool
    ensures { result ≡ are_zeros marks }
{
    marks.estimate == 0 && marks.low == 0 && marks.high == 0
}

impl<A: Allocator> Visible<A> {
    /// Why the marks don't fit, if they don't.
    pub(crate) fn marks_misfit<'a>(
        &self,
        profile: Profile,
        name: &'a [u8],
        marks: WaterMarks,
    ) -> Option<Misfit<'a>>
        ensures { why_if result ≡ marks_misfit profile self.now name.now marks }
    {
        if are_zeros(marks) {
            return None;
        }
        let WaterMarks {
            estimate,
            low,
            high,
        } = marks;
        if low < 1 {
            return Some(Misfit::WrongMarks(name));
        }
        if high > profile.limit {
            return Some(Misfit::BeyondLimit(high));
        }
        if low - 1 > high || estimate > high - (low - 1) {
            return Some(Misfit::WrongMarks(name));
        }
        let earlier = self.low(name).unwrap_or(0);
        if earlier > low {
            return Some(Misfit::BelowLow(earlier));
        }
        None
    }
}

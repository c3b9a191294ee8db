//! Laws of captures: octets are pieces, one after the other, in one way. And those of verdicts.
ghost use Rattle.std.specs.Prelude.{◌≡◌, ◌++◌, ◌⊎◌, ◌↔◌, [], ℕ, Bool, List, false};
ghost use Rattle.nntp_check.specs.Capture.{AreCapture, BeginsCapture, Captured, IsBadPieceForGood, IsBadPiece, IsCapture, IsPiece, Part, spelled};
ghost use Rattle.nntp_check.specs.Report.{report_of};
ghost use Rattle.nntp_check.specs.Run.{CheckReports};
ghost use Rattle.nntp_verdict.specs.Judging.{IsVerdict};
ghost use Rattle.nntp_verdict.specs.Verdict.{Judgement};
ghost use Rattle.nntp_verdict.specs.Inner.Verdict.{is_consistent, verdict_of_one};
ghost use Rattle.nntp_wire.specs.declared.limit.Limit.{Limit};
ghost use Rattle.nntp_wire.specs.declared.marks.Marks.{Marks};
ghost use Rattle.nntp_wire.specs.declared.overviews.Overviews.{Overviews};
ghost use Rattle.nntp_wire.specs.Session.{taken};

pub use nntp_verdict::laws::{
    bad_for_good_stays, one_is_told_bad, one_verdict, yes_where_a_spool_explains,
};

/// Octets begin with one piece.
pub fn one_first_piece()
    ensures { (piece other : Part) (rest more : List ℕ) → IsPiece piece → IsPiece other
        → spelled piece ++ rest ≡ spelled other ++ more → (piece ≡ other) × (rest ≡ more) }
{}

/// Octets are a capture or have a first bad piece.
pub fn capture_or_bad_piece()
    ensures { (octets : List ℕ) → IsCapture octets ⊎ ((number : ℕ) × IsBadPiece octets number) }
{}

/// No octets are a capture and have a bad piece.
pub fn never_both()
    ensures { (octets : List ℕ) (number : ℕ) → IsCapture octets → ¬ (IsBadPiece octets number) }
{}

/// Octets are one capture.
pub fn one_capture()
    ensures { (octets : List ℕ) (captured other : Captured) → AreCapture octets captured → AreCapture octets other → captured ≡ other }
{}

/// One piece is the first that is bad.
pub fn one_bad_piece()
    ensures { (octets : List ℕ) (number other : ℕ) → IsBadPiece octets number → IsBadPiece octets other → number ≡ other }
{}

/// Octets begin a capture, or a piece of theirs is bad whatever follows.
pub fn begun_or_bad()
    ensures { (octets : List ℕ) → BeginsCapture octets ⊎ ((number : ℕ) × IsBadPieceForGood octets number) }
{}

/// A piece that is bad whatever follows stays bad, and the octets begin no capture.
pub fn bad_piece_for_good()
    ensures { (octets : List ℕ) (number : ℕ) → IsBadPieceForGood octets number → ((more : List ℕ) → IsBadPieceForGood (octets ++ more) number)
        × (¬ (BeginsCapture octets)) }
{}

/// Where no piece of a capture begins a session, there is one, and the report of `check` is that of the verdict on its two
/// streams.
pub fn one_session_is_reported_alone()
    ensures alone { (octets : List ℕ) (c : Captured) → AreCapture octets c → c.is_several ≡ false → c.held.ended ≡ [] }
    ensures report { (limit : Limit) (marks : Marks) (overviews : Overviews) (c : Captured) (verdict : Judgement) (text : List ℕ) (answer : Bool)
        → c.is_several ≡ false → c.held.ended ≡ []
        → IsVerdict limit marks (taken overviews c.held.last.session.client.octets) c.held.last.session.server verdict
        → CheckReports limit marks overviews c text answer ↔ ((text ≡ report_of false [] (verdict_of_one verdict)) × (answer ≡ is_consistent verdict)) }
{}

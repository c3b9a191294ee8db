//! Texts of spools that more than one session is put to.

/// Nothing at all.
pub(crate) const NOTHING: &str = "spool 1\nend\n";

/// A group without numbers.
pub(crate) const EMPTY_GROUP: &str = "spool 1\ngroup g 0\nend\n";

/// An invented id at 1.
pub(crate) const ONE_INVENTED: &str =
    "spool 1\ngroup g 1\n1 <w0@invented.invalid>\narticle <w0@invented.invalid> 1 0\n|Message-ID: <w0@invented.invalid>\nend\n";

/// An invented id at 1, and one that was shown at 4.
pub(crate) const TWO_NUMBERS: &str =
    "spool 1\ngroup g 2\n1 <w0@invented.invalid>\n4 <b@x>\narticle <b@x> 1 0\n|Message-ID: <b@x>\narticle <w0@invented.invalid> 1 0\n\
    |Message-ID: <w0@invented.invalid>\nend\n";

/// The first of both numbers is 2.
pub(crate) const FROM_TWO_ON: &str =
    "spool 1\ngroup g 2\n2 <w0@invented.invalid>\n4 <b@x>\narticle <b@x> 1 0\n|Message-ID: <b@x>\narticle <w0@invented.invalid> 1 0\n\
    |Message-ID: <w0@invented.invalid>\nend\n";

/// The first of both numbers is 3.
pub(crate) const FROM_THREE_ON: &str =
    "spool 1\ngroup g 2\n3 <w0@invented.invalid>\n4 <b@x>\narticle <b@x> 1 0\n|Message-ID: <b@x>\narticle <w0@invented.invalid> 1 0\n\
    |Message-ID: <w0@invented.invalid>\nend\n";

/// Another id at 4.
pub(crate) const OTHER_ID: &str =
    "spool 1\ngroup g 2\n1 <w0@invented.invalid>\n4 <c@x>\narticle <c@x> 1 0\n|Message-ID: <c@x>\narticle <w0@invented.invalid> 1 0\n\
    |Message-ID: <w0@invented.invalid>\nend\n";

/// The second id that may be invented.
pub(crate) const SECOND_INVENTED: &str =
    "spool 1\ngroup g 2\n1 <w1@invented.invalid>\n4 <b@x>\narticle <b@x> 1 0\n|Message-ID: <b@x>\narticle <w1@invented.invalid> 1 0\n\
    |Message-ID: <w1@invented.invalid>\nend\n";

/// The numbers 2 and 4, each with an invented id.
pub(crate) const BOTH_INVENTED: &str =
    "spool 1\ngroup g 2\n2 <w0@invented.invalid>\n4 <w1@invented.invalid>\narticle <w0@invented.invalid> 1 0\n|Message-ID: <w0@invented.invalid>\n\
    article <w1@invented.invalid> 1 0\n|Message-ID: <w1@invented.invalid>\nend\n";

/// The numbers 2 and 4, each with an id that was shown.
pub(crate) const TWO_AND_FOUR: &str =
    "spool 1\ngroup g 2\n2 <a@x>\n4 <b@x>\narticle <a@x> 1 0\n|Message-ID: <a@x>\narticle <b@x> 1 0\n|Message-ID: <b@x>\nend\n";

/// The number 1 alone.
pub(crate) const ONE: &str =
    "spool 1\ngroup g 1\n1 <a@b>\narticle <a@b> 1 0\n|Message-ID: <a@b>\nend\n";

/// The number 3 alone.
pub(crate) const THREE: &str =
    "spool 1\ngroup g 1\n3 <a@b>\narticle <a@b> 1 0\n|Message-ID: <a@b>\nend\n";

/// The number 4 alone.
pub(crate) const FOUR: &str =
    "spool 1\ngroup g 1\n4 <b@x>\narticle <b@x> 1 0\n|Message-ID: <b@x>\nend\n";

/// The numbers 1 and 2.
pub(crate) const ONE_AND_TWO: &str =
    "spool 1\ngroup g 2\n1 <a@b>\n2 <b@x>\narticle <a@b> 1 0\n|Message-ID: <a@b>\narticle <b@x> 1 0\n|Message-ID: <b@x>\nend\n";

/// The greatest article number.
pub(crate) const GREATEST: &str =
    "spool 1\ngroup g 1\n2147483647 <m@x>\narticle <m@x> 1 0\n|Message-ID: <m@x>\nend\n";

/// One article, at 1 in a group and at 9 in another.
pub(crate) const TWO_GROUPS: &str =
    "spool 1\ngroup g 1\n1 <a@b>\ngroup h 1\n9 <a@b>\narticle <a@b> 1 0\n|Message-ID: <a@b>\nend\n";

/// Two groups without numbers.
pub(crate) const EMPTY_GROUPS: &str = "spool 1\ngroup g 0\ngroup h 0\nend\n";

/// Another group without numbers.
pub(crate) const OTHER_GROUP: &str = "spool 1\ngroup h 0\nend\n";

/// A body whose lines begin with dots.
pub(crate) const DOTTED_BODY: &str =
    "spool 1\narticle <a@b> 1 3\n|Message-ID: <a@b>\n|.\n|..x\n|\nend\n";

/// An article whose head says no id.
pub(crate) const SUBJECT: &str = "spool 1\narticle <a@b> 1 0\n|Subject: one\nend\n";

/// The same article with a body.
pub(crate) const SUBJECT_AND_TEXT: &str = "spool 1\narticle <a@b> 1 1\n|Subject: one\n|text\nend\n";

/// A header of two lines.
pub(crate) const CONTROL: &str =
    "spool 1\narticle <c@x> 3 0\n|Control: cancel\n| <a@b>\n|Message-ID: <c@x>\nend\n";

/// An article of which the id alone is known.
pub(crate) const ID_ALONE: &str = "spool 1\narticle <a@b> 1 0\n|Message-ID: <a@b>\nend\n";

//! The ways in which what is said of a group stands to what is kept of it.
ghost use Rattle.std.specs.Prelude.{◌≡◌, ◌≢◌};
ghost use Rattle.nntp_kept.specs.{Inner.Kept.{joins_at_all}, declared.joins.Joins.TheVariants.{Again}};

/// The way in which what is said of a group stands to what is kept of it.
#[derive(Clone, Copy)]
pub(crate) enum Joins {
    /// What is said contradicts what is kept.
    Never,
    /// What is said is kept already.
    Again,
    /// What is said joins what is kept, and may say more.
    New,
}

impl Joins {
    /// Tells whether what is said joins what is kept at all.
    pub(crate) fn at_all(self) -> bool
        ensures { result ≡ joins_at_all self }
    {
        !matches!(self, Joins::Never)
    }

    /// Returns how what isn't kept already joins, by whether it does.
    pub(crate) fn new_if(does: bool) -> Joins
        ensures at_all { joins_at_all result ≡ does }
        ensures new { result ≢ Again }
    {
        if does { Joins::New } else { Joins::Never }
    }
}

//! The demands on the first number of a group, where it isn't shown.
ghost use Rattle.std.specs.Prelude.{◌≡◌};
ghost use Rattle.nntp_theory.specs.{Given.{join, wants}, Inner.OneMore.{is_demanding}};

/// A demand on the first number of a group: what answers say of it where they don't show it.
#[derive(Clone, Copy, PartialEq, Eq)]
pub enum Demand {
    /// Nothing is said of the first number.
    NoDemand,
    /// There is a first number.
    NotEmpty,
    /// The first number is the only one.
    OnlyOne,
    /// There is a first number, and the next one above it is this.
    SecondIs(u64),
    /// What is said of the first number can't be.
    Impossible,
}

impl Demand {
    /// Joins two demands into one that says what both say.
    pub fn join(self, other: Demand) -> Demand
        ensures { result ≡ join self other }
    {
        match (self, other) {
            (Demand::NoDemand, demand) => demand,
            (Demand::Impossible, _) => Demand::Impossible,
            (demand, Demand::NoDemand) => demand,
            (Demand::NotEmpty, demand) => demand,
            (demand, Demand::NotEmpty) => demand,
            (Demand::OnlyOne, Demand::OnlyOne) => Demand::OnlyOne,
            (Demand::SecondIs(m), Demand::SecondIs(k)) if m == k => Demand::SecondIs(m),
            _ => Demand::Impossible,
        }
    }

    /// Tells whether the number would do as the first one.
    pub fn wants(self, n: u64) -> bool
        ensures { result ≡ wants self n }
    {
        match self {
            Demand::NotEmpty | Demand::OnlyOne => true,
            Demand::SecondIs(k) => n < k,
            _ => false,
        }
    }

    /// Tells whether it is said that there is a number.
    pub fn is_some(self) -> bool
        ensures { result ≡ is_demanding self }
    {
        !matches!(self, Demand::NoDemand)
    }
}

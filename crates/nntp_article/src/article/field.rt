//! The four headers that an overview tells of (RFC 3977, section 8.3.2).
ghost use Rattle.std.specs.Prelude.{◌≡◌};
ghost use Rattle.nntp_article.specs.Article.Fields.{name_of_field};

/// A header that an overview tells of.
#[derive(Clone, Copy, PartialEq, Eq)]
pub enum Field {
    /// What the article is about (RFC 1036, section 2.1.4).
    Subject,
    /// Who wrote it (RFC 1036, section 2.1.1).
    From,
    /// When it was posted (RFC 1036, section 2.1.2).
    Date,
    /// The message-ids of those that it answers (RFC 1036, section 2.2.5).
    References,
}

impl Field {
    /// The name of the header, without the colon.
    pub fn name(self) -> &'static str
        ensures { result.now ≡ name_of_field self }
    {
        match self {
            Field::Subject => "Subject",
            Field::From => "From",
            Field::Date => "Date",
            Field::References => "References",
        }
    }
}

//! Laws of the definitions of heads and parts (RFC 3977, section 3.6).
ghost use Rattle.std.specs.Prelude.{◌≡◌, ◌↔◌, IsTrue, List};
ghost use Rattle.std.specs.List.{list_any};
ghost use Rattle.nntp_article.specs.Article.Parts.{Line, Header, is_empty, headers, is_head, head_part, body_part};
ghost use Rattle.nntp_article.specs.Article.Fields.{field_lines, fields_of_head};
ghost use Rattle.nntp_wire.specs.Listing.{Fields};
ghost use Rattle.nntp_article.specs.Inner.Fields.{AreWords};
ghost use Rattle.nntp_article.specs.Inner.Parts.{AreHeaders, AreParts};

/// Lines are a head exactly if they are one or more headers, one after the other: its headers.
pub fn head_is_its_headers()
    ensures { (lines : List Line) → IsTrue (is_head lines) ↔ AreHeaders lines (headers lines) }
{}

/// Lines are headers, one after the other, in one way at most.
pub fn headers_are_one_way()
    ensures { (lines : List Line) (found : List Header) → AreHeaders lines found → found ≡ headers lines }
{}

/// Lines have parts exactly where one of them is empty, and the head and the body round the first
/// empty line are their only parts.
pub fn parts_are_one_way()
    ensures { (lines head body : List Line) → AreParts lines head body
        ↔ (IsTrue (list_any is_empty lines) × (head ≡ head_part lines) × (body ≡ body_part lines)) }
{}

/// The lines of a head that is made of the words of four headers tell these words.
pub fn field_lines_tell_their_fields()
    ensures { (fields : Fields) → AreWords fields → fields_of_head (field_lines fields) ≡ fields }
{}

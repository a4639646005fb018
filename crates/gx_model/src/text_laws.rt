//! Laws of the texts in a stream: numbers, ref names, identities and paths.
ghost use Rattle.gx_model.specs.Laws.TextLaws.{DecimalsAreRead, IdentsAreLines, IdentsAreRead, PartsAreJoined, PathsAreBytes, PathsAreRead, PathsAreRefused, PrintedPathsAreLines, PrintedPathsAreRead, QuotedPathsAreRead, QuotedPathsAreRefused, QuotedTextsAreRead, RefNamesAreLines, TagNamesAreLines};

/// The decimal text of a number below 2^64 is read as this number.
#[tactic(auto, using(crate::proofs::Texts::Decimals::decimal_read))]
pub fn decimals_are_read()
    ensures number { DecimalsAreRead }
{}

/// The test that reads an identity from the left accepts a text exactly where it is a name, an email and a date.
#[tactic(auto, using(crate::proofs::Texts::Idents::ident_tells))]
pub fn idents_are_read()
    ensures ident { IdentsAreRead }
{}

/// No line feed stands in an identity, in a ref name or in a tag's name, so each can stand in a line.
#[tactic(auto, using(crate::proofs::Texts::LineTexts::ident_is_line, crate::proofs::Texts::LineTexts::ref_is_line, crate::proofs::Texts::LineTexts::tag_is_line))]
pub fn names_are_lines()
    ensures ident { IdentsAreLines }
    ensures ref_name { RefNamesAreLines }
    ensures tag_name { TagNamesAreLines }
{}

/// A text is read as the path whose components, joined by slashes, are the text. It is refused as BadPath exactly where no
/// proper components make it, and as PathTooLong where they do but the text has more than 4,095 bytes. Proper components, and
/// so the text of a path, are bytes.
#[tactic(auto, using(crate::proofs::Texts::PathTexts::text_of_parts, crate::proofs::Texts::PathTexts::path_tells, crate::proofs::Texts::PathTexts::path_bytes))]
pub fn paths_are_read()
    ensures joined { PartsAreJoined }
    ensures path { PathsAreRead }
    ensures fault { PathsAreRefused }
    ensures bytes { PathsAreBytes }
{}

/// A quoted path is a text between quotes, written byte by byte, that is the text of a path. It is refused as BadPath where no
/// such text stands at the front, and otherwise as its text is.
pub fn quoted_paths_are_read()
    ensures text { QuotedTextsAreRead }
    ensures path { QuotedPathsAreRead }
    ensures fault { QuotedPathsAreRefused }
{}

/// A printed path holds no line feed, and read as the last field of a line it is the path again.
#[tactic(auto, using(crate::proofs::Texts::LineTexts::printed_is_line, crate::proofs::Texts::Quotes::path_printed))]
pub fn printed_paths_are_read()
    ensures line { PrintedPathsAreLines }
    ensures path { PrintedPathsAreRead }
{}

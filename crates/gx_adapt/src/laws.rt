//! Laws of adapted streams.

ghost use Rattle.gx_adapt.specs.Laws.{BlocksAreKept, OtherBlocksAreKept, QuotedPathsAreKept, QuotedSourcesAreKept};

/// The blocks of an adapted stream are those of the stream; where signatures are dropped, those that aren't signatures.
#[tactic(auto, using(crate::proofs::Counts::blocks_kept, crate::proofs::Counts::others_kept))]
pub fn blocks_are_kept()
    ensures blocks { BlocksAreKept }
    ensures others { OtherBlocksAreKept }
{}

/// A path that was put in quotes is read as the path of the bytes that stood there. No NUL may be in it, as in any path.
#[tactic(auto, using(crate::proofs::QuotedPaths::quoted_kept, crate::proofs::QuotedPaths::source_kept))]
pub fn quoted_paths_are_kept()
    ensures path { QuotedPathsAreKept }
    ensures source { QuotedSourcesAreKept }
{}

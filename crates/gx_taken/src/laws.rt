//! Laws of what is taken.

ghost use Rattle.gx_taken.specs.Laws.{WhereTaken};

/// Where all is taken, the objects are those that are placed, each ref that is told of holds what is told of it last, and each other
/// what it held. Source: gitglossary(7), "ref".
#[tactic(auto, using(crate::proofs::LastRefs::where_taken))]
pub fn last_refs_win()
    ensures { WhereTaken }
{}

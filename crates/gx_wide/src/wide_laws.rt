//! Laws of wide bodies and repositories.

ghost use Rattle.gx_model.specs.Objects.{ForEachNamer};
ghost use Rattle.gx_wide.specs.WideLaws.{BodiesAreWide, SoundIsWide};

/// What a repository holds is among what Git has: the body of a commit by identities with a message, or of a tag of a commit
/// without further headers, is a wide one of the same parts, and a sound repository is a wide one. Source: gitglossary(7),
/// "commit object" and "tag object".
#[tactic(auto, using(crate::proofs::Widened::bodies_are_wide, crate::proofs::Widened::sound_is_wide))]
pub fn sound_is_wide()
    ensures bodies { BodiesAreWide }
    ensures repositories { ForEachNamer SoundIsWide }
{}

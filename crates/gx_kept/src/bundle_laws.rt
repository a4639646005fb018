//! A law of bundles: what who reads one has then.

ghost use Rattle.gx_model.specs.Objects.{ForEachNamer};
ghost use Rattle.gx_kept.specs.BundleLaws.{PacksAreWhole};

/// Who has the objects that a bundle tells to be had, and with each object those that it names, has with the bundle's objects all that
/// its refs reach: each of these objects, and those that it names.
///
/// Source: git-bundle(1), gitformat-bundle(5), and gitglossary(7), "reachable".
#[tactic(auto, using(crate::proofs::WholePacks::packs_are_whole))]
pub fn packs_are_whole()
    ensures { ForEachNamer PacksAreWhole }
{}

//! What range words have a bundle tell. Source: git-bundle(1), and gitrevisions(7), "Specifying Ranges".

ghost use Rattle.std.specs.Prelude.{◌≡◌, IfOk, IfSome, map};
ghost use Rattle.std.specs.List.{flat_map};
ghost use Rattle.gx_model.specs.Stores.StoreText.{stored_ref};
ghost use Rattle.gx_objects.specs.Answers.{SpellsRefs};
ghost use Rattle.gx_rev.specs.Views.{shown_range};
ghost use Rattle.gx_kept.specs.Telling.{SpellsRefsOf};
ghost use Rattle.gx_bundled.specs.Excluded.{FindsExcluded, had_if};
ghost use Rattle.gx_bundled.specs.Named.{told_refs};

use crate::excluded::excluded;
use crate::lines::told_lines;
use gx_kept::Bundled;
use gx_object::Name;
use gx_objects::Objects;
use gx_ranges::RangeFault;
use gx_ref_lines::RefLines;
use gx_rev::Range;
use std::alloc::Allocator;

/// What a bundle tells: the lines of its refs, and the commits that its reader has.
#[derive(Drop)]
pub struct Told<A: Allocator> {
    pub refs: Vec<u8, A>,
    pub had: Vec<Name, A>,
}

impl<A: Allocator> Told<A> {
    /// What goes out of these objects, with its HEAD. Takes no memory.
    pub fn bundled<'t, O: Objects>(&'t self, _objects: &O, head: Option<Name>) -> Bundled<'t>
        requires spelled { SpellsRefs self.now.refs.items }
        requires held { IfSome (O.told _objects.now) (SpellsRefsOf self.now.refs.items) }
        ensures refs { result.refs.now ≡ self.now.refs.items }
        ensures head { result.head ≡ head }
        ensures had { result.had.now ≡ self.now.had.items }
        ensures spelled { SpellsRefs result.refs.now }
        ensures held { IfSome (O.told _objects.now) (SpellsRefsOf result.refs.now) }
    {
        Bundled {
            refs: self.refs.as_slice(),
            head,
            had: self.had.as_slice(),
        }
    }
}

/// What range words have a bundle tell: the refs as which commits are written that a word includes with all that they reach, or with
/// `all` every ref, and the commits that words exclude. A word names the first ref of the six names that it may stand for, and none
/// where a suffix or a path follows, or where it is an object's name. With `with_head`, HEAD is told otherwise, and no ref of that
/// name is told.
///
/// The first word that is refused is answered with its number and the fault of its revisions, or NoParent of `r^-n`.
/// OutOfMemory: a growth is refused. ReadFailed: a read failed. Damaged: this is no repository.
/// Cost: the refs' lines, for each word six look-ups among the refs, for each ref a comparison with each name that is found, and what
/// the revisions cost; for `a...b` besides the bodies of the commits that only one of them reaches. Takes memory for the refs.
/// Source: git-bundle(1), "SPECIFYING REFERENCES", and gitrevisions(7), "refname".
pub fn told_by<O: Objects, A: Allocator + Copy>(
    alloc: A,
    objects: &O,
    words: &[Range<A>],
    all: bool,
    with_head: bool,
) -> Result<Told<A>, RangeFault>
    ensures refs { IfOk result (λ told. IfSome (O.told objects.now) (λ r. told.refs.items
        ≡ flat_map stored_ref (told_refs all with_head (map shown_range words.now) r.refs))) }
    ensures spelled { IfOk result (λ told. SpellsRefs told.refs.items) }
    ensures held { IfOk result
        (λ told. IfSome (O.told objects.now) (SpellsRefsOf told.refs.items)) }
    ensures excluded { FindsExcluded (O.name_of objects.now) (O.told objects.now)
        (map shown_range words.now) (had_if result) }
{
    objects.sound_if_told();
    let mut room = Vec::new(alloc);
    let held = RefLines::read(alloc, objects.ref_lines(&mut room)?)?;
    let refs = told_lines(alloc, &held, words, all, with_head)?;
    let mut room = Vec::new(alloc);
    let had = excluded(alloc, objects, &mut room, words)?;
    Ok(Told { refs, had })
}

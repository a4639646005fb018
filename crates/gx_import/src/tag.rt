//! Tag commands. Source: git-fast-import(1), "tag".

ghost use Rattle.gx_import.specs.Asking.{AsksInVain, TellsVainIn};
ghost use Rattle.std.specs.Prelude.{◌≡◌, IfOk, None, Ok};
ghost use Rattle.gx_model.specs.declared.objects.Kind.TheVariants as kinds;
ghost use Rattle.gx_model.specs.Texts.RefNames.{tag_ref};
ghost use Rattle.gx_model.specs.Records.Sound.{Holds};
ghost use Rattle.gx_object.specs.Parts.{tag_parts as shown_parts};
ghost use Rattle.gx_command.specs.Views.{shown_tag};
ghost use Rattle.gx_import.specs.Objects.{tag_object};
ghost use Rattle.gx_import.specs.Standing.{OnlyAdds, StandsForSome};
ghost use Rattle.gx_import.specs.Calls.{AddsTagOf, InEach, Makes, NamesTagged};

use crate::commit::ident;
use crate::commit_ish::object_named;
use crate::object::{Object, name_of_kind};
use crate::tables::Tables;
use crate::{Asked, ImportKind};
use gx_command::{CommitIsh, Tag};
use gx_model::repository_laws::puts_add_values;
use gx_object::{Kind, Name, Namer, TagParts};
use gx_repo::Repo;
use std::alloc::{AllocError, Allocator};

/// Makes a tag object and its mark. A later tag of one name replaces an earlier one. A refusal tells what its `from` asks for.
pub(crate) fn apply_tag<N: Namer, A: Allocator + Copy>(
    repo: &mut Repo<N, A>,
    tables: &mut Tables<A>,
    tag: Tag<A>,
    asked: &mut Option<Asked<A>>,
) -> Result<(), ImportKind>
    requires stands { StandsForSome N.name_of repo.now tables.now }
    requires unasked { asked.now ≡ None }
    ensures branches { tables.new.branches ≡ tables.old.branches }
    ensures loaded { tables.new.loaded ≡ tables.old.loaded }
    ensures only { OnlyAdds repo.old repo.new }
    ensures steps { Makes N.name_of repo.old repo.new tables.old tables.new (shown_tag tag) result }
    ensures asked { InEach N.name_of repo.old tables.old
        (λ s. TellsVainIn (AsksInVain (N.name_of repo.old.0) s (shown_tag tag)) result asked.new) }
{
    match target(repo, tables, &tag.from) {
        Ok(target) => make_tag(repo, tables, &tag, target),
        Err(kind) => {
            *asked = Some(Asked::of_commit_ish(tag.from));
            Err(kind)
        }
    }
}

/// The commit of its `from`, which is a commit itself.
fn target<N: Namer, A: Allocator + Copy>(
    repo: &Repo<N, A>,
    tables: &Tables<A>,
    from: &CommitIsh<A>,
) -> Result<Name, ImportKind>
    ensures { NamesTagged N.name_of repo.now tables.now from.now result }
{
    name_of_kind(object_named(repo, tables, from)?, Kind::Commit)
}

/// Makes the tag object of this commit, and its mark.
fn make_tag<N: Namer, A: Allocator + Copy>(
    repo: &mut Repo<N, A>,
    tables: &mut Tables<A>,
    tag: &Tag<A>,
    target: Name,
) -> Result<(), ImportKind>
    requires stands { StandsForSome N.name_of repo.now tables.now }
    requires target { NamesTagged N.name_of repo.now tables.now tag.now.from (Ok target) }
    ensures branches { tables.new.branches ≡ tables.old.branches }
    ensures loaded { tables.new.loaded ≡ tables.old.loaded }
    ensures only { OnlyAdds repo.old repo.new }
    ensures steps { Makes N.name_of repo.old repo.new tables.old tables.new
        (shown_tag tag.now) result }
{
    repo.sound();
    let name = add(repo, target, tag)?;
    let kind = Kind::Tag;
    tables.marks.set(tag.mark, Object { kind, name })?;
    let tag_ref = tag_ref(tables.alloc, tag.name.bytes.as_slice())?;
    Ok(tables.tags.set(tag_ref, name)?)
}

/// Adds the tag of a commit.
fn add<N: Namer, A: Allocator + Copy>(
    repo: &mut Repo<N, A>,
    object: Name,
    tag: &Tag<A>,
) -> Result<Name, ImportKind>
    requires object { Holds repo.now.1.records kinds.Commit object.bytes }
    ensures only { OnlyAdds repo.old repo.new }
    ensures steps { AddsTagOf N.name_of repo.old repo.new object tag.now result }
{
    repo.sound();
    puts_add_values();
    Ok(repo.add_tag(&object_parts(object, tag))?)
}

/// The parts of a tag object.
fn object_parts<'a, A: Allocator + Copy>(object: Name, tag: &'a Tag<A>) -> TagParts<'a>
    ensures { shown_parts result ≡ tag_object object tag.now }
{
    let tagger = match &tag.tagger {
        Some(tagger) => Some(ident(tagger)),
        None => None,
    };
    TagParts {
        object,
        name: tag.name.bytes.as_slice(),
        tagger,
        message: tag.message.as_slice(),
    }
}

/// The ref of a tag.
fn tag_ref<A: Allocator + Copy>(alloc: A, name: &[u8]) -> Result<Vec<u8, A>, AllocError>
    ensures { IfOk result (λ made. made.items ≡ tag_ref name.now) }
{
    let mut tag_ref = Vec::from_slice(alloc, b"refs/tags/")?;
    tag_ref.extend_from_slice(name)?;
    Ok(tag_ref)
}

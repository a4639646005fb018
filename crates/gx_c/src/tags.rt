//! A field of a tag. Source: git-mktag(1), and Pro Git, "Git Internals", "Tags".

ghost use Rattle.std.specs.Prelude.{◌≡◌, IfOk};
ghost use Rattle.std.specs.List.{slice_get};
ghost use Rattle.gx_model.specs.Faults.{Gives};
ghost use Rattle.gx_model.specs.Records.HistoryOf.{history_of};
ghost use Rattle.gx_rev.specs.RevFaults.{fault_of};
ghost use Rattle.gx_c.specs.Answers.{AnswersText};
ghost use Rattle.gx_c.specs.Fields.{or_empty};
ghost use Rattle.gx_c.specs.Tags.{AnswersTag, tag_field_given, tag_fields, tag_given, tag_text};

use crate::answer::{Answer, Why};
use gx_object::{Namer, TagView};
use gx_repo::Repo;
use gx_rev::{RevFault, Revision, Shown, tag_of};
use std::alloc::{AllocError, Allocator};

/// A part of a tag.
#[derive(Clone, Copy, Debug, PartialEq, Eq, Drop)]
pub(crate) enum TagField {
    Target,
    Name,
    Tagger,
    Message,
}

/// A field of the tag that a text gives as a revision, by its number: 0 for the digits of the commit that it tags, 1 for its
/// own name, 2 for the tagger where one is told, and 3 for the message.
///
/// Refused, whatever the revision, where no field has the number; else by the first fault of the revision's text and of
/// what it gives, which has to be a tag: a commit is none, also where a tag names it. Cost: that of `Revision::eval`, and
/// the text's length.
pub(crate) fn tag_field<N: Namer, A: Allocator + Copy>(
    alloc: A,
    repo: &Repo<N, A>,
    revision: &[u8],
    number: u32,
) -> Answer<A>
    ensures { AnswersTag (N.name_of repo.now.0) (history_of repo.now.1)
        revision.now number result }
{
    match numbered(number) {
        Some(field) => field_of(alloc, repo, revision, field),
        None => Answer::refused(alloc, Why::Field, 0),
    }
}

/// The field of this number.
fn numbered(number: u32) -> Option<TagField>
    ensures { result ≡ slice_get tag_fields number }
{
    match number {
        0 => Some(TagField::Target),
        1 => Some(TagField::Name),
        2 => Some(TagField::Tagger),
        3 => Some(TagField::Message),
        _ => None,
    }
}

fn field_of<N: Namer, A: Allocator + Copy>(
    alloc: A,
    repo: &Repo<N, A>,
    revision: &[u8],
    field: TagField,
) -> Answer<A>
    ensures { AnswersText (tag_field_given (N.name_of repo.now.0) (history_of repo.now.1)
        revision.now field) result }
{
    match read_field(alloc, repo, revision, field) {
        Ok(text) => Answer::given(text, 0),
        Err(fault) => Answer::refused(alloc, Why::Revision(fault), 0),
    }
}

fn read_field<N: Namer, A: Allocator + Copy>(
    alloc: A,
    repo: &Repo<N, A>,
    revision: &[u8],
    field: TagField,
) -> Result<Vec<u8, A>, RevFault>
    ensures { Gives fault_of (λ text. text.items) result
        (tag_field_given (N.name_of repo.now.0) (history_of repo.now.1) revision.now field) }
{
    let tag = tag(alloc, repo, revision)?;
    Ok(tag_text(alloc, &tag, field)?)
}

/// The tag that a text gives as a revision, by its body.
fn tag<'a, N: Namer, A: Allocator + Copy>(
    alloc: A,
    repo: &'a Repo<N, A>,
    revision: &[u8],
) -> Result<TagView<'a>, RevFault>
    ensures { Gives fault_of (λ view. view) result
        (tag_given (N.name_of repo.now.0) (history_of repo.now.1) revision.now) }
{
    match Revision::eval_text(alloc, repo, revision)? {
        Shown::Object(_, name) => tag_of(repo, &name).ok_or(RevFault::WrongKind),
        Shown::Submodule(_) => Err(RevFault::WrongKind),
    }
}

/// The text of a field of a tag.
fn tag_text<A: Allocator + Copy>(
    alloc: A,
    tag: &TagView<'_>,
    field: TagField,
) -> Result<Vec<u8, A>, AllocError>
    ensures { IfOk result (λ text. text.items ≡ tag_text field tag.now) }
{
    match field {
        TagField::Target => Vec::from_slice(alloc, &tag.object().hex()),
        TagField::Name => Vec::from_slice(alloc, tag.name()),
        TagField::Tagger => Vec::from_slice(alloc, tagger_of(tag)),
        TagField::Message => Vec::from_slice(alloc, tag.message()),
    }
}

/// The tagger that a tag tells, or nothing.
fn tagger_of<'a>(tag: &TagView<'a>) -> &'a [u8]
    ensures { result.now ≡ or_empty tag.now.tagger }
{
    match tag.tagger() {
        Some(tagger) => tagger,
        None => b"",
    }
}

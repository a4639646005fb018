//! A field of a revision's commit. Source: git-log(1), "PRETTY FORMATS", and Pro Git, "Git Objects".

ghost use Rattle.std.specs.Prelude.{◌≡◌, ◌++◌, IfOk};
ghost use Rattle.std.specs.List.{flat_map, slice_get};
ghost use Rattle.gx_model.specs.Faults.{Gives};
ghost use Rattle.gx_model.specs.Records.HistoryOf.{history_of};
ghost use Rattle.gx_model.specs.Texts.Headers.{encoding_in};
ghost use Rattle.gx_rev.specs.RevFaults.{fault_of};
ghost use Rattle.gx_c.specs.Answers.{AnswersText, digits_line};
ghost use Rattle.gx_c.specs.Fields.{AnswersField, field_given, field_text, fields, or_empty};

use crate::answer::{Answer, Why};
use crate::asking::put_name;
use gx_object::{CommitView, Namer};
use gx_repo::Repo;
use gx_rev::{RevFault, Revision, commit};
use std::alloc::{AllocError, Allocator};

/// A part of a commit.
#[derive(Clone, Copy, Debug, PartialEq, Eq, Drop)]
pub(crate) enum Field {
    Tree,
    Parents,
    Author,
    Committer,
    Encoding,
    Message,
    Headers,
}

/// A field of the commit that a text gives as a revision, by its number: 0 for the digits of its tree, 1 for those of
/// its parents, each in a line, 2 for the author, 3 for the committer, 4 for the encoding of the message where one is
/// told, 5 for the message, and 6 for the header lines behind the committer's, as they stand.
///
/// Refused, whatever the revision, where no field has the number; else by the first fault of the revision's text and of
/// what it gives. Cost: that of `gx_rev::commit`, and the text's length.
pub(crate) fn commit_field<N: Namer, A: Allocator + Copy>(
    alloc: A,
    repo: &Repo<N, A>,
    revision: &[u8],
    number: u32,
) -> Answer<A>
    ensures { AnswersField (N.name_of repo.now.0) (history_of repo.now.1)
        revision.now number result }
{
    match numbered(number) {
        Some(field) => field_of(alloc, repo, revision, field),
        None => Answer::refused(alloc, Why::Field, 0),
    }
}

/// The field of this number.
fn numbered(number: u32) -> Option<Field>
    ensures { result ≡ slice_get fields number }
{
    match number {
        0 => Some(Field::Tree),
        1 => Some(Field::Parents),
        2 => Some(Field::Author),
        3 => Some(Field::Committer),
        4 => Some(Field::Encoding),
        5 => Some(Field::Message),
        6 => Some(Field::Headers),
        _ => None,
    }
}

fn field_of<N: Namer, A: Allocator + Copy>(
    alloc: A,
    repo: &Repo<N, A>,
    revision: &[u8],
    field: Field,
) -> Answer<A>
    ensures { AnswersText (field_given (N.name_of repo.now.0) (history_of repo.now.1)
        revision.now field) result }
{
    match read_field(alloc, repo, revision, field) {
        Ok(text) => Answer::given(text, 0),
        Err(fault) => Answer::refused(alloc, Why::Revision(fault), 0),
    }
}

fn read_field<N: Namer, A: Allocator + Copy>(
    alloc: A,
    repo: &Repo<N, A>,
    revision: &[u8],
    field: Field,
) -> Result<Vec<u8, A>, RevFault>
    ensures { Gives fault_of (λ text. text.items) result
        (field_given (N.name_of repo.now.0) (history_of repo.now.1) revision.now field) }
{
    let revision = Revision::read(alloc, revision)?;
    let commit = commit(repo, &revision)?;
    Ok(field_text(alloc, &commit, field)?)
}

/// The text of a field of a commit.
fn field_text<A: Allocator + Copy>(
    alloc: A,
    commit: &CommitView<'_>,
    field: Field,
) -> Result<Vec<u8, A>, AllocError>
    ensures { IfOk result (λ text. text.items ≡ field_text field commit.now) }
{
    match field {
        Field::Tree => Vec::from_slice(alloc, &commit.tree().hex()),
        Field::Parents => put_parents(alloc, commit),
        Field::Author => Vec::from_slice(alloc, commit.author()),
        Field::Committer => Vec::from_slice(alloc, commit.committer()),
        Field::Encoding => Vec::from_slice(alloc, encoding_of(commit)),
        Field::Message => Vec::from_slice(alloc, commit.message()),
        Field::Headers => Vec::from_slice(alloc, commit.headers()),
    }
}

/// The digits of the parents, each in a line.
fn put_parents<A: Allocator + Copy>(
    alloc: A,
    commit: &CommitView<'_>,
) -> Result<Vec<u8, A>, AllocError>
    ensures { IfOk result (λ text. text.items ≡ flat_map digits_line commit.now.parents) }
{
    let mut text = Vec::new(alloc);
    for place in 0..commit.parent_count() {
        if let Some(parent) = commit.parent(place) {
            put_name(&mut text, &parent)?;
        }
    }
    Ok(text)
}

/// The encoding that a commit tells, or nothing.
fn encoding_of<'a>(commit: &CommitView<'a>) -> &'a [u8]
    ensures { result.now ≡ or_empty (encoding_in commit.now.text.headers) }
{
    match commit.encoding() {
        Some(encoding) => encoding,
        None => b"",
    }
}

//! What is asked of a repository. Source: gitrevisions(7), git-cat-file(1), git-show-ref(1) and git-rev-list(1).

ghost use Rattle.std.specs.Prelude.{◌≡◌, ◌++◌, IfOk, Ok, OnOk, map};
ghost use Rattle.std.specs.List.{flat_map};
ghost use Rattle.gx_model.specs.Faults.{Gives};
ghost use Rattle.gx_model.specs.Objects.{hex};
ghost use Rattle.gx_model.specs.Records.HistoryOf.{history_of};
ghost use Rattle.gx_model.specs.Stores.StoreText.{stored_ref};
ghost use Rattle.gx_rev.specs.Answers.{shown_file};
ghost use Rattle.gx_rev.specs.RevFaults.{fault_of};
ghost use Rattle.gx_rev.specs.Views.{shown_range};
ghost use Rattle.gx_c.specs.Answers.{Answers, AnswersText, AnswersWalk, digits_line, file_answer, file_at, kind_number, mode_number, name_answer, object_answer};

use crate::answer::{Answer, Why};
use gx_object::{Kind, Mode, Name, Namer};
use gx_repo::Repo;
use gx_rev::{Range, RevFault, Revision, Shown, body_of, look, walk};
use gx_text::TreePath;
use std::alloc::{AllocError, Allocator};

/// The mode of a file, and its bytes, at the path of a text in the tree that a text gives as a revision.
///
/// Refused by the first fault of the revision's text, of the path's, and of what they give. Cost: that of
/// `gx_rev::look`.
pub(crate) fn file<N: Namer, A: Allocator + Copy>(
    alloc: A,
    repo: &Repo<N, A>,
    revision: &[u8],
    path: &[u8],
) -> Answer<A>
    ensures { Answers (file_answer (N.name_of repo.now.0) (history_of repo.now.1)
        revision.now path.now)
        result }
{
    match look_at(alloc, repo, revision, path) {
        Ok((mode, bytes)) => Answer::given(bytes, mode_number(mode)),
        Err(fault) => Answer::refused(alloc, Why::Revision(fault), 0),
    }
}

fn look_at<N: Namer, A: Allocator + Copy>(
    alloc: A,
    repo: &Repo<N, A>,
    revision: &[u8],
    path: &[u8],
) -> Result<(Mode, Vec<u8, A>), RevFault>
    ensures { Gives fault_of shown_file result
        (file_at (N.name_of repo.now.0) (history_of repo.now.1) revision.now path.now) }
{
    let revision = Revision::read(alloc, revision)?;
    let path = TreePath::read(alloc, path)?;
    look(alloc, repo, &revision, &path)
}

/// The number of a mode, whose octal digits Git prints.
fn mode_number(mode: Mode) -> u64
    ensures { result ≡ mode_number mode }
{
    match mode {
        Mode::File => 0o100644,
        Mode::Exec => 0o100755,
        Mode::Link => 0o120000,
        Mode::Gitlink => 0o160000,
        Mode::Dir => 0o40000,
    }
}

/// The refs, each in a line: the digits of its object's name, a space and its own name, in the byte order of names.
///
/// Refused for want of memory alone. Cost: the text's length. Source: git-show-ref(1).
pub(crate) fn refs<N: Namer, A: Allocator + Copy>(alloc: A, repo: &Repo<N, A>) -> Answer<A>
    ensures { AnswersText (Ok (flat_map stored_ref repo.now.1.refs)) result }
{
    match refs_text(alloc, repo) {
        Ok(text) => Answer::given(text, 0),
        Err(_) => Answer::refused(alloc, Why::Revision(RevFault::OutOfMemory), 0),
    }
}

fn refs_text<N: Namer, A: Allocator + Copy>(
    alloc: A,
    repo: &Repo<N, A>,
) -> Result<Vec<u8, A>, AllocError>
    ensures { IfOk result (λ text. text.items ≡ flat_map stored_ref repo.now.1.refs) }
{
    let mut text = Vec::new(alloc);
    for (name, object) in repo.refs() {
        put_ref(&mut text, name, &object)?;
    }
    Ok(text)
}

/// Appends a ref's line.
fn put_ref<A: Allocator>(
    text: &mut Vec<u8, A>,
    name: &[u8],
    object: &Name,
) -> Result<(), AllocError>
    ensures { OnOk result (text.new.items ≡ text.old.items
        ++ stored_ref (name.now, object.now.bytes)) }
{
    text.extend_from_slice(object.hex().as_slice())?;
    text.push(b' ')?;
    text.extend_from_slice(name)?;
    text.push(b'\n')?;
    Ok(())
}

/// The names of the commits that range words list, the newest made first: the 40 digits of each in a line.
///
/// Refused by the first word that gives nothing, with its number, and for want of memory. Cost: that of `gx_rev::walk`.
pub(crate) fn commits<N: Namer, A: Allocator + Copy>(
    alloc: A,
    repo: &Repo<N, A>,
    words: &[Range<A>],
) -> Answer<A>
    ensures { AnswersWalk (N.name_of repo.now.0) (history_of repo.now.1)
        (map shown_range words.now) result }
{
    match walk(alloc, repo, words) {
        Ok(names) => given_names(alloc, &names),
        Err(fault) => Answer::refused(alloc, Why::Revision(fault.kind), fault.word as u64),
    }
}

/// The lines of these names.
fn given_names<A: Allocator + Copy>(alloc: A, names: &[Name]) -> Answer<A>
    ensures text { AnswersText (Ok (flat_map (λ name. digits_line name.bytes) names.now)) result }
    ensures number { result.number ≡ 0 }
{
    match put_names(alloc, names) {
        Ok(bytes) => Answer::given(bytes, 0),
        Err(_) => Answer::refused(alloc, Why::Revision(RevFault::OutOfMemory), 0),
    }
}

fn put_names<A: Allocator + Copy>(alloc: A, names: &[Name]) -> Result<Vec<u8, A>, AllocError>
    ensures { IfOk result (λ text. text.items
        ≡ flat_map (λ name. digits_line name.bytes) names.now) }
{
    let mut text = Vec::new(alloc);
    for name in names {
        put_name(&mut text, name)?;
    }
    Ok(text)
}

/// Appends a name's line.
pub(crate) fn put_name<A: Allocator>(text: &mut Vec<u8, A>, name: &Name) -> Result<(), AllocError>
    ensures { OnOk result (text.new.items ≡ text.old.items ++ digits_line name.now.bytes) }
{
    text.extend_from_slice(name.hex().as_slice())?;
    text.push(b'\n')?;
    Ok(())
}

/// The body of the object that a text gives as a revision, and the number that git has for its kind: 1 for a commit, 2
/// for a tree, 3 for a blob and 4 for a tag. A submodule's commit isn't in the repository, so that one is of the wrong
/// kind.
///
/// Refused by the first fault of the text and of what it gives. Cost: that of `Revision::eval`, and the body's length.
pub(crate) fn object<N: Namer, A: Allocator + Copy>(
    alloc: A,
    repo: &Repo<N, A>,
    revision: &[u8],
) -> Answer<A>
    ensures { Answers (object_answer (N.name_of repo.now.0) (history_of repo.now.1) revision.now)
        result }
{
    match Revision::eval_text(alloc, repo, revision) {
        Ok(Shown::Object(kind, name)) => given_body(alloc, kind, body_of(repo, &name)),
        Ok(Shown::Submodule(_)) => Answer::refused(alloc, Why::Revision(RevFault::WrongKind), 0),
        Err(fault) => Answer::refused(alloc, Why::Revision(fault), 0),
    }
}

/// The body of an object of this kind.
fn given_body<A: Allocator + Copy>(alloc: A, kind: Kind, body: &[u8]) -> Answer<A>
    ensures { Answers (Ok (kind_number kind, body.now)) result }
{
    match Vec::from_slice(alloc, body) {
        Ok(bytes) => Answer::given(bytes, kind_number(kind)),
        Err(_) => Answer::refused(alloc, Why::Revision(RevFault::OutOfMemory), 0),
    }
}

/// The number that git has for a kind.
fn kind_number(kind: Kind) -> u64
    ensures { result ≡ kind_number kind }
{
    match kind {
        Kind::Commit => 1,
        Kind::Tree => 2,
        Kind::Blob => 3,
        Kind::Tag => 4,
    }
}

/// The name of what a text gives as a revision, in 40 digits, and the number that git has for its kind: that of a
/// commit for a submodule's.
///
/// Refused by the first fault of the text and of what it gives. Cost: that of `Revision::eval`.
pub(crate) fn name<N: Namer, A: Allocator + Copy>(
    alloc: A,
    repo: &Repo<N, A>,
    revision: &[u8],
) -> Answer<A>
    ensures { Answers (name_answer (N.name_of repo.now.0) (history_of repo.now.1) revision.now)
        result }
{
    match Revision::eval_text(alloc, repo, revision) {
        Ok(Shown::Object(kind, name)) => given_digits(alloc, kind, &name),
        Ok(Shown::Submodule(name)) => given_digits(alloc, Kind::Commit, &name),
        Err(fault) => Answer::refused(alloc, Why::Revision(fault), 0),
    }
}

fn given_digits<A: Allocator + Copy>(alloc: A, kind: Kind, name: &Name) -> Answer<A>
    ensures { Answers (Ok (kind_number kind, hex name.now.bytes)) result }
{
    match Vec::from_slice(alloc, &name.hex()) {
        Ok(digits) => Answer::given(digits, kind_number(kind)),
        Err(_) => Answer::refused(alloc, Why::Revision(RevFault::OutOfMemory), 0),
    }
}

//! The bodies of commits. Source: Pro Git, "Git Objects", and gitglossary(7), "commit object".

ghost use Rattle.std.specs.Prelude.{◌≡◌, codes, length, slice_get, IsTrue, IfOk, OnOk};
ghost use Rattle.std.specs.List.{list_all};
ghost use Rattle.std.specs.Option.{option_map};
ghost use Rattle.gx_model.specs.Objects.{IsCommitText, is_name};
ghost use Rattle.gx_model.specs.Texts.Headers.{encoding_in, is_encoding_alone, is_headers};
ghost use Rattle.gx_text.specs.Buffers.{GrowsBy};
ghost use Rattle.gx_object.specs.Commits.{FindsParent, bytes_of_names, commit_parts_of, encoding_field, is_line_alone, parent_lines, parents_of};
ghost use Rattle.gx_object.specs.Lines.{field};
ghost use Rattle.gx_object.specs.Parts.{FindsEach, commit_parts};

use crate::line::{append_line, append_optional_line, cut_ident, cut_line, cut_name};
use crate::tail::split_tail;
use crate::{BadObject, Name};
use gx_text::Ident;
use std::alloc::{AllocError, Allocator};
use std::marker::Model;

/// The parts of a commit, to be encoded. Its headers are the line of the encoding, where there is one, and further ones.
#[derive(Clone, Copy)]
pub struct CommitParts<'a> {
    pub tree: Name,
    pub parents: &'a [Name],
    pub author: Ident<'a>,
    pub committer: Ident<'a>,
    /// Not empty, and without a line feed.
    pub encoding: Option<&'a [u8]>,
    /// Lines that aren't empty, each with its line feed.
    pub further: &'a [u8],
    pub message: &'a [u8],
}

/// The body of the commit with these parts. Cost: its length.
pub fn encode_commit<A: Allocator + Copy>(
    alloc: A,
    parts: &CommitParts<'_>,
) -> Result<Vec<u8, A>, AllocError>
    requires { IsTrue (is_headers (commit_parts parts.now).text.headers) }
    ensures { IfOk result (λ body. IsCommitText (commit_parts parts.now) body.items) }
{
    let mut body = Vec::new(alloc);
    append_line(&mut body, b"tree", &parts.tree.hex())?;
    append_parents(&mut body, parts.parents)?;
    append_line(&mut body, b"author", parts.author.bytes())?;
    append_line(&mut body, b"committer", parts.committer.bytes())?;
    append_optional_line(&mut body, b"encoding", parts.encoding)?;
    body.extend_from_slice(parts.further)?;
    body.push(b'\n')?;
    body.extend_from_slice(parts.message)?;
    Ok(body)
}

pub(crate) fn append_parents<A: Allocator + Copy>(
    body: &mut Vec<u8, A>,
    parents: &[Name],
) -> Result<(), AllocError>
    ensures lines { GrowsBy body.old body.new (parent_lines (bytes_of_names parents.now)) result }
    ensures names { OnOk result (IsTrue (list_all is_name (bytes_of_names parents.now))) }
{
    for parent in parents {
        append_line(body, b"parent", &parent.hex())?;
    }
    Ok(())
}

/// The length of a parent's line: a word, a space, 40 digits and a line feed.
pub(crate) const PARENT_LINE: usize = 48;

/// A commit's body, seen as its parts. Its readers take no memory, and each costs the same for every body, but for
/// `encoding` and what rests on it.
#[derive(Drop)]
pub struct CommitView<'a> {
    tree: Name,
    parents: &'a [u8],
    author: &'a [u8],
    committer: &'a [u8],
    headers: &'a [u8],
    message: &'a [u8],
}

impl<'a> Model for CommitView<'a> {
    ghost use Rattle.gx_model.specs.Objects.{CommitParts};
    ghost use Rattle.gx_object.specs.Commits.{AreParents};
    ghost use Rattle.gx_object.specs.Parts.{shown_commit};

    ghost Value = { CommitParts };

    ghost view = { λ v. shown_commit v.tree v.parents v.author v.committer v.headers v.message };

    ghost invariant = { λ v. AreParents v.parents.now };
}

impl<'a> CommitView<'a> {
    /// The name of its tree.
    pub fn tree(&self) -> Name
        ensures { result.bytes ≡ self.now.tree }
    {
        self.tree
    }

    /// How many parents it has.
    pub fn parent_count(&self) -> usize
        ensures { result ≡ length self.now.parents }
    {
        self.parents.len() / PARENT_LINE
    }

    /// The name of a parent, counted from 0, and none from `parent_count` on.
    pub fn parent(&self, place: usize) -> Option<Name>
        ensures { option_map (λ name. name.bytes) result ≡ slice_get self.now.parents place }
    {
        parent_at(self.parents, place)
    }

    /// The author's identity.
    pub fn author(&self) -> &'a [u8]
        ensures { result.now ≡ self.now.text.author }
    {
        self.author
    }

    /// The committer's identity.
    pub fn committer(&self) -> &'a [u8]
        ensures { result.now ≡ self.now.text.committer }
    {
        self.committer
    }

    /// The header lines between the committer and the message, each with its line feed. Source: gitformat-signature(5).
    pub fn headers(&self) -> &'a [u8]
        ensures { result.now ≡ self.now.text.headers }
    {
        self.headers
    }

    /// The encoding of the message, where the first header tells one. Cost: that header's length. Source: git-commit(1),
    /// "Discussion".
    pub fn encoding(&self) -> Option<&'a [u8]>
        ensures { option_map (λ e. e.now) result ≡ encoding_in self.now.text.headers }
    {
        cut_encoding(self.headers)
    }

    /// Whether its headers are the line of an encoding, or none: a stream can say no other. Cost: that of `encoding`.
    pub fn has_encoding_alone(&self) -> bool
        ensures { result ≡ is_encoding_alone self.now.text.headers }
    {
        is_alone(self.headers)
    }

    /// The message.
    pub fn message(&self) -> &'a [u8]
        ensures { result.now ≡ self.now.text.message }
    {
        self.message
    }
}

/// The parts of a commit's body, or `BadObject` where it isn't the body of a commit.
///
/// Cost: the length of the body. Takes no memory.
pub fn decode_commit(body: &[u8]) -> Result<CommitView<'_>, BadObject>
    ensures found { IfOk result (λ parts. IsCommitText parts body.now) }
    ensures only { FindsEach IsCommitText body.now result }
{
    read_commit(body).ok_or(BadObject)
}

#[tactic(auto, unfolding(crate::specs::Commits::commit_parts_of))]
fn read_commit(body: &[u8]) -> Option<CommitView<'_>>
    ensures { result ≡ commit_parts_of body.now }
{
    let (tree, rest) = cut_name(body, b"tree")?;
    let (parents, rest) = split_parents(rest);
    let (author, rest) = cut_ident(rest, b"author")?;
    let (committer, rest) = cut_ident(rest, b"committer")?;
    let (headers, last) = split_tail(rest)?;
    let message = last?;
    Some(CommitView {
        tree,
        parents,
        author,
        committer,
        headers,
        message,
    })
}

/// The lines of the parents, and what follows them.
pub(crate) fn split_parents(bytes: &[u8]) -> (&[u8], &[u8])
    ensures lines { result.0.now ≡ parent_lines (parents_of bytes.now).0 }
    ensures names { IsTrue (list_all is_name (parents_of bytes.now).0) }
    ensures rest { result.1.now ≡ (parents_of bytes.now).1 }
{
    let mut rest = bytes;
    while let Some((_name, after)) = cut_name(rest, b"parent") {
        rest = after;
    }
    (&bytes[..bytes.len() - rest.len()], rest)
}

/// What a line of an encoding has at the front of headers.
#[tactic(auto, unfolding(crate::specs::Commits::encoding_field))]
fn cut_encoding(headers: &[u8]) -> Option<&[u8]>
    ensures { option_map (λ e. e.now) result ≡ encoding_field headers.now }
{
    let (encoding, _rest) = cut_line(headers, b"encoding")?;
    if encoding.is_empty() {
        None
    } else {
        Some(encoding)
    }
}

/// Whether headers are a line of an encoding, or none.
fn is_alone(headers: &[u8]) -> bool
    ensures { result ≡ is_line_alone (field (codes "encoding") headers.now) headers.now }
{
    match cut_line(headers, b"encoding") {
        Some((encoding, rest)) => !encoding.is_empty() && rest.is_empty(),
        None => headers.is_empty(),
    }
}

/// The name in the line at a place among lines of parents.
pub(crate) fn parent_at(lines: &[u8], place: usize) -> Option<Name>
    ensures { FindsParent lines.now place result }
{
    if place >= lines.len() / PARENT_LINE {
        return None;
    }
    let line = &lines[place * PARENT_LINE..place * PARENT_LINE + PARENT_LINE];
    Name::read_lower(&line[7..47])
}

//! The bodies of all commits that Git has: by anybody that a line can name, and with a message or none.
//! Source: gitglossary(7), "commit object", and gitformat-signature(5).

ghost use Rattle.std.specs.Prelude.{◌≡◌, length, slice_get, IfOk, List};
ghost use Rattle.std.specs.Option.{option_map};
ghost use Rattle.gx_wide.specs.WideTexts.{HasWideForm, IsWideCommitText};
ghost use Rattle.gx_object.specs.WideBodies.{Reads, any_commit_of, given_any_commit, shown_any_commit};

use crate::commit::{PARENT_LINE, append_parents, parent_at, split_parents};
use crate::line::{append_line, cut_line, cut_name};
use crate::tail::{append_message, split_tail};
use crate::{BadObject, Name};
use std::alloc::{AllocError, Allocator};
use std::marker::Model;

/// The parts of any commit, to be encoded.
#[derive(Clone, Copy)]
pub struct AnyCommitParts<'a> {
    pub tree: Name,
    pub parents: &'a [Name],
    /// Who made it and when, by any line.
    pub author: &'a [u8],
    /// Who committed it and when, by any line.
    pub committer: &'a [u8],
    /// Lines that aren't empty, each with its line feed.
    pub headers: &'a [u8],
    pub message: Option<&'a [u8]>,
}

/// The body of the commit with these parts. Cost: its length.
pub fn encode_any_commit<A: Allocator + Copy>(
    alloc: A,
    parts: &AnyCommitParts<'_>,
) -> Result<Vec<u8, A>, AllocError>
    requires { HasWideForm (given_any_commit parts.now).text }
    ensures { IfOk result (λ body. IsWideCommitText (given_any_commit parts.now) body.items) }
{
    let mut body = Vec::new(alloc);
    append_line(&mut body, b"tree", &parts.tree.hex())?;
    append_parents(&mut body, parts.parents)?;
    append_line(&mut body, b"author", parts.author)?;
    append_line(&mut body, b"committer", parts.committer)?;
    body.extend_from_slice(parts.headers)?;
    append_message(&mut body, parts.message)?;
    Ok(body)
}

/// The names of a commit's parents, where they stand in its body.
#[derive(Drop)]
pub struct ParentNames<'a> {
    lines: &'a [u8],
}

impl<'a> Model for ParentNames<'a> {
    ghost use Rattle.std.specs.Prelude.{List};
    ghost use Rattle.gx_model.specs.Texts.{Bytes};
    ghost use Rattle.gx_object.specs.Commits.{AreParents, parents_of};

    ghost Value = { List Bytes };

    ghost view = { λ p. (parents_of p.lines.now).0 };

    ghost invariant = { λ p. AreParents p.lines.now };
}

impl<'a> ParentNames<'a> {
    /// How many there are. Takes no memory.
    pub fn len(&self) -> usize
        ensures { result ≡ length self.now }
    {
        self.lines.len() / PARENT_LINE
    }

    /// The name of a parent, counted from 0, and none from `len` on. Takes no memory.
    pub fn get(&self, place: usize) -> Option<Name>
        ensures { option_map (λ name. name.bytes) result ≡ slice_get self.now place }
    {
        parent_at(self.lines, place)
    }
}

/// Any commit's body, seen as its parts.
#[derive(Drop)]
pub struct AnyCommit<'a> {
    pub tree: Name,
    pub parents: ParentNames<'a>,
    pub author: &'a [u8],
    pub committer: &'a [u8],
    pub headers: &'a [u8],
    pub message: Option<&'a [u8]>,
}

/// The parts of any commit's body, or `BadObject` where it isn't the body of a commit.
///
/// Cost: the length of the body. Takes no memory.
pub fn decode_any_commit(body: &[u8]) -> Result<AnyCommit<'_>, BadObject>
    ensures found { IfOk result (λ found. IsWideCommitText (shown_any_commit found) body.now) }
    ensures only { Reads shown_any_commit IsWideCommitText body.now result }
{
    read_any_commit(body).ok_or(BadObject)
}

#[tactic(auto, unfolding(crate::specs::WideBodies::any_commit_of))]
fn read_any_commit(body: &[u8]) -> Option<AnyCommit<'_>>
    ensures { option_map shown_any_commit result ≡ any_commit_of body.now }
{
    let (tree, rest) = cut_name(body, b"tree")?;
    let (lines, rest) = split_parents(rest);
    let (author, rest) = cut_line(rest, b"author")?;
    let (committer, rest) = cut_line(rest, b"committer")?;
    let (headers, message) = split_tail(rest)?;
    Some(AnyCommit {
        tree,
        parents: ParentNames { lines },
        author,
        committer,
        headers,
        message,
    })
}

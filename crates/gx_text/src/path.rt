//! Paths in a tree.

ghost use Rattle.std.specs.Prelude.{ℕ, ◌≡◌, ◌≢◌, true, nat_lt, ◌<◌, ◌≤◌, [], Ok, IsTrue, ◌==◌, length, drop, slice_index_or, IfOk, IsOk, OnErr, IfErr, IsErrOf};
ghost use Rattle.std.specs.List.{list_all, slice_split};
ghost use Rattle.gx_model.specs.Faults.{Gives};
ghost use Rattle.gx_model.specs.Streams.Lines.{last_path};
ghost use Rattle.gx_model.specs.Texts.Paths.{is_component, parts_of, path_of, path_text, quoted_of, printed};
ghost use Rattle.gx_text.specs.declared.fault.TextFault.TheVariants.{OutOfMemory};
ghost use Rattle.gx_text.specs.TextFaults.{fault_of};
ghost use Rattle.gx_text.specs.Buffers.{GrowsBy};
ghost use Rattle.gx_text.specs.TreePaths.{is_path, component_ends};

use crate::fault::TextFault;
use crate::printed::put_printed;
use crate::quoted::unquoted;
use std::alloc::{AllocError, Allocator};
use std::marker::Model;

/// The bytes of the longest path.
pub const MOST_BYTES: usize = 4095;

/// A path in a tree, seen as the list of its components. The empty list is the root.
/// Components are neither empty nor `.` or `..`, and hold no `/` and no NUL; a path has at most 4,095 bytes.
/// Source: git-fast-import(1), "filemodify".
#[derive(Drop)]
pub struct TreePath<A: Allocator> {
    text: Vec<u8, A>,
    // where each component ends in the text
    ends: Vec<usize, A>,
}

impl<A: Allocator> Model for TreePath<A> {
    ghost use Rattle.std.specs.Prelude.{ℕ, ◌≡◌, List, Ok};
    ghost use Rattle.gx_model.specs.Texts.Paths.{parts_of, path_of};
    ghost use Rattle.gx_text.specs.TreePaths.{component_ends};

    ghost Value = { List (List ℕ) };

    ghost view = { λ p. parts_of p.text.items };

    ghost invariant = { λ p. (path_of p.text.items ≡ Ok (parts_of p.text.items))
        × (p.ends.items ≡ component_ends p.text.items) };
}

impl<A: Allocator + Copy> TreePath<A> {
    /// The root. Takes no memory.
    pub fn root(alloc: A) -> TreePath<A>
        ensures { result ≡ [] }
    {
        TreePath {
            text: Vec::new(alloc),
            ends: Vec::new(alloc),
        }
    }

    /// The path that the text writes, byte for byte; the empty text is the root.
    /// `BadPath` where a component is none, and then `PathTooLong` over 4,095 bytes. `OutOfMemory` comes after both.
    ///
    /// Cost: the length. Takes memory for the text and for a number per component.
    pub fn read(alloc: A, text: &[u8]) -> Result<TreePath<A>, TextFault>
        ensures path { Gives fault_of (λ p. p) result (path_of text.now) }
        ensures memory { IsErrOf result OutOfMemory → IsOk (path_of text.now) }
    {
        check(text)?;
        let text = Vec::from_slice(alloc, text)?;
        Ok(TreePath::of_text(alloc, text)?)
    }

    /// The path of the quoted text at the front, and the number of bytes that it took, quotes included.
    /// `BadPath` where no quoted text stands there, and otherwise as `read`.
    ///
    /// Cost: the number of those bytes. Takes memory for them and for a number per component.
    /// Source: git-fast-import(1), "filemodify", on C-style quoting.
    #[tactic(auto, unfolding(gx_model::specs::Texts::Paths::quoted_of))]
    pub fn read_quoted(alloc: A, bytes: &[u8]) -> Result<(TreePath<A>, usize), TextFault>
        ensures path { Gives fault_of (λ p. (p.0, drop p.1 bytes.now)) result
            (quoted_of bytes.now) }
        ensures within { IfOk result (λ p. p.1 ≤ length bytes.now) }
    {
        let (text, rest) = unquoted(alloc, bytes)?;
        check(&text)?;
        let path = TreePath::of_text(alloc, text)?;
        Ok((path, bytes.len() - rest.len()))
    }

    // The path of a text that is one.
    fn of_text(alloc: A, text: Vec<u8, A>) -> Result<TreePath<A>, AllocError>
        requires { path_of text.items ≡ Ok (parts_of text.items) }
        ensures { IfOk result (λ p. p ≡ parts_of text.items) }
    {
        let ends = ends_of(alloc, &text)?;
        Ok(TreePath { text, ends })
    }

    /// Appends the path as it is printed: quoted where a byte is below 0x20, DEL, `"`, `\` or at least 0x80.
    /// Read as the last field of a line it is the path again. The one fault is `OutOfMemory`, which leaves `out` as it was.
    ///
    /// Cost: the length, at most four bytes for each of the path's and two quotes.
    pub fn write_quoted(&self, out: &mut Vec<u8, A>) -> Result<(), TextFault>
        ensures printed { GrowsBy out.old out.new (printed (path_text self.now)) result }
        ensures again { last_path (printed (path_text self.now)) ≡ Ok self.now }
        ensures fault { IfErr result (λ e. e ≡ OutOfMemory) }
        ensures unchanged { OnErr result (out.new.items ≡ out.old.items) }
    {
        let start = out.len();
        match put_printed(out, &self.text) {
            Ok(()) => Ok(()),
            Err(error) => {
                out.truncate(start);
                Err(error.into())
            }
        }
    }

    /// The path's text: its components, joined by `/`. Takes no memory.
    pub fn joined(&self) -> &[u8]
        ensures text { result.now ≡ path_text self.now }
        ensures path { path_of result.now ≡ Ok self.now }
    {
        self.text.as_slice()
    }

    /// How many components it has. Takes no memory.
    pub fn len(&self) -> usize
        ensures length { result ≡ length self.now }
        ensures path { IsTrue (is_path self.now) }
    {
        self.ends.len()
    }

    /// The component at a place, counted from 0. Its cost doesn't grow with the path. Takes no memory.
    pub fn component(&self, place: usize) -> &[u8]
        requires { place < length self.now }
        ensures component { result.now ≡ slice_index_or self.now place [] }
        ensures path { IsTrue (is_path self.now) }
    {
        let start = if place == 0 {
            0
        } else {
            self.ends[place - 1] + 1
        };
        &self.text[start..self.ends[place]]
    }
}

fn check(text: &[u8]) -> Result<(), TextFault>
    ensures path { Gives fault_of (λ _. parts_of text.now) result (path_of text.now) }
    ensures memory { IfErr result (λ fault. fault ≢ OutOfMemory) }
{
    if !has_components(text) {
        return Err(TextFault::BadPath);
    }
    if text.len() > MOST_BYTES {
        return Err(TextFault::PathTooLong);
    }
    Ok(())
}

fn has_components(text: &[u8]) -> bool
    ensures { result ≡ list_all is_component (parts_of text.now) }
{
    text.is_empty() || are_components(text)
}

fn are_components(text: &[u8]) -> bool
    ensures { result ≡ list_all is_component (slice_split (λ b. b == 47) text.now) }
{
    text.split(|b| *b == b'/').all(is_component)
}

fn is_component(component: &[u8]) -> bool
    ensures { result ≡ is_component component.now }
{
    has_bytes(component);
    !component.is_empty()
        && component != b".".as_slice()
        && component != b"..".as_slice()
        && !component.contains(&b'/')
        && !component.contains(&0)
}

/// Each number of a text is a byte.
fn has_bytes(text: &[u8])
    ensures { list_all (λ b. nat_lt b 256) text.now ≡ true }
{}

// Where each component of the text ends.
fn ends_of<A: Allocator + Copy>(alloc: A, text: &[u8]) -> Result<Vec<usize, A>, AllocError>
    ensures { IfOk result (λ ends. ends.items ≡ component_ends text.now) }
{
    let mut ends = Vec::new(alloc);
    for (place, byte) in text.iter().enumerate() {
        if *byte == b'/' {
            ends.push(place)?;
        }
    }
    if !text.is_empty() {
        ends.push(text.len())?;
    }
    Ok(ends)
}

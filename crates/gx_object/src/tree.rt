//! The bodies of trees. Source: Pro Git, "Git Objects".

ghost use Rattle.std.specs.Prelude.{◌≡◌, ℕ, List, map, take, ◌∷◌, IsTrue, IsFalse, IfOk, OnErr, OnOk};
ghost use Rattle.std.specs.Result.{result_ok};
ghost use Rattle.std.specs.Iterator.{item_count};
ghost use Rattle.std.specs.Map.Iter.{TakesFirst};
ghost use Rattle.gx_model.specs.Objects.{Entry as TreeEntry, IsTreeText, is_canonical, tree_text};
ghost use Rattle.gx_object.specs.Trees.{IsEntryText, is_tree, tree_of};
ghost use Rattle.gx_object.specs.Entries.{shown};
ghost use Rattle.gx_object.specs.Parts.{FindsEach};

use crate::entry::{append_entry, first_entry};
use crate::{BadObject, Entry, TreeReader};
use std::alloc::{AllocError, Allocator};
use std::marker::Model;

/// The body of the tree with these entries. Cost: its length.
pub fn encode_tree<A: Allocator + Copy>(
    alloc: A,
    entries: &[Entry<'_>],
) -> Result<Vec<u8, A>, AllocError>
    requires { IsTrue (is_canonical (map shown entries.now)) }
    ensures { IfOk result (λ body. IsTreeText (map shown entries.now) body.items) }
{
    let mut body = Vec::new(alloc);
    encode_tree_into(&mut body, entries)?;
    Ok(body)
}

/// Makes a buffer the body of the tree with these entries, in place of what it held. Where a growth is refused, it holds the
/// texts of the first entries, each whole, and no byte more.
///
/// Cost: the body's length. Takes memory only where the buffer has no room for the body, so one buffer serves many trees.
pub fn encode_tree_into<A: Allocator + Copy>(
    body: &mut Vec<u8, A>,
    entries: &[Entry<'_>],
) -> Result<(), AllocError>
    requires { IsTrue (is_canonical (map shown entries.now)) }
    ensures text { OnOk result (IsTreeText (map shown entries.now) body.new.items) }
    ensures front { OnErr result
        ((n : ℕ) × (body.new.items ≡ tree_text (map shown (take n entries.now)))) }
{
    body.clear();
    for entry in entries {
        append_entry(body, entry.mode, entry.component, &entry.name)?;
    }
    Ok(())
}

/// The entries of a tree's body, in its order. It is seen as the list of the entries left.
#[derive(Drop)]
pub struct TreeEntries<'a> {
    rest: &'a [u8],
}

impl<'a> Model for TreeEntries<'a> {
    ghost use Rattle.std.specs.Prelude.{◌≡◌, List, true};
    ghost use Rattle.std.specs.Option.{is_some};
    ghost use Rattle.gx_model.specs.Objects.{Entry};
    ghost use Rattle.gx_object.specs.Trees.{entries_of, entries_left};

    ghost Value = { List Entry };

    ghost view = { λ it. entries_left it.rest.now };

    ghost invariant = { λ it. is_some (entries_of it.rest.now) ≡ true };
}

impl<'a> Iterator for TreeEntries<'a> {
    type Item = Entry<'a>;

    ghost next_gives = { TakesFirst shown };

    ghost remaining = { item_count (λ rest. rest) };

    fn next(&mut self) -> Option<Entry<'a>> {
        let (entry, rest) = first_entry(self.rest)?;
        self.rest = rest;
        Some(entry)
    }
}

impl<'a> TreeEntries<'a> {
    /// Passes the next entry where its text is this one, and answers whether it is. The text is an entry's.
    ///
    /// Cost: the text's length; no entry is read. Takes no memory.
    pub fn pass(&mut self, text: &[u8]) -> bool
        requires text { (entry : TreeEntry) × IsEntryText entry text.now }
        ensures passed { IsTrue result → (entry : TreeEntry) → IsEntryText entry text.now → self.old
            ≡ entry ∷ self.new }
        ensures met { (entry : TreeEntry) → (left : List TreeEntry) → IsEntryText entry text.now
            → self.old ≡ entry ∷ left → IsTrue result }
        ensures unchanged { IsFalse result → self.new ≡ self.old }
    {
        match self.rest.strip_prefix(text) {
            Some(rest) => {
                self.rest = rest;
                true
            }
            None => false,
        }
    }
}

/// The entries of a tree's body, or `BadObject` where it isn't the body of a canonical list of entries.
///
/// Cost: the body's length and, for each file whose component has 4,096 bytes or more, which no path leads to, the
/// length of the entries after it whose components begin with its own. Takes no memory.
pub fn decode_tree(body: &[u8]) -> Result<TreeEntries<'_>, BadObject>
    ensures found { IfOk result (λ entries. IsTreeText entries body.now) }
    ensures only { FindsEach IsTreeText body.now result }
{
    read_tree(body)
}

/// The entries of a body that is known to be that of a canonical list of entries, as one that a store holds is.
///
/// Cost: one step, since each entry is read where it is asked for. Takes no memory.
pub fn held_tree(body: &[u8]) -> TreeEntries<'_>
    requires { (entries : List TreeEntry) × IsTreeText entries body.now }
    ensures { (entries : List TreeEntry) → IsTreeText entries body.now → result ≡ entries }
{
    TreeEntries { rest: body }
}

fn read_tree(body: &[u8]) -> Result<TreeEntries<'_>, BadObject>
    ensures { result_ok result ≡ tree_of body.now }
{
    if is_tree(body) {
        Ok(TreeEntries { rest: body })
    } else {
        Err(BadObject)
    }
}

/// Whether the bytes are the body of a canonical list of entries.
fn is_tree(body: &[u8]) -> bool
    ensures { result ≡ is_tree body.now }
{
    let mut reader = TreeReader::new(body);
    loop {
        match reader.read() {
            Ok(Some(_)) => {}
            Ok(None) => return true,
            Err(BadObject) => return false,
        }
    }
}

//! The body of a tree, of which nothing is known, read entry by entry.

ghost use Rattle.std.specs.Prelude.{◌≡◌, ◌≤◌, ◌<◌, ◌∷◌, [], Some, None, List, length, true, IfOk, IfSome, IfNone, OnErr};
ghost use Rattle.std.specs.Option.{option_map};
ghost use Rattle.gx_model.specs.Objects.{Entry as TreeEntry, IsTreeText};
ghost use Rattle.gx_model.specs.Texts.Paths.{is_component};
ghost use Rattle.gx_object.specs.Order.{is_long_repeated, meets};
ghost use Rattle.gx_object.specs.Trees.{AreEntries, IsEntryText, entries_left};
ghost use Rattle.gx_object.specs.Entries.{meets_from, shown};
ghost use Rattle.gx_object.specs.Reading.{FollowsFrom, IsReadWith};
ghost use Rattle.gx_object.specs.Passing.{LeadsPastFrom};

use crate::earlier_files::{EarlierFiles, MOST, is_front};
use crate::entry::{FirstEntry, first_entry, read_entry};
use crate::order::{comes_before, is_apart};
use crate::{BadObject, Entry};
use std::marker::Model;

/// A tree's body of which nothing is known, read once: each entry is checked as it is read, beside the one before it.
/// It is seen as the entries left, where the whole body is a tree's, and as a number that tells how many may still come.
#[derive(Drop)]
pub struct TreeReader<'a> {
    rest: &'a [u8],
    // The entry that was read last.
    before: Option<Entry<'a>>,
    files: EarlierFiles,
}

impl<'a> Model for TreeReader<'a> {
    ghost use Rattle.std.specs.Prelude.{length};
    ghost use Rattle.std.specs.Option.{option_map};
    ghost use Rattle.gx_object.specs.Entries.{shown};
    ghost use Rattle.gx_object.specs.Reading.{IsReadWith, TreeLeft};
    ghost use Rattle.gx_object.specs.Trees.{followers};

    ghost Value = { TreeLeft };

    ghost view = { λ it. record {
      entries = followers it.files.above it.files.is_file (option_map shown it.before) it.rest.now;
      most = length it.rest.now;
    } };

    ghost invariant = { λ it. IsReadWith it.files it.before };
}

impl<'a> TreeReader<'a> {
    /// Begins with the first entry. Takes no memory.
    pub fn new(body: &'a [u8]) -> TreeReader<'a>
        ensures found { IfSome result.entries (λ entries. IsTreeText entries body.now) }
        ensures only { (entries : List TreeEntry) → IsTreeText entries body.now → result.entries
            ≡ Some entries }
    {
        TreeReader {
            rest: body,
            before: None,
            files: EarlierFiles::none(),
        }
    }

    /// The next entry with its text, or none at the end of a tree's body. `BadObject` tells that the body isn't that of a
    /// canonical list of entries, whatever was read of it before.
    ///
    /// Cost: the length of the entry and of the one before it; for each file whose component has 4,096 bytes or more, which
    /// no path leads to, the length of the entries after it whose components begin with its own. Takes no memory.
    pub fn read(&mut self) -> Result<Option<(Entry<'a>, &'a [u8])>, BadObject>
        ensures next { IfOk result
            (λ found. IfSome found (λ next. self.old.entries
            ≡ option_map (λ left. shown next.0 ∷ left) self.new.entries)) }
        ensures text { IfOk result
            (λ found. IfSome found (λ next. IsEntryText (shown next.0) next.1.now)) }
        ensures most { IfOk result (λ found. IfSome found (λ _. self.new.most < self.old.most)) }
        ensures end { IfOk result (λ found. IfNone found (self.old.entries ≡ Some [])) }
        ensures fault { OnErr result (self.old.entries ≡ None) }
    {
        let Some(found) = read_entry(self.rest) else {
            if self.rest.is_empty() {
                return Ok(None);
            }
            return Err(BadObject);
        };
        if !found.is_proper {
            return Err(BadObject);
        }
        if !follows(&mut self.files, &self.before, &found.entry, found.rest) {
            self.files.above = 0;
            return Err(BadObject);
        }
        let text = &self.rest[..self.rest.len() - found.rest.len()];
        self.before = Some(found.entry);
        self.rest = found.rest;
        Ok(Some((found.entry, text)))
    }
}

/// Whether the next entry and those after it may stand behind the one before, as far as the next one tells.
fn follows(
    files: &mut EarlierFiles,
    before: &Option<Entry<'_>>,
    next: &Entry<'_>,
    after: &[u8],
) -> bool
    requires before { IsReadWith files.old before.now }
    requires proper { is_component next.now.component.now ≡ true }
    ensures within { result ≡ true → files.new.above ≤ length next.now.component.now }
    ensures follows { FollowsFrom files.old files.new before.now next.now after.now result }
{
    match before {
        Some(first) => leads(files, first, next, after),
        None => true,
    }
}

/// Whether an entry may stand before the next one and the entries after that, and none of them has an earlier file's
/// component as far as the next one tells.
fn leads(files: &mut EarlierFiles, first: &Entry<'_>, next: &Entry<'_>, after: &[u8]) -> bool
    requires within { files.old.above ≤ length first.now.component.now }
    requires proper { is_component first.now.component.now ≡ true }
    ensures within { result ≡ true → files.new.above ≤ length next.now.component.now }
    ensures leads { LeadsPastFrom files.old files.new first.now next.now after.now result }
{
    if is_apart(first, next) {
        return !files.pass(first, next);
    }
    comes_before(first, next) && !is_long_repeated(first, next, after) && !files.meet(first, next)
}

/// Whether a file whose component is too long to be remembered stands again behind itself.
fn is_long_repeated(first: &Entry<'_>, next: &Entry<'_>, after: &[u8]) -> bool
    ensures { AreEntries after.now → result
        ≡ is_long_repeated (shown first.now) (shown next.now ∷ entries_left after.now) }
{
    first.component.len() >= MOST && is_front(first, next) && meets(first.component, next, after)
}

/// Whether the next entry, or one of those after it whose components begin with this one, has it.
fn meets(component: &[u8], next: &Entry<'_>, after: &[u8]) -> bool
    ensures { AreEntries after.now → result ≡ meets_from component.now next.now after.now }
{
    next.component == component || meets_ahead(component, after)
}

/// The same of the entries that the bytes are. Where they aren't entries to the end, either may be answered.
fn meets_ahead(component: &[u8], bytes: &[u8]) -> bool
    ensures { AreEntries bytes.now → result ≡ meets component.now (entries_left bytes.now) }
{
    let mut rest = bytes;
    while let Some((entry, after)) = first_entry(rest) {
        if !entry.component.starts_with(component) {
            return false;
        }
        if entry.component == component {
            return true;
        }
        rest = after;
    }
    false
}

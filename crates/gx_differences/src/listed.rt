//! Every path at which the files of two trees differ, with what stood there and what stands there.

ghost use Rattle.std.specs.Prelude.{◌≡◌, ◌∷◌, [], false, IfSome, OnOk};
ghost use Rattle.gx_object.specs.Parts.{bytes_if};
ghost use Rattle.gx_export.specs.Compared.{IsTreeIf};
ghost use Rattle.gx_export.specs.Pairs.{is_same, shown_pair};
ghost use Rattle.gx_questions.specs.Answers.{IsOfTold, RefusesUntold};
ghost use Rattle.gx_differences.specs.Differences.{ArePair, AreTrees};
ghost use Rattle.gx_differences.specs.Listed.{Adds, AreListed, HaveLeaves, ListsPair, ListsTrees, entry_leaf, shown_leaf};

use crate::differences::{child, entries_in, one_of};
use gx_export::{Pair, Pairs, is_same, name_in};
use gx_object::{Entry, Mode, Name};
use gx_objects::Objects;
use gx_questions::AskFault;
use gx_text::{MOST_BYTES, TreePath};
use std::alloc::{AllocError, Allocator};

/// A file: its mode, and the name of what it holds.
#[derive(Clone, Copy, Debug, PartialEq, Eq)]
pub struct FileLeaf {
    pub mode: Mode,
    pub name: Name,
}

/// A path at which two trees differ, with the file that the old one has there, and that of the new one. One of them is there at
/// least.
#[derive(Drop)]
pub struct Difference<A: Allocator> {
    pub path: TreePath<A>,
    pub old: Option<FileLeaf>,
    pub new: Option<FileLeaf>,
}

/// Lists the paths at which the files of two held trees differ, in byte order: a file is new, gone, or of another mode or name.
/// No tree has no files.
///
/// OutOfMemory: a growth is refused. ReadFailed: a read failed. Damaged: this is no repository's.
/// Cost: the entries of the directories that differ. Memory: what differs, and the two trees at each level of a path.
/// Source: git-diff-tree(1), `-r`.
pub fn list<O: Objects, A: Allocator + Copy>(
    alloc: A,
    objects: &O,
    old: Option<Name>,
    new: Option<Name>,
) -> Result<Vec<Difference<A>, A>, AskFault>
    requires old { IfSome (O.told objects.now) (λ r. IsTreeIf r old) }
    requires new { IfSome (O.told objects.now) (λ r. IsTreeIf r new) }
    ensures found { IsOfTold (O.told objects.now)
        (λ r found. AreListed (O.name_of objects.now) old new r found.items) result }
    ensures held { IsOfTold (O.told objects.now) (λ r found. HaveLeaves found.items r) result }
    ensures fault { RefusesUntold (O.told objects.now) result }
{
    objects.sound_if_told();
    let root = TreePath::root(alloc);
    let mut found = Vec::new(alloc);
    list_trees(alloc, objects, &mut found, &root, old, new, MOST_BYTES)?;
    Ok(found)
}

/// Adds what differs between two trees below a path, where paths have at most so many bytes left. A directory that has nothing is
/// no repository's: so where something is read, something differs.
#[cycle(list)]
fn list_trees<O: Objects, A: Allocator + Copy>(
    alloc: A,
    objects: &O,
    found: &mut Vec<Difference<A>, A>,
    front: &TreePath<A>,
    old: Option<Name>,
    new: Option<Name>,
    room: usize,
) -> Result<(), AskFault>
    requires held { IfSome (O.told objects.now)
        (AreTrees (O.name_of objects.now) room front.now (bytes_if old) (bytes_if new)) }
    ensures found { IsOfTold (O.told objects.now) (λ r _. ListsTrees (O.name_of objects.now)
        room front.now (bytes_if old) (bytes_if new) found.old.items found.new.items r) result }
    ensures fault { RefusesUntold (O.told objects.now) result }
{
    objects.sound_if_told();
    let mut old_body = Vec::new(alloc);
    let mut new_body = Vec::new(alloc);
    let olds = entries_in(objects, old, &mut old_body)?;
    let news = entries_in(objects, new, &mut new_body)?;
    let pairs = Pairs::new(olds, news);
    if front.len() > 0 && pairs.is_empty() {
        return Err(AskFault::Damaged);
    }
    for pair in pairs {
        if !is_same(&pair) {
            list_pair(alloc, objects, found, front, &pair, room)?;
        }
    }
    Ok(())
}

/// Does so for what two trees have at one component, which differs. A path that is too long is no repository's.
#[cycle(list)]
fn list_pair<O: Objects, A: Allocator + Copy>(
    alloc: A,
    objects: &O,
    found: &mut Vec<Difference<A>, A>,
    front: &TreePath<A>,
    pair: &Pair<'_>,
    room: usize,
) -> Result<(), AskFault>
    requires held { IfSome (O.told objects.now)
        (ArePair (O.name_of objects.now) room front.now pair.now) }
    requires other { is_same (shown_pair pair.now) ≡ false }
    ensures found { IsOfTold (O.told objects.now) (λ r _. ListsPair (O.name_of objects.now)
        room front.now pair.now found.old.items found.new.items r) result }
    ensures fault { RefusesUntold (O.told objects.now) result }
{
    objects.sound_if_told();
    let Some(entry) = one_of(pair) else {
        return Err(AskFault::Damaged);
    };
    let path = child(alloc, front, entry.component)?;
    if entry.mode != Mode::Dir {
        add_files(found, path, &pair.old, &pair.new)?;
        return Ok(());
    }
    let used = entry.component.len();
    if used >= room {
        return Err(AskFault::Damaged);
    }
    let (old, new) = (name_in(&pair.old), name_in(&pair.new));
    list_trees(alloc, objects, found, &path, old, new, room - used - 1)
}

/// Adds a path with what stood and what stands there.
fn add_files<A: Allocator + Copy>(
    found: &mut Vec<Difference<A>, A>,
    path: TreePath<A>,
    old: &Option<Entry<'_>>,
    new: &Option<Entry<'_>>,
) -> Result<(), AllocError>
    ensures { OnOk result (Adds ((path, (entry_leaf old.now, entry_leaf new.now)) ∷ [])
        found.old.items found.new.items) }
{
    let (old, new) = (leaf_of(old), leaf_of(new));
    found.push(Difference { path, old, new })?;
    Ok(())
}

/// What an entry says of the file at its path, where there is one.
fn leaf_of(entry: &Option<Entry<'_>>) -> Option<FileLeaf>
    ensures { shown_leaf result ≡ entry_leaf entry.now }
{
    match entry {
        None => None,
        Some(entry) => Some(FileLeaf {
            mode: entry.mode,
            name: entry.name,
        }),
    }
}

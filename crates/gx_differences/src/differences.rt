//! What differs between the files of two trees. Only directories that differ are read.

ghost use Rattle.std.specs.Prelude.{◌≡◌, ◌++◌, ◌∷◌, [], false, IfErr, IfOk, IfSome, IsTrue, OnOk};
ghost use Rattle.gx_model.specs.Texts.Paths.{is_component, is_short, path_text};
ghost use Rattle.gx_object.specs.Parts.{bytes_if};
ghost use Rattle.gx_text.specs.TreePaths.{is_path};
ghost use Rattle.gx_export.specs.Compared.{IsTreeIf, entries_if, file_if, or_other, path_unless};
ghost use Rattle.gx_export.specs.Pairs.{is_same, shown_pair};
ghost use Rattle.gx_questions.specs.Answers.{IsOfTold, RefusesUntold};
ghost use Rattle.gx_differences.specs.Differences.{AddsFile, AreDifferences, ArePair, AreTrees, ComparesPair, ComparesTrees, HaveFiles, IsNoChild};

use gx_export::{Pair, Pairs, is_same, name_in};
use gx_object::{Entry, Mode, Name, TreeEntries, held_tree};
use gx_objects::Objects;
use gx_questions::{AskFault, entries};
use gx_text::{MOST_BYTES, TextFault, TreePath};
use std::alloc::{AllocError, Allocator};

/// A file that is new or another: its path, its mode, and the name of what it holds.
#[derive(Drop)]
pub struct ChangedFile<A: Allocator> {
    pub path: TreePath<A>,
    pub mode: Mode,
    pub name: Name,
}

/// What differs between the files of two trees: the paths of those that are gone, and the files that are new or another, both in
/// byte order.
#[derive(Drop)]
pub struct Differences<A: Allocator> {
    pub gone: Vec<TreePath<A>, A>,
    pub files: Vec<ChangedFile<A>, A>,
}

/// What differs between the files of two held trees. No tree has no files.
///
/// OutOfMemory: a growth is refused. ReadFailed: a read failed. Damaged: this is no repository's.
/// Cost: the entries of the directories that differ. Memory: what differs, and the two trees at each level of a path.
/// Source: git-diff-tree(1), `-r`.
pub fn compare<O: Objects, A: Allocator + Copy>(
    alloc: A,
    objects: &O,
    old: Option<Name>,
    new: Option<Name>,
) -> Result<Differences<A>, AskFault>
    requires old { IfSome (O.told objects.now) (λ r. IsTreeIf r old) }
    requires new { IfSome (O.told objects.now) (λ r. IsTreeIf r new) }
    ensures found { IsOfTold (O.told objects.now)
        (AreDifferences (O.name_of objects.now) old new) result }
    ensures held { IsOfTold (O.told objects.now) (λ r found. HaveFiles found.files.items r) result }
    ensures fault { RefusesUntold (O.told objects.now) result }
{
    objects.sound_if_told();
    let root = TreePath::root(alloc);
    let mut found = Differences {
        gone: Vec::new(alloc),
        files: Vec::new(alloc),
    };
    compare_trees(alloc, objects, &mut found, &root, old, new, MOST_BYTES)?;
    Ok(found)
}

/// Adds what differs between two trees below a path, where paths have at most so many bytes left. A directory that has nothing is
/// no repository's: so where something is read, something differs.
#[cycle(compare)]
fn compare_trees<O: Objects, A: Allocator + Copy>(
    alloc: A,
    objects: &O,
    found: &mut Differences<A>,
    front: &TreePath<A>,
    old: Option<Name>,
    new: Option<Name>,
    room: usize,
) -> Result<(), AskFault>
    requires held { IfSome (O.told objects.now)
        (AreTrees (O.name_of objects.now) room front.now (bytes_if old) (bytes_if new)) }
    ensures found { IsOfTold (O.told objects.now) (λ r _. ComparesTrees (O.name_of objects.now)
        room front.now (bytes_if old) (bytes_if new) found.old found.new r) result }
    ensures fault { RefusesUntold (O.told objects.now) result }
{
    objects.sound_if_told();
    let mut old_body = Vec::new(alloc);
    let mut new_body = Vec::new(alloc);
    let olds = entries_in(objects, old, &mut old_body)?;
    let news = entries_in(objects, new, &mut new_body)?;
    let pairs = Pairs::new(olds, news);
    if front.len() > 0 && pairs.is_empty() {
        return Err(AskFault::Damaged);
    }
    for pair in pairs {
        if !is_same(&pair) {
            compare_pair(alloc, objects, found, front, &pair, room)?;
        }
    }
    Ok(())
}

/// Does so for what two trees have at one component, which differs. A path that is too long is no repository's.
#[cycle(compare)]
fn compare_pair<O: Objects, A: Allocator + Copy>(
    alloc: A,
    objects: &O,
    found: &mut Differences<A>,
    front: &TreePath<A>,
    pair: &Pair<'_>,
    room: usize,
) -> Result<(), AskFault>
    requires held { IfSome (O.told objects.now)
        (ArePair (O.name_of objects.now) room front.now pair.now) }
    requires other { is_same (shown_pair pair.now) ≡ false }
    ensures found { IsOfTold (O.told objects.now) (λ r _. ComparesPair (O.name_of objects.now)
        room front.now pair.now found.old found.new r) result }
    ensures fault { RefusesUntold (O.told objects.now) result }
{
    objects.sound_if_told();
    let Some(entry) = one_of(pair) else {
        return Err(AskFault::Damaged);
    };
    let path = child(alloc, front, entry.component)?;
    if entry.mode != Mode::Dir {
        add_file(found, path, &pair.new)?;
        return Ok(());
    }
    let used = entry.component.len();
    if used >= room {
        return Err(AskFault::Damaged);
    }
    let (old, new) = (name_in(&pair.old), name_in(&pair.new));
    compare_trees(alloc, objects, found, &path, old, new, room - used - 1)
}

/// Adds a file that is gone, or that is new or another.
fn add_file<A: Allocator + Copy>(
    found: &mut Differences<A>,
    path: TreePath<A>,
    new: &Option<Entry<'_>>,
) -> Result<(), AllocError>
    ensures { OnOk result (AddsFile (file_if path new.now) (path_unless path new.now)
        found.old found.new) }
{
    match new {
        None => found.gone.push(path)?,
        Some(new) => found.files.push(ChangedFile {
            path,
            mode: new.mode,
            name: new.name,
        })?,
    }
    Ok(())
}

/// An entry of a pair: both are at one component, and both are directories or none is.
pub(crate) fn one_of<'a>(pair: &Pair<'a>) -> Option<Entry<'a>>
    ensures { result ≡ or_other pair.now.old pair.now.new }
{
    match pair.old {
        Some(old) => Some(old),
        None => pair.new,
    }
}

/// The path of a component below another path. A text that writes no path is no repository's.
pub(crate) fn child<A: Allocator + Copy>(
    alloc: A,
    front: &TreePath<A>,
    component: &[u8],
) -> Result<TreePath<A>, AskFault>
    ensures path { IfOk result (λ path. IsTrue (is_component component.now)
        → IsTrue (is_short (front.now ++ component.now ∷ []))
        → path ≡ front.now ++ component.now ∷ []) }
    ensures fault { IfErr result (IsNoChild front.now component.now) }
{
    let text = child_text(alloc, front, component)?;
    match TreePath::read(alloc, &text) {
        Ok(path) => Ok(path),
        Err(fault) => match fault {
            TextFault::OutOfMemory => Err(AskFault::OutOfMemory),
            _ => Err(AskFault::Damaged),
        },
    }
}

/// The text of that path.
fn child_text<A: Allocator + Copy>(
    alloc: A,
    front: &TreePath<A>,
    component: &[u8],
) -> Result<Vec<u8, A>, AllocError>
    ensures text { IfOk result (λ text. text.items ≡ path_text (front.now ++ component.now ∷ [])) }
    ensures path { IsTrue (is_path front.now) }
{
    let mut text = Vec::from_slice(alloc, front.joined())?;
    if front.len() > 0 {
        text.push(b'/')?;
    }
    text.extend_from_slice(component)?;
    Ok(text)
}

/// The entries of a held tree. No tree has none.
pub(crate) fn entries_in<'a, O: Objects, A: Allocator + Copy>(
    objects: &'a O,
    tree: Option<Name>,
    room: &'a mut Vec<u8, A>,
) -> Result<TreeEntries<'a>, AskFault>
    requires { IfSome (O.told objects.now) (λ r. IsTreeIf r tree) }
    ensures entries { IsOfTold (O.told objects.now)
        (λ r found. found ≡ entries_if r tree) result }
    ensures fault { RefusesUntold (O.told objects.now) result }
{
    match tree {
        None => Ok(held_tree(b"")),
        Some(tree) => entries(objects, &tree, room),
    }
}

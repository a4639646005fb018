//! Trees of files by their paths.
ghost use Rattle.std.specs.Prelude.{◌≡◌, ◌≢◌, [], length, map, take, Ok, Err, IfOk, IsOk, OnErr, IsTrue};
ghost use Rattle.std.specs.Option.{option_map};
ghost use Rattle.gx_model.specs.Histories.Edits.{copied, modified, removed, renamed};
ghost use Rattle.gx_model.specs.Faults.{Gives};
ghost use Rattle.gx_model.specs.Records.Growth.{tree_records};
ghost use Rattle.gx_model.specs.Objects.{is_name};
ghost use Rattle.gx_tree.specs.Calls.{Becomes, GivesFiles, LoadsFiles};
ghost use Rattle.gx_tree.specs.Faults.{fault_of, Refuses};
ghost use Rattle.gx_model.specs.Objects.NameMaps.{IsNameMap};
ghost use Rattle.gx_tree.specs.HeldTrees.{HoldsTree, NamesHeldTree};
ghost use Rattle.gx_tree.specs.Homes.{HoldsIn};
ghost use Rattle.gx_tree.specs.Lists.{shown_listed};
ghost use Rattle.gx_tree.specs.Loaded.{AreLoaded};
ghost use Rattle.gx_tree.specs.Named.{IsAtHome, KeepsHome, RemembersName, is_named, no_files};
ghost use Rattle.gx_tree.specs.Writes.{IsTreeName, StoresAll};
ghost use Rattle.gx_tree.specs.Standings.{standing_of, standing_at};
ghost use Rattle.gx_model.specs.declared.objects.Mode.TheVariants as modes;
ghost use Rattle.gx_tree.specs.declared.fault.TreeFault.TheVariants as faults;

use crate::directory::{Directory, Entry, Item};
use crate::fault::TreeFault;
use crate::loaded::LoadedTrees;
use crate::writing::put_tree;
use gx_object::{Mode, Name, Namer};
use gx_store::Store;
use gx_text::{MOST_BYTES, TreePath};
use std::alloc::Allocator;
use std::marker::Model;

/// What a path leads to.
#[derive(Clone, Copy, Debug, PartialEq, Eq)]
pub enum Found {
    /// A file: its mode, which is no directory's, and the name of its content, or of a commit for a gitlink.
    File(Mode, Name),
    /// The root, or a directory with files below it.
    Directory,
}

/// Files by their paths, each with its mode and the name of its content.
#[derive(Drop)]
pub struct PathTree<A: Allocator> {
    /// The root, and none where no file was put.
    root: Option<Directory<A>>,
    alloc: A,
}

impl<A: Allocator> Model for PathTree<A> {
    ghost use Rattle.gx_tree.specs.Named.{NamedTree};

    ghost Value = { NamedTree };

    ghost use Rattle.gx_model.specs.Objects.NameMaps.{IsNameMap};
    ghost use Rattle.gx_tree.specs.Views.{root_tree};

    ghost view = { λ a. root_tree a.root };

    ghost invariant = { λ a. IsNameMap (root_tree a.root).files };
}

impl<A: Allocator + Copy> PathTree<A> {
    /// A tree with no files. Takes no memory.
    pub fn empty(alloc: A) -> PathTree<A>
        ensures { result ≡ no_files }
    {
        PathTree { root: None, alloc }
    }

    /// The files of a tree in the store, which holds the tree and all trees below it, as after `write`. What files and
    /// gitlinks name needn't be held. The one error is `OutOfMemory`.
    ///
    /// Cost: the bytes of the trees, each read once at however many paths it stands, since what a store holds is canonical;
    /// for each directory a look-up in the store and the logarithm of the number of trees. Takes memory for the trees'
    /// entries and their components. Source: gitglossary(7), "tree object".
    pub fn load<N: Namer>(
        alloc: A,
        store: &Store<N, A>,
        name: &Name,
    ) -> Result<PathTree<A>, TreeFault>
        requires { NamesHeldTree (N.name_of store.now.0) store.now.1 name.now }
        ensures files { LoadsFiles (N.name_of store.now.0) store.now.1 name.now result }
        ensures home { IfOk result (HoldsIn N.name_of store.now IsAtHome) }
    {
        let mut loaded = LoadedTrees::new(alloc);
        PathTree::load_among(alloc, store, name, &mut loaded)
    }

    /// The files that `load` gives, where some trees are loaded from the store already: they are shared, and not read again.
    /// Each tree that is read is from then on among them, until they have many more entries than one tree: then they are let
    /// go, and read again where they are asked for. The one error is `OutOfMemory`.
    ///
    /// Cost: that of `load`, for the trees that are not among those that are loaded. Takes memory for at most 65,536 entries
    /// and those of three trees as large as the largest that was loaded. Source: git-fast-import(1), "from", on a commit at
    /// which no branch stands.
    pub fn load_among<N: Namer>(
        alloc: A,
        store: &Store<N, A>,
        name: &Name,
        loaded: &mut LoadedTrees<A>,
    ) -> Result<PathTree<A>, TreeFault>
        requires held { NamesHeldTree (N.name_of store.now.0) store.now.1 name.now }
        requires loaded { HoldsIn N.name_of store.now AreLoaded loaded.old }
        ensures files { LoadsFiles (N.name_of store.now.0) store.now.1 name.now result }
        ensures home { IfOk result (HoldsIn N.name_of store.now IsAtHome) }
        ensures loaded { HoldsIn N.name_of store.now AreLoaded loaded.new }
    {
        loaded.make_room();
        let directory = Directory::load(alloc, store, name, MOST_BYTES, loaded)?;
        Ok(PathTree {
            root: Some(directory),
            alloc,
        })
    }

    /// Removes each file. Takes no memory. Source: git-fast-import(1), "filedeleteall".
    pub fn clear(&mut self)
        ensures { self.new ≡ no_files }
    {
        self.root = None;
    }

    /// Each tree is a file map of files' modes and names. Takes no memory.
    pub fn name_map(&self)
        ensures { IsNameMap self.now.files }
    {
        let _ = &self.root;
    }

    /// What stands at a path, and none where nothing does. The root is a directory even with no files.
    ///
    /// Cost: for each component of the path, two searches by halves in one directory. Takes no memory. Source:
    /// gitglossary(7), "tree".
    pub fn entry(&self, path: &TreePath<A>) -> Option<Found>
        ensures { option_map standing_of result ≡ standing_at self.now.files path.now }
    {
        match &self.root {
            Some(root) => root.entry(path, 0),
            None if path.len() == 0 => Some(Found::Directory),
            None => None,
        }
    }

    /// The same files once more: later edits of one change nothing in the other. The one error is `OutOfMemory`, where
    /// more trees would share a directory than can be counted.
    ///
    /// Cost: one step, since both share their directories. Takes no memory. Source: git-fast-import(1), "from", on a
    /// branch that begins with another's files.
    pub fn duplicate(&self) -> Result<PathTree<A>, TreeFault>
        ensures { Gives fault_of (λ copy. copy) result (Ok self.now) }
    {
        let root = match &self.root {
            Some(root) => Some(root.shared()?),
            None => None,
        };
        Ok(PathTree {
            root,
            alloc: self.alloc,
        })
    }

    /// The files, in the byte order of their whole paths. The one error is `OutOfMemory`.
    ///
    /// Cost: the bytes of all paths, in time and in memory. Source: gitglossary(7), "tree".
    pub fn list(&self) -> Result<Vec<(TreePath<A>, Mode, Name), A>, TreeFault>
        ensures { Gives fault_of (λ files. map shown_listed files.items) result
            (Ok self.now.files) }
    {
        let mut files = Vec::new(self.alloc);
        if let Some(root) = &self.root {
            root.list_into(self.alloc, &TreePath::root(self.alloc), &mut files)?;
        }
        Ok(files)
    }

    /// Puts a file at a path, in place of what stands there or below it, and of a file above it.
    /// `RootNotTree` where the path is the root; then `OutOfMemory`. Both leave the tree as it was.
    ///
    /// Cost: for each directory on the path, searches by halves among its entries. One that no other tree shares changes in
    /// place: a file that stands takes no memory, and a new one moves the entries behind its place, and takes memory for each
    /// of its components of more than 24 bytes, for the directories that it needs and where the entries have no room. Where a
    /// file and a directory change places, the entries behind each place move. Of one that is shared the entries are made anew;
    /// what stands beside the path is shared. Where what reached furthest goes, the entries are gone through once, to the first
    /// that reaches as far.
    /// Source: git-fast-import(1), "filemodify".
    pub fn modify(&mut self, path: &TreePath<A>, mode: Mode, name: Name) -> Result<(), TreeFault>
        requires { mode ≢ modes.Dir }
        ensures map { Becomes self.new result
            (modified self.old.files path.now (mode, name.bytes)) }
        ensures root { path.now ≡ [] → result ≡ Err faults.RootNotTree }
        ensures unchanged { OnErr result (self.new ≡ self.old) }
        ensures home { KeepsHome self.old self.new }
    {
        if path.len() == 0 {
            return Err(TreeFault::RootNotTree);
        }
        is_name(name.bytes.as_slice());
        let file = Item::File(mode, name);
        let Some(root) = &mut self.root else {
            self.root = Some(Directory::of_item(self.alloc, path, 0, &file)?);
            return Ok(());
        };
        root.graft(self.alloc, path, 0, &file)?;
        Ok(())
    }

    /// Removes what stands at or below a path, and the directories that are left with no file. The root stands above all
    /// files, and where nothing stands nothing changes. The one error is `OutOfMemory`, which leaves the tree as it was.
    ///
    /// Cost: a look for what stands there, and then as for `modify`, with a move of the entries behind the one that goes. Where
    /// no other tree shares the directories on the path, and where nothing stands, it takes no memory.
    /// Source: git-fast-import(1), "filedelete".
    pub fn remove(&mut self, path: &TreePath<A>) -> Result<(), TreeFault>
        ensures map { Becomes self.new result (Ok (removed self.old.files path.now)) }
        ensures root { path.now ≡ [] → IsOk result }
        ensures missing { standing_at self.old.files path.now ≡ None → self.new ≡ self.old }
        ensures absent { standing_at self.old.files path.now ≡ None → IsOk result }
        ensures unchanged { OnErr result (self.new ≡ self.old) }
        ensures home { KeepsHome self.old self.new }
    {
        if self.entry(path).is_none() {
            return Ok(());
        }
        if path.len() == 0 {
            self.clear();
            return Ok(());
        }
        let Some(root) = &mut self.root else {
            return Ok(());
        };
        root.remove(self.alloc, path, 0)?;
        Ok(())
    }

    /// Puts what stands at or below the source at the destination too, in place of what stood there or below it, and of a
    /// file above it. The source is read before, so one of the two may be above the other: a copy of the root to `d` has
    /// the files `d/..` of all files.
    ///
    /// `NoSuchPath` where no file stands at or below the source; then `RootNotTree` where a file would be the root; then
    /// `PathTooLong` where a path would have more than 4,095 bytes; then `OutOfMemory`. Each leaves the tree as it was.
    /// Cost: as for `modify`. A directory is shared, and none of its paths is looked at, since each directory knows the bytes of
    /// the longest below it. Source:
    /// git-fast-import(1), "filecopy".
    pub fn copy(&mut self, source: &TreePath<A>, destination: &TreePath<A>) -> Result<(), TreeFault>
        ensures map { Becomes self.new result (copied self.old.files source.now destination.now) }
        ensures refused { Refuses (copied self.old.files source.now destination.now) result }
        ensures unchanged { OnErr result (self.new ≡ self.old) }
        ensures home { KeepsHome self.old self.new }
    {
        let Some(root) = &mut self.root else {
            return Err(TreeFault::NoSuchPath);
        };
        let held = root.held_for(source, destination)?;
        let item = held.item()?;
        root.place(self.alloc, destination, item)?;
        Ok(())
    }

    /// Takes out what stands at or below the source, and puts it at the destination, in place of what then stands there
    /// or below it, and of a file above it. So a file `a` can become `a/c`, and a rename to the same path changes
    /// nothing.
    ///
    /// The errors are those of `copy`, in their order, and each leaves the tree as it was.
    /// Cost: as for `modify` at both paths. No path below the source is looked at.
    /// Source: git-fast-import(1), "filerename".
    pub fn rename(
        &mut self,
        source: &TreePath<A>,
        destination: &TreePath<A>,
    ) -> Result<(), TreeFault>
        ensures map { Becomes self.new result (renamed self.old.files source.now destination.now) }
        ensures refused { Refuses (renamed self.old.files source.now destination.now) result }
        ensures unchanged { OnErr result (self.new ≡ self.old) }
        ensures home { KeepsHome self.old self.new }
    {
        let Some(root) = &mut self.root else {
            return Err(TreeFault::NoSuchPath);
        };
        let held = root.held_for(source, destination)?;
        let item = held.item()?;
        root.carry(self.alloc, source, destination, item)?;
        Ok(())
    }

    /// Puts the tree of each directory into the store, those below a directory before its own, and answers the name of
    /// the root's, which is then held with all trees below it. A tree that is held already isn't put again, and no name
    /// that the tree remembers is trusted: so it is right for any store. From then on the tree remembers these names.
    ///
    /// `NameHeld` where a tree has the name of an object of another kind or with other bytes, and `OutOfMemory`: the trees that
    /// were put by then stay, a front of all in their order, and nothing else, behind the records that the store had; and the
    /// tree stays as it was, with the names that it remembers. The files stay as they were in any case.
    /// Cost: the bytes of all paths and of the trees, and for each directory a look-up in the store. Takes memory for the
    /// list of the files, for two trees of them, for the new records, and for one body at a time. Source: gitglossary(7),
    /// "tree object".
    pub fn write<N: Namer>(&mut self, store: &mut Store<N, A>) -> Result<Name, TreeFault>
        ensures name { IfOk result (IsTreeName (N.name_of store.old.0) self.old.files) }
        ensures records { StoresAll N.name_of tree_records self.old.files
            store.old store.new result }
        ensures held { IfOk result (HoldsTree (N.name_of store.old.0) store.new.1 self.old.files) }
        ensures front { take (length store.old.1) store.new.1 ≡ store.old.1 }
        ensures namer { store.new.0 ≡ store.old.0 }
        ensures map { self.new.files ≡ self.old.files }
        ensures unchanged { OnErr result (self.new ≡ self.old) }
        ensures home { IfOk result (λ _. IsAtHome (N.name_of store.old.0) store.new.1 self.new) }
        ensures remembers { IfOk result (λ _. RemembersName self.new) }
    {
        let mut tree = self.without_names()?;
        let name = tree.write_shared(store)?;
        *self = tree;
        Ok(name)
    }

    /// Does what `write` does, for a tree that is at home in the store: each name that it remembers is that of a tree
    /// which the store holds with all trees below it. So it doesn't look below a remembered name.
    ///
    /// The errors are those of `write`, and none comes where the tree remembers its own name.
    /// Cost: the bytes of the trees without a remembered name, and for each of them a look-up in the store. Takes memory as
    /// `write` does, for these alone, and none where the tree remembers its own name. Source: gitglossary(7), "tree object".
    pub fn write_shared<N: Namer>(&mut self, store: &mut Store<N, A>) -> Result<Name, TreeFault>
        requires home { HoldsIn N.name_of store.now IsAtHome self.now }
        ensures name { IfOk result (IsTreeName (N.name_of store.old.0) self.old.files) }
        ensures records { StoresAll N.name_of tree_records self.old.files
            store.old store.new result }
        ensures held { IfOk result (HoldsTree (N.name_of store.old.0) store.new.1 self.old.files) }
        ensures front { take (length store.old.1) store.new.1 ≡ store.old.1 }
        ensures namer { store.new.0 ≡ store.old.0 }
        ensures map { self.new.files ≡ self.old.files }
        ensures unchanged { OnErr result (self.new ≡ self.old) }
        ensures home { IfOk result (λ _. IsAtHome (N.name_of store.old.0) store.new.1 self.new) }
        ensures remembers { IfOk result (λ _. RemembersName self.new) }
        ensures named { IsTrue (is_named self.old.names) → IsOk result }
    {
        let mut body = Vec::new(self.alloc);
        let Some(root) = &self.root else {
            let none: Vec<Entry<A>, A> = Vec::new(self.alloc);
            return put_tree(none.as_slice(), store, &mut body);
        };
        if let Some(name) = root.own_name() {
            return Ok(name);
        }
        let root = root.written(self.alloc, store, &mut body)?;
        let name = *root.tree_name();
        self.root = Some(root);
        Ok(name)
    }

    // A tree of the same files that remembers no name. The one error is `OutOfMemory`.
    fn without_names(&self) -> Result<PathTree<A>, TreeFault>
        ensures files { GivesFiles result (Ok self.now.files) }
        ensures home { IfOk result (KeepsHome no_files) }
    {
        let files = self.list()?;
        let mut tree = PathTree::empty(self.alloc);
        for file in files.as_slice() {
            tree.modify(&file.0, file.1, file.2)?;
        }
        Ok(tree)
    }
}

// 20 bytes are a name.
fn is_name(bytes: &[u8])
    requires { length bytes.now ≡ 20 }
    ensures { IsTrue (is_name bytes.now) }
{}

//! Random stores.

use gx_additions::append_objects;
use gx_at::TextAt;
use gx_disk::{Disk, Plan};
use gx_look::Look;
use gx_object::{Kind, Name, Namer, Sha1Namer};
use gx_repo::{AddFault, RefChange, Repo};
use std::alloc::Global;
use std::hash::RandomState;

/// Numbers that look like random ones, the same for each seed.
#[derive(Drop)]
pub(crate) struct Dice {
    pub(crate) state: u64,
}

impl Dice {
    /// A number below another.
    pub(crate) fn below(&mut self, most: u64) -> u64 {
        self.state = self
            .state
            .wrapping_mul(6_364_136_223_846_793_005)
            .wrapping_add(1_442_695_040_888_963_407);
        if most == 0 {
            0
        } else {
            (self.state >> 33) % most
        }
    }

    /// One of these names.
    pub(crate) fn one_of(&mut self, names: &[Name]) -> Option<Name> {
        let place = self.below(names.len() as u64);
        names.get(place as usize).copied()
    }
}

/// A repository that grows at random, with the names of its objects by their kinds.
#[derive(Drop)]
pub(crate) struct Grown {
    pub(crate) repo: Repo<Sha1Namer, Global>,
    blobs: Vec<Name>,
    trees: Vec<Name>,
    commits: Vec<Name>,
}

const REFS: [&[u8]; 4] = [
    b"refs/heads/a",
    b"refs/heads/b",
    b"refs/heads/c",
    b"refs/remotes/origin/HEAD",
];

/// What stands behind the parents of a commit.
const PEOPLE: &[u8] = b"author A <a@b> 0 +0000\ncommitter A <a@b> 0 +0000\n\nm\n";

impl Grown {
    /// An empty one.
    pub(crate) fn new(alloc: Global, state: RandomState) -> Grown {
        Grown {
            repo: Repo::new(alloc, Sha1Namer, state),
            blobs: Vec::new(alloc),
            trees: Vec::new(alloc),
            commits: Vec::new(alloc),
        }
    }

    /// Adds a blob, a tree of some files and maybe a folder, and a commit, and sets a ref now and then.
    pub(crate) fn step(&mut self, alloc: Global, dice: &mut Dice) -> Option<()> {
        let mut room = Vec::new(alloc);
        self.step_with(&mut room, dice)
    }

    /// The same, with room for the bodies.
    fn step_with(&mut self, room: &mut Vec<u8>, dice: &mut Dice) -> Option<()> {
        self.add_blob(room, dice)?;
        self.add_tree(room, dice)?;
        self.add_commit(room, dice)?;
        if dice.below(3) == 0 {
            self.set_ref(dice)?;
        }
        if dice.below(8) == 0 {
            self.add_tag(room, dice)?;
        }
        Some(())
    }

    /// Adds an object, unless it is held.
    fn add(&mut self, kind: Kind, body: &[u8]) -> Option<Name> {
        match self.repo.add_record(kind, body) {
            Ok(name) => Some(name),
            Err(AddFault::DuplicateObject) => Some(Sha1Namer.name(kind, body)),
            Err(_) => None,
        }
    }

    fn add_blob(&mut self, room: &mut Vec<u8>, dice: &mut Dice) -> Option<()> {
        room.clear();
        room.resize(dice.below(200) as usize, b'x').ok()?;
        room.extend_from_slice(&dice.state.to_be_bytes()).ok()?;
        let blob = self.add(Kind::Blob, room.as_slice())?;
        self.blobs.push(blob).ok()
    }

    fn add_tree(&mut self, room: &mut Vec<u8>, dice: &mut Dice) -> Option<()> {
        room.clear();
        self.put_files(room, dice)?;
        if dice.below(2) == 0 {
            if let Some(tree) = dice.one_of(self.trees.as_slice()) {
                put_entry(room, b"40000 ", b"d", &tree)?;
            }
        }
        if dice.below(5) == 0 {
            let bytes = [9; 20];
            put_entry(room, b"160000 ", b"e", &Name { bytes })?;
        }
        let tree = self.add(Kind::Tree, room.as_slice())?;
        self.trees.push(tree).ok()
    }

    /// Puts the entries of up to three files.
    fn put_files(&self, room: &mut Vec<u8>, dice: &mut Dice) -> Option<()> {
        for name in [b"a", b"b", b"c"] {
            if name == b"a" || dice.below(2) == 0 {
                let blob = dice.one_of(self.blobs.as_slice())?;
                put_entry(room, b"100644 ", name, &blob)?;
            }
        }
        Some(())
    }

    fn add_commit(&mut self, room: &mut Vec<u8>, dice: &mut Dice) -> Option<()> {
        room.clear();
        let tree = dice.one_of(self.trees.as_slice())?;
        put_line(room, b"tree ", &tree)?;
        self.put_parents(room, dice)?;
        room.extend_from_slice(PEOPLE).ok()?;
        let commit = self.add(Kind::Commit, room.as_slice())?;
        self.commits.push(commit).ok()
    }

    /// Puts the lines of up to two parents.
    fn put_parents(&self, room: &mut Vec<u8>, dice: &mut Dice) -> Option<()> {
        let mut last = None;
        for _ in 0..dice.below(3) {
            if let Some(parent) = dice.one_of(self.commits.as_slice()) {
                if last != Some(parent) {
                    put_line(room, b"parent ", &parent)?;
                }
                last = Some(parent);
            }
        }
        Some(())
    }

    fn set_ref(&mut self, dice: &mut Dice) -> Option<()> {
        let target = dice.one_of(self.commits.as_slice())?;
        let name = *REFS.get(dice.below(4) as usize)?;
        self.repo.publish(&[RefChange { name, target }]).ok()
    }

    fn add_tag(&mut self, room: &mut Vec<u8>, dice: &mut Dice) -> Option<()> {
        room.clear();
        let commit = dice.one_of(self.commits.as_slice())?;
        put_line(room, b"object ", &commit)?;
        room.extend_from_slice(b"type commit\ntag v1\ntagger A <a@b> 0 +0000\n\nm\n")
            .ok()?;
        let target = self.add(Kind::Tag, room.as_slice())?;
        let name = b"refs/tags/v1";
        self.repo.publish(&[RefChange { name, target }]).ok()
    }
}

fn put_entry(body: &mut Vec<u8>, mode: &[u8], name: &[u8], object: &Name) -> Option<()> {
    body.extend_from_slice(mode).ok()?;
    body.extend_from_slice(name).ok()?;
    body.push(0).ok()?;
    body.extend_from_slice(&object.bytes).ok()
}

fn put_line(body: &mut Vec<u8>, word: &[u8], object: &Name) -> Option<()> {
    body.extend_from_slice(word).ok()?;
    body.extend_from_slice(&object.hex()).ok()?;
    body.push(b'\n').ok()
}

/// The growing text of an empty repository.
fn empty_text(alloc: Global, state: RandomState) -> Option<Vec<u8>> {
    let repo = Repo::new(alloc, Sha1Namer, state);
    gx_growing_file::write(alloc, &repo).ok()
}

/// A disk with the growing text of an empty repository.
fn empty_disk(alloc: Global, state: RandomState) -> Option<Disk<Global>> {
    let text = empty_text(alloc, state)?;
    Disk::new(alloc, text.as_slice(), Plan::NONE).ok()
}

/// Grows a repository by some random steps before each of so many segments, which are appended to its text.
fn grow(
    alloc: Global,
    grown: &mut Grown,
    disk: &mut Disk<Global>,
    dice: &mut Dice,
    segments: u64,
) -> Option<()> {
    for _ in 0..segments {
        let held = grown.repo.store().len();
        for _ in 0..dice.below(6) {
            grown.step(alloc, dice)?;
        }
        append(alloc, disk, &grown.repo, held)?;
    }
    Some(())
}

/// A growing text of so many segments, of an empty repository that takes some random steps before each.
pub(crate) fn random_text(
    alloc: Global,
    grown: &mut Grown,
    dice: &mut Dice,
    segments: u64,
    state: RandomState,
) -> Option<Vec<u8>> {
    let mut disk = empty_disk(alloc, state)?;
    match grow(alloc, grown, &mut disk, dice, segments) {
        Some(()) => Vec::from_slice(alloc, disk.text()).ok(),
        None => None,
    }
}

/// Appends what a repository has more than so many objects, and its refs.
fn append(
    alloc: Global,
    disk: &mut Disk<Global>,
    repo: &Repo<Sha1Namer, Global>,
    held: usize,
) -> Option<()> {
    let text = Vec::from_slice(alloc, disk.text()).ok()?;
    let look = look_into(alloc, text.as_slice())?;
    append_objects(alloc, disk, look.ending(), repo, held).ok()
}

/// A look into a text that is read in pieces.
pub(crate) fn look_into(alloc: Global, text: &[u8]) -> Option<Look<TextAt<'_>, Sha1Namer, Global>> {
    let piece = 1_000;
    Look::open(alloc, Sha1Namer, TextAt { text, piece }).ok()
}

//! Objects that are added to a repository. Source: gitglossary(7), "object database".
ghost use Rattle.std.specs.Prelude.{◌≡◌, map, None, IsTrue, IsOk, IfOk, IfErr, OnErr};
ghost use Rattle.gx_model.specs.declared.objects.Kind.TheVariants as kinds;
ghost use Rattle.gx_model.specs.Records.RecordFaults.{content_fault};
ghost use Rattle.gx_model.specs.Texts.RefNames.{is_tag_name};
ghost use Rattle.gx_model.specs.Records.Sound.{Holds, IsLinked, IsNamedMap, Keeps};
ghost use Rattle.gx_model.specs.Histories.{record_for};
ghost use Rattle.gx_model.specs.Histories.Values.{blob_value};
ghost use Rattle.gx_model.specs.Texts.Headers.{is_headers};
ghost use Rattle.gx_object.specs.Parts.{commit_parts, tag_parts};
ghost use Rattle.gx_store.specs.Bodies.{bytes_of};
ghost use Rattle.gx_tree.specs.Named.{IsAtHome, RemembersName, is_named};
ghost use Rattle.gx_tree.specs.StoreFaults.{tree_fault};
ghost use Rattle.gx_repo.specs.Additions.{Adds, IsWriteFault, commit_record, tag_record, value_among};
ghost use Rattle.gx_repo.specs.Rooms.{room_below};
ghost use Rattle.gx_repo.specs.Calls.{AddsAnew, AddsObject, AddsTree, GainsObject, GainsTree, GainsValue, HasShortPathsBelow, HidesNoFault, HidesNoObject, NamesValue, commit_given, tag_given, tree_given};
ghost use Rattle.gx_repo.specs.Offered.{bytes_offered};
ghost use Rattle.gx_repo.specs.Objects.{HoldsEach};
ghost use Rattle.gx_repo.specs.Records.{MayRefuseRecord};

use crate::checking::checked_room;
use crate::fault::AddFault;
use crate::offered::Offered;
use crate::repo::Repo;
use crate::rooms::enter_room;
use crate::wanting::{fault_without_memory, fault_without_rooms};
use gx_model::repository_laws::{
    links_tell_values, parts_change, puts_add_values, trees_add_file_maps,
};
use gx_model::store_laws::records_are_taken;
use gx_object::{CommitParts, Kind, Name, Namer, TagParts, encode_commit, encode_tag};
use gx_store::{Body, StoreFault};
use gx_tree::{PathTree, TreeFault};
use std::alloc::Allocator;

impl<N: Namer, A: Allocator + Copy> Repo<N, A> {
    /// Adds a blob, and answers its name. One that is held already is not added again.
    ///
    /// NameHeld comes where the name is held for another object, OutOfMemory only for one whose name isn't held; after a
    /// fault the repository is as it was.
    /// Cost: that of `Store::put`, which copies the bytes of a blob that isn't held. Source: gitglossary(7), "blob object".
    pub fn add_blob(&mut self, body: &[u8]) -> Result<Name, StoreFault>
        ensures namer { self.new.0 ≡ self.old.0 }
        ensures adds { AddsObject N.name_of self.old self.new kinds.Blob body.now result }
        ensures refs { self.new.1.refs ≡ self.old.1.refs }
        ensures history { GainsValue self.old self.new (blob_value body.now) result }
        ensures value { NamesValue N.name_of self.old (blob_value body.now) result }
        ensures held { IfOk result (λ name. Holds self.new.1.records kinds.Blob name.bytes) }
        ensures keeps { Keeps self.old.1.records self.new.1.records }
        ensures unhidden { HidesNoObject N.name_of self.old kinds.Blob body.now result }
    {
        self.add(Kind::Blob, Offered::Lent(body), 0)
    }

    /// Does what `add_blob` does, but takes no copy of the bytes: the repository keeps these, or drops them where the blob
    /// is held already or isn't added.
    ///
    /// The errors are those of `add_blob`. Cost: that of `Store::put_body`. Source: gitglossary(7), "blob object".
    pub fn add_blob_owned(&mut self, body: Vec<u8, A>) -> Result<Name, StoreFault>
        ensures namer { self.new.0 ≡ self.old.0 }
        ensures adds { AddsObject N.name_of self.old self.new kinds.Blob body.items result }
        ensures refs { self.new.1.refs ≡ self.old.1.refs }
        ensures history { GainsValue self.old self.new (blob_value body.items) result }
        ensures value { NamesValue N.name_of self.old (blob_value body.items) result }
        ensures held { IfOk result (λ name. Holds self.new.1.records kinds.Blob name.bytes) }
        ensures keeps { Keeps self.old.1.records self.new.1.records }
        ensures unhidden { HidesNoObject N.name_of self.old kinds.Blob body.items result }
    {
        self.add(Kind::Blob, Offered::Own(Body::Own(body)), 0)
    }

    /// Adds the canonical trees of a tree's files, those below first, and answers the name of the root's.
    /// The files that are no gitlinks are held as blobs. What is held already is not added again.
    ///
    /// NameHeld comes only where one of these trees has the name of another object; after a fault the repository and the
    /// tree are as they were.
    /// Cost: that of `PathTree::write`, and a look-up for each entry of the new trees. Source: gitglossary(7), "tree object".
    pub fn add_tree(&mut self, tree: &mut PathTree<A>) -> Result<Name, StoreFault>
        requires named { IsNamedMap self.now.1.records tree.now.files }
        ensures namer { self.new.0 ≡ self.old.0 }
        ensures adds { AddsTree N.name_of self.old self.new tree.old result }
        ensures refs { self.new.1.refs ≡ self.old.1.refs }
        ensures history { GainsTree self.old self.new tree.old result }
        ensures value { NamesValue N.name_of self.old (tree_given self.old tree.old) result }
        ensures held { IfOk result (λ name. Holds self.new.1.records kinds.Tree name.bytes) }
        ensures keeps { Keeps self.old.1.records self.new.1.records }
        ensures map { tree.new.files ≡ tree.old.files }
        ensures home { IfOk result
            (λ _. IsAtHome (N.name_of self.old.0) self.new.1.records tree.new) }
        ensures unchanged { OnErr result (tree.new ≡ tree.old) }
        ensures remembers { IfOk result (λ _. RemembersName tree.new) }
    {
        trees_add_file_maps();
        puts_add_values();
        let held = self.store.len();
        let name = match tree.write(&mut self.store) {
            Ok(name) => name,
            Err(fault) => {
                self.store.truncate(held);
                return Err(store_fault(fault));
            }
        };
        Ok(name)
    }

    /// Does what `add_tree` does, for a tree that is at home here: each name that it remembers is that of a tree which is
    /// held with all trees below it. So it doesn't look below a remembered name.
    ///
    /// The errors are those of `add_tree`, and none comes where the tree remembers its own name; after a fault the repository
    /// and the tree are as they were, and after any answer the tree is at home here.
    /// Cost: the bodies of the trees without a remembered name, and for each of them the number of records. Source:
    /// gitglossary(7), "tree object".
    pub fn add_tree_shared(&mut self, tree: &mut PathTree<A>) -> Result<Name, StoreFault>
        requires named { IsNamedMap self.now.1.records tree.now.files }
        requires home { IsAtHome (N.name_of self.now.0) self.now.1.records tree.now }
        ensures namer { self.new.0 ≡ self.old.0 }
        ensures adds { AddsTree N.name_of self.old self.new tree.old result }
        ensures refs { self.new.1.refs ≡ self.old.1.refs }
        ensures history { GainsTree self.old self.new tree.old result }
        ensures value { NamesValue N.name_of self.old (tree_given self.old tree.old) result }
        ensures held { IfOk result (λ name. Holds self.new.1.records kinds.Tree name.bytes) }
        ensures keeps { Keeps self.old.1.records self.new.1.records }
        ensures map { tree.new.files ≡ tree.old.files }
        ensures home { IsAtHome (N.name_of self.old.0) self.new.1.records tree.new }
        ensures unchanged { OnErr result (tree.new ≡ tree.old) }
        ensures remembers { IfOk result (λ _. RemembersName tree.new) }
        ensures named { IsTrue (is_named tree.old.names) → IsOk result }
    {
        trees_add_file_maps();
        puts_add_values();
        let held = self.store.len();
        let name = match tree.write_shared(&mut self.store) {
            Ok(name) => name,
            Err(fault) => {
                self.store.truncate(held);
                return Err(store_fault(fault));
            }
        };
        Ok(name)
    }

    /// Adds a commit whose tree and parents are held, and answers its name. One that is held already is not added again.
    ///
    /// NameHeld comes only where the name is held for another object. OutOfMemory may come in place of any answer, since the
    /// body is made before its name is known; behind that nothing grows for an object that is held. After a fault the
    /// repository is as it was.
    /// Cost: that of making the body, and that of `Store::put`, which copies one that isn't held, without spare room.
    /// Source: gitglossary(7), "commit object".
    pub fn add_commit(&mut self, parts: &CommitParts<'_>) -> Result<Name, StoreFault>
        requires headers { IsTrue (is_headers (commit_parts parts.now).text.headers) }
        requires tree { Holds self.now.1.records kinds.Tree (commit_parts parts.now).tree }
        requires parents { HoldsEach self.now.1.records kinds.Commit
            (commit_parts parts.now).parents }
        ensures namer { self.new.0 ≡ self.old.0 }
        ensures adds { Adds self.old.1.records self.new.1.records
            (commit_record (N.name_of self.old.0) (commit_parts parts.now)) result }
        ensures refs { self.new.1.refs ≡ self.old.1.refs }
        ensures history { GainsValue self.old self.new (commit_given self.old parts.now) result }
        ensures value { NamesValue N.name_of self.old (commit_given self.old parts.now) result }
        ensures held { IfOk result (λ name. Holds self.new.1.records kinds.Commit name.bytes) }
        ensures keeps { Keeps self.old.1.records self.new.1.records }
    {
        let Ok(body) = encode_commit(self.alloc, parts) else {
            return Err(StoreFault::OutOfMemory);
        };
        self.add(Kind::Commit, Offered::Lent(&body), 0)
    }

    /// Adds a tag whose commit is held, and answers its name. One that is held already is not added again.
    ///
    /// NameHeld comes only where the name is held for another object. OutOfMemory may come in place of any answer, since the
    /// body is made before its name is known; behind that nothing grows for an object that is held. After a fault the
    /// repository is as it was.
    /// Cost: that of making the body, and that of `Store::put`, which copies one that isn't held, without spare room.
    /// Source: gitglossary(7), "tag object".
    pub fn add_tag(&mut self, parts: &TagParts<'_>) -> Result<Name, StoreFault>
        requires name { IsTrue (is_tag_name (tag_parts parts.now).name) }
        requires object { Holds self.now.1.records kinds.Commit (tag_parts parts.now).object }
        ensures namer { self.new.0 ≡ self.old.0 }
        ensures adds { Adds self.old.1.records self.new.1.records
            (tag_record (N.name_of self.old.0) (tag_parts parts.now)) result }
        ensures refs { self.new.1.refs ≡ self.old.1.refs }
        ensures history { GainsValue self.old self.new (tag_given self.old parts.now) result }
        ensures value { NamesValue N.name_of self.old (tag_given self.old parts.now) result }
        ensures held { IfOk result (λ name. Holds self.new.1.records kinds.Tag name.bytes) }
        ensures keeps { Keeps self.old.1.records self.new.1.records }
    {
        let Ok(body) = encode_tag(self.alloc, parts) else {
            return Err(StoreFault::OutOfMemory);
        };
        self.add(Kind::Tag, Offered::Lent(&body), 0)
    }

    /// Adds a record of which nothing is known, and answers its name.
    ///
    /// The errors are those of `add_body`. Cost: that of it, and a copy of the bytes of a record that is added. Source: Pro
    /// Git, "Git Objects".
    pub fn add_record(&mut self, kind: Kind, body: &[u8]) -> Result<Name, AddFault>
        ensures namer { self.new.0 ≡ self.old.0 }
        ensures adds { AddsAnew N.name_of self.old self.new kind body.now result }
        ensures refs { self.new.1.refs ≡ self.old.1.refs }
        ensures history { GainsObject self.old self.new kind body.now result }
        ensures unhidden { HidesNoFault N.name_of self.old kind body.now result }
    {
        self.add_anew(kind, Offered::Lent(body))
    }

    /// Adds a record of which nothing is known, and answers its name. The repository keeps the body, and no copy of it; or
    /// drops it where it isn't added.
    ///
    /// What it has against it is answered in this order. `BadObject`: the body isn't a canonical one of its kind.
    /// `Dangling`: a link isn't held, or is held as another kind. `BadObject`: an entry names a tree without entries, or
    /// a path below the tree has more than 4,095 bytes. `DuplicateObject`: the name is held, whatever its bytes.
    /// `OutOfMemory`: a growth was refused. It hides none of these, but of a tree that isn't held: that a path below it is too
    /// long, or else that another object has its name. After a fault the repository is as it was.
    /// Cost: that of `Store::put_body`, and a look-up for each link, but for a file's that stands alike in the tree
    /// beside which a new one is looked at: one that was added here, with the same first or the same last entry, and not
    /// much over twice as long. Each entry of both is looked at once, and so are those of the trees that were added since
    /// the last such call; where there are such, those of the new tree are looked at once more. Source: Pro Git, "Git
    /// Objects".
    pub fn add_body(&mut self, kind: Kind, body: Body<A>) -> Result<Name, AddFault>
        ensures namer { self.new.0 ≡ self.old.0 }
        ensures adds { AddsAnew N.name_of self.old self.new kind (bytes_of body) result }
        ensures refs { self.new.1.refs ≡ self.old.1.refs }
        ensures history { GainsObject self.old self.new kind (bytes_of body) result }
        ensures unhidden { HidesNoFault N.name_of self.old kind (bytes_of body) result }
    {
        self.add_anew(kind, Offered::Own(body))
    }

    /// Adds a record of which nothing is known.
    fn add_anew(&mut self, kind: Kind, body: Offered<'_, A>) -> Result<Name, AddFault>
        ensures namer { self.new.0 ≡ self.old.0 }
        ensures adds { AddsAnew N.name_of self.old self.new kind (bytes_offered body.entry) result }
        ensures refs { self.new.1.refs ≡ self.old.1.refs }
        ensures history { GainsObject self.old self.new kind (bytes_offered body.entry) result }
        ensures unhidden { HidesNoFault N.name_of self.old kind (bytes_offered body.entry) result }
    {
        records_are_taken();
        let room = self.room_of(kind, body.as_slice())?;
        let held = self.store.len();
        let name = match self.add(kind, body, room) {
            Ok(name) => name,
            Err(StoreFault::NameHeld) => return Err(AddFault::DuplicateObject),
            Err(StoreFault::OutOfMemory) => return Err(AddFault::OutOfMemory),
        };
        if self.store.len() == held {
            return Err(AddFault::DuplicateObject);
        }
        Ok(name)
    }

    /// The room of what is below an object, or what its body has against it. The rooms of all records are entered before a
    /// tree's is told, and the place at which it is to stand behind.
    fn room_of(&mut self, kind: Kind, body: &[u8]) -> Result<usize, AddFault>
        ensures same { self.new ≡ self.old }
        ensures ok { IfOk result (λ _. content_fault self.old.1.records kind body.now ≡ None) }
        ensures room { IfOk result (λ room. room ≡ room_below self.old.1.records kind body.now) }
        ensures fault { IfErr result
            (MayRefuseRecord self.old.1.records (record_for (N.name_of self.old.0) kind body.now)) }
    {
        parts_change();
        let room = match checked_room(&self.store, &mut self.rooms, &self.hints, kind, body) {
            Ok(room) => room,
            Err(fault) => return Err(fault_without_memory(&self.store, kind, body, fault)),
        };
        let Ok(()) = self.hints.make_room(kind) else {
            return Err(fault_without_rooms(&self.store, kind, body));
        };
        self.hints.enter(kind, body, self.store.len());
        Ok(room)
    }

    /// Puts an object whose links are held, with the room of what is below it where all before it have theirs.
    fn add(&mut self, kind: Kind, body: Offered<'_, A>, room: usize) -> Result<Name, StoreFault>
        requires linked { IsLinked self.now.1.records kind (bytes_offered body) }
        requires short { HasShortPathsBelow N.name_of self.now kind (bytes_offered body) }
        requires room { room ≡ room_below self.now.1.records kind (bytes_offered body) }
        ensures namer { self.new.0 ≡ self.old.0 }
        ensures adds { AddsObject N.name_of self.old self.new kind
            (bytes_offered body.entry) result }
        ensures refs { self.new.1.refs ≡ self.old.1.refs }
        ensures history { GainsObject self.old self.new kind (bytes_offered body.entry) result }
        ensures value { NamesValue N.name_of self.old
            (value_among self.old.1.records kind (bytes_offered body.entry)) result }
        ensures held { IfOk result (λ name. Holds self.new.1.records kind name.bytes) }
        ensures keeps { Keeps self.old.1.records self.new.1.records }
        ensures unhidden { HidesNoObject N.name_of self.old kind (bytes_offered body.entry) result }
    {
        links_tell_values();
        puts_add_values();
        let held = self.store.len();
        let name = body.put_into(&mut self.store, kind)?;
        let Ok(()) = enter_room(&self.store, &mut self.rooms, held, room) else {
            self.store.truncate(held);
            return Err(StoreFault::OutOfMemory);
        };
        Ok(name)
    }
}

/// A tree is written with no other fault than those of the store.
fn store_fault(fault: TreeFault) -> StoreFault
    requires { IsWriteFault fault }
    ensures { tree_fault result ≡ fault }
{
    match fault {
        TreeFault::OutOfMemory => StoreFault::OutOfMemory,
        TreeFault::NameHeld => StoreFault::NameHeld,
        _ => unreachable!(),
    }
}

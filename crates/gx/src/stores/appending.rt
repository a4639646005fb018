//! What is new of a growing store file, which is appended to it.
//!
//! Who appends has claimed the file's next text, as who replaces it has: so one run at a time changes it.

use super::before::Before;
use super::host::Host;
use super::process::most_bytes_of_a_file;
use crate::fault::RunFault;
use crate::looks::file_at::FileAt;
use crate::looks::{FileLook, has_room_for_rows, row_count};
use crate::run::{Run, Subject};
use gx_additions::{AdditionFault, append_additions, append_objects, append_refs};
use gx_append::{AppendFault, Device};
use gx_cli::{CliFault, Repo};
use gx_look::Look;
use gx_object::Sha1Namer;
use gx_place::{FileKind, Place, Stamp, System};
use gx_store::Store;
use std::alloc::Global;
use std::fs::File;
use std::io::{self, ErrorKind};
use std::os::unix::fs::MetadataExt;

/// Has a growing store file have a repository that has the file's objects, and more or none. Answers whether it has it: not where a
/// whole text has to take its place.
///
/// That is so where the new objects outweigh the file: a whole text goes out as it is made, where what is appended is held in memory
/// first. And where the file can't be written as it stands or isn't the one that was read, or what is appended finds no memory.
pub(super) fn grow_by(
    host: Host<'_>,
    place: &Place,
    before: &Before,
    repo: &Repo<Sha1Namer, Global>,
) -> Result<bool, RunFault> {
    if before.has_all_of(repo) {
        return settle(host, place, before.stamp);
    }
    if before.is_outweighed_by(repo) {
        return Ok(false);
    }
    match InPlace::open(host, place) {
        Some(opened) if opened.stamp == before.stamp => {
            opened.append_repo(place, repo, before.objects)
        }
        _ => Ok(false),
    }
}

/// A growing store file that is open, and can be appended to as it stands.
#[derive(Drop)]
pub(crate) struct InPlace<'a> {
    host: Host<'a>,
    file: File,
    stamp: Stamp,
    pub(crate) look: FileLook<'a>,
}

impl<'a> InPlace<'a> {
    /// Opens a store file that is a growing one, and has room for the rows that it tells: one that this user may write, and that has no
    /// other name, which would show the change, too.
    pub(super) fn open(host: Host<'a>, place: &Place) -> Option<InPlace<'a>> {
        let mut host = host;
        let file = host.open_to_write(place.store()).ok()?;
        let found = host.look_at(&file).ok()?;
        let is_single = file.metadata().ok()?.nlink() == 1;
        if found.kind != FileKind::File || !is_single {
            return None;
        }
        let source = FileAt::read_only(host.run, file.try_clone().ok()?);
        let look = Look::open(host.run.rt.alloc(), Sha1Namer, source).ok()?;
        if !has_room_for_rows(&look) {
            return None;
        }
        Some(InPlace {
            host,
            file,
            stamp: found.stamp,
            look,
        })
    }

    /// How many bytes it has.
    pub(crate) fn size(&self) -> u64 {
        self.stamp.size
    }

    /// Whether it has no objects, or not more than so many bytes.
    pub(crate) fn is_outweighed_by(&self, bytes: u64) -> bool {
        row_count(&self.look) == 0 || bytes >= self.stamp.size
    }

    /// Appends what a repository has beside the objects that the file holds, so many.
    fn append_repo(
        &self,
        place: &Place,
        repo: &Repo<Sha1Namer, Global>,
        held: usize,
    ) -> Result<bool, RunFault> {
        let mut device = self.device(place)?;
        let (alloc, ending) = (self.host.run.rt.alloc(), self.look.ending());
        let answer = append_objects(alloc, &mut device, ending, repo, held);
        self.appended(answer)
    }

    /// Appends new objects, and so many refs in place of the file's, by their lines. Answers whether there was memory for it; where
    /// there wasn't, nothing is written.
    pub(crate) fn append_new(
        &self,
        place: &Place,
        new: &Store<Sha1Namer, Global>,
        count: u64,
        refs: &[u8],
    ) -> Result<bool, RunFault> {
        self.want_same(place)?;
        let mut device = self.device(place)?;
        let (alloc, ending) = (self.host.run.rt.alloc(), self.look.ending());
        let held = row_count(&self.look);
        let answer = append_additions(alloc, &mut device, ending, held, new, count, refs);
        self.appended(answer)
    }

    /// Does so with refs alone.
    pub(crate) fn append_refs(
        &self,
        place: &Place,
        count: u64,
        refs: &[u8],
    ) -> Result<bool, RunFault> {
        self.want_same(place)?;
        let mut device = self.device(place)?;
        let (alloc, ending) = (self.host.run.rt.alloc(), self.look.ending());
        let answer = append_refs(alloc, &mut device, ending, count, refs);
        self.appended(answer)
    }

    /// Makes it durable as it is.
    pub(crate) fn settle(&self, place: &Place) -> Result<(), RunFault> {
        if settle(self.host, place, self.stamp)? {
            Ok(())
        } else {
            Err(changed(self.host.run))
        }
    }

    /// Refuses a file that isn't the one that was opened any more.
    fn want_same(&self, place: &Place) -> Result<(), RunFault> {
        let mut host = self.host;
        match host.look(place.store()) {
            Ok(found) if found.stamp == self.stamp => Ok(()),
            _ => Err(changed(self.host.run)),
        }
    }

    /// What the file is written by. That it stands there is made durable first, and what a killed run left behind its end goes.
    fn device(&self, place: &Place) -> Result<FileAt<'a>, RunFault> {
        let run = self.host.run;
        settle_folder(self.host, place)?;
        let file = run.want_read(self.file.try_clone())?;
        let mut device = FileAt::of_most(run, file, most_bytes_of_a_file(run.rt));
        // where it can't be cut off, it is written over
        let _ = device.cut(self.look.ending().ends);
        Ok(device)
    }

    /// What comes of an append.
    fn appended(&self, answer: Result<(), AdditionFault>) -> Result<bool, RunFault> {
        let run = self.host.run;
        match answer {
            Ok(()) => Ok(true),
            Err(AdditionFault::OutOfMemory) => Ok(false),
            Err(AdditionFault::ReadFailed) => Err(RunFault::Command(CliFault::ReadFailed)),
            Err(AdditionFault::Append(AppendFault::Unwritten(error))) => {
                Err(run.failed(Subject::Store, error, CliFault::WriteFailed))
            }
            Err(AdditionFault::Append(AppendFault::Unsettled(error))) => {
                Err(run.failed(Subject::Unsettled, error, CliFault::WriteFailed))
            }
        }
    }
}

/// Makes durable a store file that is to stay as it is: who wrote it may have been killed before. Answers whether it is the one that
/// was read.
pub(super) fn settle(mut host: Host<'_>, place: &Place, stamp: Stamp) -> Result<bool, RunFault> {
    let Some(opened) = open_same(&mut host, place, stamp) else {
        return Ok(false);
    };
    let synced = host.sync(&opened);
    host.run.want_written(Subject::Store, synced)?;
    settle_folder(host, place)?;
    Ok(true)
}

/// Why a store file isn't written that isn't the one that was read any more.
pub(super) fn changed(run: &Run<'_>) -> RunFault {
    let error = io::Error::other("changed since it was read");
    run.failed(Subject::Store, error, CliFault::WriteFailed)
}

/// Opens a store file, where that is the one that was read.
pub(super) fn open_same(host: &mut Host<'_>, place: &Place, stamp: Stamp) -> Option<File> {
    let opened = host.open(place.store()).ok()?;
    let is_same = host.look_at(&opened).ok()?.stamp == stamp;
    is_same.then_some(opened)
}

/// Makes durable that the store file stands there.
fn settle_folder(mut host: Host<'_>, place: &Place) -> Result<(), RunFault> {
    match sync_folder(&mut host, place) {
        // a file system that has no sync of folders says that this is no valid request
        Err(error) if error.kind() == ErrorKind::InvalidInput => Ok(()),
        synced => Ok(host.run.want_written(Subject::Folder, synced)?),
    }
}

fn sync_folder(host: &mut Host<'_>, place: &Place) -> io::Result<()> {
    let folder = host.open(place.folder())?;
    host.sync(&folder)
}

//! The next text of a store file, which a command writes beside it, or of which it appends to the store file what is new.

use super::appending::{InPlace, changed, grow_by, open_same, settle};
use super::before::{Before, TextKind};
use super::differing::Differing;
use super::host::Host;
use crate::fault::RunFault;
use crate::looks::file_at::FileAt;
use crate::looks::{FileLook, growing_at, has_room_for_rows, plain_at};
use crate::run::{Run, Subject};
use crate::stores::files::open_text;
use crate::streams::devices::{Noted, flushed};
use gx_cli::{CliFault, Pruned, Repo};
use gx_look::Look;
use gx_object::{Name, Sha1Namer};
use gx_place::{Place, PlaceFault, Stamp, System};
use gx_text::IntoWrite;
use gx_versions::{StoreForm, WriteFault, send_store};
use std::alloc::Global;
use std::hash::RandomState;
use std::io::{BufWriter, Write};

/// So many bytes are written at once.
const BUFFER: usize = 1 << 16;

/// The next text of a store file, in a run that tells why it couldn't be written. It has the form of the text that was read, unless
/// another one is asked for.
#[derive(Drop)]
pub(crate) struct NextText<'a> {
    host: Host<'a>,
    text: gx_place::NextText<Host<'a>>,
    form: StoreForm,
    /// What was read.
    before: Option<Before>,
    /// So many bytes the store file had when it was last read or put in place.
    size: u64,
}

impl<'a> NextText<'a> {
    /// That of a store file that is made. A place where there is something is refused.
    pub(crate) fn claim_new(run: &'a Run<'a>, file: &'a str) -> Result<NextText<'a>, RunFault> {
        let host = Host::new(run, file);
        let claimed = gx_place::NextText::claim_new(run.rt.alloc(), host, file, run.patience());
        NextText::of_claim(host, claimed)
    }

    /// The same, of what another file tells: it is its owner's alone, unless everybody may read that one.
    pub(crate) fn claim_beside(
        run: &'a Run<'a>,
        file: &'a str,
        other: &str,
    ) -> Result<NextText<'a>, RunFault> {
        let host = Host::beside(run, file, other);
        let claimed = gx_place::NextText::claim_new(run.rt.alloc(), host, file, run.patience());
        NextText::of_claim(host, claimed)
    }

    /// That of a store file that is replaced. One that can't be read is refused before anything is made.
    pub(crate) fn claim_next(run: &'a Run<'a>, file: &'a str) -> Result<NextText<'a>, RunFault> {
        let host = Host::new(run, file);
        let claimed = gx_place::NextText::claim_next(run.rt.alloc(), host, file, run.patience());
        NextText::of_claim(host, claimed)
    }

    /// That of a store file that another program has read, and whose next text it made.
    pub(crate) fn claim_known(
        run: &'a Run<'a>,
        file: &'a str,
        known: Stamp,
    ) -> Result<NextText<'a>, RunFault> {
        let (alloc, host) = (run.rt.alloc(), Host::new(run, file));
        let claimed = gx_place::NextText::claim_known(alloc, host, file, run.patience(), known);
        NextText::of_claim(host, claimed)
    }

    fn of_claim(
        host: Host<'a>,
        claimed: Result<gx_place::NextText<Host<'a>>, PlaceFault>,
    ) -> Result<NextText<'a>, RunFault> {
        Ok(NextText {
            host,
            text: host.run.placed(claimed)?,
            form: StoreForm::Plain,
            before: None,
            size: 0,
        })
    }

    /// The repository of the store file, which has to be the same one still when the next text takes its place. A look at it comes
    /// before it is read, so that what is written meanwhile shows later.
    pub(crate) fn read_repo(
        &mut self,
        state: RandomState,
    ) -> Result<Repo<Sha1Namer, Global>, RunFault> {
        let (run, alloc) = (self.host.run, self.host.run.rt.alloc());
        let stamp = self.stamp()?;
        let read = self.text.read_store(alloc);
        let store = run.placed(read)?;
        let kind = TextKind::of_text(&store);
        self.form = kind.form();
        self.size = store.len() as u64;
        let repo = open_text(run, store, state)?;
        self.before = Some(Before::of_repo(alloc, stamp, kind, &repo)?);
        Ok(repo)
    }

    /// What the store file has that is to be read.
    fn stamp(&mut self) -> Result<Stamp, RunFault> {
        let found = self.host.look(self.text.place().store());
        Ok(self.host.run.want_read(found)?.stamp)
    }

    /// The store file, where that is a growing one that can be appended to as it stands.
    pub(crate) fn open_in_place(&self) -> Option<InPlace<'a>> {
        InPlace::open(self.host, self.text.place())
    }

    /// Where the store file stands.
    pub(crate) fn place(&self) -> &Place {
        self.text.place()
    }

    /// The form of the next text.
    pub(crate) fn form(&self) -> StoreForm {
        self.form
    }

    /// Has the next text be of this form.
    pub(crate) fn shape(&mut self, form: StoreForm) {
        self.form = form;
    }

    /// How many bytes the store file had when it was last read or put in place.
    pub(crate) fn size(&self) -> u64 {
        self.size
    }

    /// Publishes a repository that has the objects of the store file, and more or none, and its refs or others. What a growing file
    /// lacks is appended to it where that can be done, and else a whole text takes the place of its own.
    ///
    /// After a failure the store file is as it was, unless it was the last write, or the last sync, that failed.
    pub(crate) fn publish_added(&mut self, repo: &Repo<Sha1Namer, Global>) -> Result<(), RunFault> {
        let is_done = match &self.before {
            Some(before) if before.kind == TextKind::Growing => {
                grow_by(self.host, self.text.place(), before, repo)?
            }
            _ => false,
        };
        if !is_done {
            self.publish_store(repo)?;
        }
        Ok(())
    }

    /// Writes a repository's text, as it is made, makes it durable, and puts it into the store file's place, unless that has this
    /// text, of version 2, already. Answers the stamp of what is there then. After a failure the store file is as it was, unless it
    /// was the folder's sync that failed.
    pub(crate) fn publish_store(
        &mut self,
        repo: &Repo<Sha1Namer, Global>,
    ) -> Result<Stamp, RunFault> {
        if let Some(stamp) = self.stamp_of(repo) {
            if settle(self.host, self.text.place(), stamp)? {
                return Ok(stamp);
            }
        }
        self.host.run.placed(self.text.begin())?;
        write_store(self.host.run, &mut self.text, self.form, repo)?;
        self.put_in_place()
    }

    /// A look into the store file, where that is a growing one. One that has no room for the rows that it tells is damaged: what is read
    /// of it as a whole tells where.
    pub(crate) fn open_look(&self) -> Result<Option<FileLook<'a>>, RunFault> {
        let run = self.host.run;
        let opened = growing_at(self.host, self.text.place().store());
        let Some(source) = run.want_read(opened)? else {
            return Ok(None);
        };
        let look = Look::open(run.rt.alloc(), Sha1Namer, source)?;
        let has_room = has_room_for_rows(&look);
        Ok(has_room.then_some(look))
    }

    /// Publishes what refs and these names reach of the store file, which is a growing one and looked into. It stays as it is where it
    /// has the bytes of the next text. Answers how much goes.
    ///
    /// Who fails leaves what [`NextText::publish_store`] does.
    pub(crate) fn publish_kept(
        &mut self,
        look: &FileLook<'_>,
        kept: &[Name],
        state: RandomState,
    ) -> Result<Pruned, RunFault> {
        self.host.run.placed(self.text.begin())?;
        let stamp = self.stamp()?;
        let store = self.open_store(stamp)?;
        let gone = write_kept(self.host.run, &mut self.text, store, look, kept, state)?;
        if gone.objects > 0 || self.is_written()? {
            self.put_in_place()?;
        } else if !settle(self.host, self.text.place(), stamp)? {
            return Err(changed(self.host.run));
        }
        Ok(gone)
    }

    /// Publishes the growing text of the store file, where that is of version 1 or 2. Answers false, where nothing was written, since it
    /// isn't.
    ///
    /// Who fails leaves what [`NextText::publish_store`] does.
    pub(crate) fn publish_grown(&mut self, state: RandomState) -> Result<bool, RunFault> {
        let opened = plain_at(self.host, self.text.place().store());
        let Some(source) = self.host.run.want_read(opened)? else {
            return Ok(false);
        };
        self.host.run.placed(self.text.begin())?;
        match write_grown(self.host.run, &mut self.text, source, state) {
            Ok(()) => {
                self.put_in_place()?;
                Ok(true)
            }
            Err(fault) => {
                // a line may tell of more bytes than are read: a reading of the whole tells that
                let is_of_text = matches!(
                    fault,
                    RunFault::Damaged | RunFault::Command(CliFault::ReadFailed)
                );
                if is_of_text && !self.is_written()? {
                    return Ok(false);
                }
                Err(fault)
            }
        }
    }

    /// The store file, to compare the next text with it, and how many bytes it has.
    fn open_store(&mut self, stamp: Stamp) -> Result<(FileAt<'a>, u64), RunFault> {
        match open_same(&mut self.host, self.text.place(), stamp) {
            Some(opened) => Ok((FileAt::read_only(self.host.run, opened), stamp.size)),
            None => Err(changed(self.host.run)),
        }
    }

    /// Whether there is something of the next text.
    fn is_written(&mut self) -> Result<bool, RunFault> {
        let found = self.host.look(self.text.place().next());
        let found = self.host.run.want_written(Subject::NextText, found)?;
        Ok(found.stamp.size > 0)
    }

    /// The stamp of the store file, where its text is the next one.
    fn stamp_of(&self, repo: &Repo<Sha1Namer, Global>) -> Option<Stamp> {
        match &self.before {
            Some(before) if self.form == StoreForm::Plain && before.kind == TextKind::Plain => {
                before.has_all_of(repo).then_some(before.stamp)
            }
            _ => None,
        }
    }

    fn put_in_place(&mut self) -> Result<Stamp, RunFault> {
        let put = self.text.put_in_place();
        let stamp = self.host.run.placed(put)?;
        self.size = stamp.size;
        if self.text.is_narrowed() {
            self.host.run.tell_narrowed(self.text.place().store());
        }
        Ok(stamp)
    }
}

/// A repository's text goes out through a buffer.
fn write_store(
    run: &Run<'_>,
    text: &mut gx_place::NextText<Host<'_>>,
    form: StoreForm,
    repo: &Repo<Sha1Namer, Global>,
) -> Result<(), CliFault> {
    let noted = Noted::new(run, Subject::NextText, text);
    match BufWriter::with_capacity(run.rt.alloc(), BUFFER, noted) {
        Ok(mut out) => {
            let mut sink = IntoWrite::new(&mut out);
            let sent = match send_store(run.rt.alloc(), repo, form, &mut sink) {
                Ok(()) => Ok(()),
                Err(WriteFault::OutOfMemory) => Err(CliFault::OutOfMemory),
                Err(WriteFault::Failed) => Err(CliFault::WriteFailed),
            };
            flushed(&mut out, sent)
        }
        Err(_) => Err(CliFault::OutOfMemory),
    }
}

/// What is kept of a store goes out through a buffer, from where it isn't what the store file has.
fn write_kept(
    run: &Run<'_>,
    text: &mut gx_place::NextText<Host<'_>>,
    store: (FileAt<'_>, u64),
    look: &FileLook<'_>,
    kept: &[Name],
    state: RandomState,
) -> Result<Pruned, RunFault> {
    let alloc = run.rt.alloc();
    let listing = look.listing(alloc, state)?;
    let noted = Noted::new(run, Subject::NextText, text);
    let differing = Differing::new(alloc, store, noted)?;
    match BufWriter::with_capacity(alloc, BUFFER, differing) {
        Ok(mut out) => {
            let mut sink = IntoWrite::new(&mut out);
            let sent = gx_kept::collect(alloc, look, &listing, kept, &mut sink);
            flushed(&mut out, sent.map_err(RunFault::from))
        }
        Err(_) => Err(RunFault::Command(CliFault::OutOfMemory)),
    }
}

/// The growing text of a plain one goes out through a buffer.
fn write_grown(
    run: &Run<'_>,
    text: &mut gx_place::NextText<Host<'_>>,
    source: FileAt<'_>,
    state: RandomState,
) -> Result<(), RunFault> {
    let alloc = run.rt.alloc();
    let noted = Noted::new(run, Subject::NextText, text);
    match BufWriter::with_capacity(alloc, BUFFER, noted) {
        Ok(mut out) => {
            let mut sink = IntoWrite::new(&mut out);
            let sent = gx_plain::grow(alloc, Sha1Namer, source, state, &mut sink);
            flushed(&mut out, sent.map_err(RunFault::from))
        }
        Err(_) => Err(RunFault::Command(CliFault::OutOfMemory)),
    }
}

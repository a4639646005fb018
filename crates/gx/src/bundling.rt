//! A store file, written as a bundle.

ghost use Rattle.std.specs.Prelude.{IfOk, IfSome};
ghost use Rattle.gx_objects.specs.Answers.{SpellsRefs};
ghost use Rattle.gx_listed.specs.Listings.{ListsIfTold};
ghost use Rattle.gx_kept.specs.Telling.{SpellsRefsOf};

use crate::fault::RunFault;
use crate::looks::{growing_file, has_room_for_rows, look_into, ranges_of};
use crate::run::Run;
use crate::stores::files::{open_text, read_store};
use crate::streams::devices::{Noted, flushed};
use crate::streams::progress::ProgressLine;
use gx_bundled::{Told, told_by};
use gx_cli::CliFault;
use gx_listed::Listing;
use gx_object::{Kind, Name};
use gx_objects::Objects;
use gx_rev::RevFault;
use gx_text::IntoWrite;
use std::alloc::Global;
use std::hash::RandomState;
use std::io::BufWriter;

/// So many bytes go out at once.
const BUFFER: usize = 1 << 16;

/// What a bundle is asked for: the refs that range words name, or all, and what they exclude; a ref that is to be HEAD; and whether the
/// pack is to go out alone.
#[derive(Clone, Copy)]
pub(crate) struct BundleAsked<'a> {
    pub(crate) ranges: &'a [&'a str],
    pub(crate) all: bool,
    pub(crate) head: Option<&'a str>,
    pub(crate) pack: bool,
}

/// Writes refs of a store file, and the objects that they reach and that what words exclude doesn't, as a bundle. Of a growing one no
/// more is held than what its objects are called and where they stand.
pub(crate) fn bundle(
    run: &Run<'_>,
    file: &str,
    asked: &BundleAsked<'_>,
    state: RandomState,
) -> Result<(), RunFault> {
    let alloc = run.rt.alloc();
    if let Some(opened) = growing_file(run, file)? {
        let look = look_into(run, file, opened)?;
        if !has_room_for_rows(&look) {
            return Err(RunFault::Damaged);
        }
        let told = told_of(run, &look, asked)?;
        let head = commit_of_head(alloc, &look, asked)?;
        let listing = look.listing(alloc, state)?;
        return write_bundle(run, &look, &listing, &told, head, asked.pack);
    }
    let store = read_store(run, file)?;
    let repo = open_text(run, store, state)?;
    let told = told_of(run, &repo, asked)?;
    let head = commit_of_head(alloc, &repo, asked)?;
    let listing = gx_kept::list(alloc, &repo, state)?;
    write_bundle(run, &repo, &listing, &told, head, asked.pack)
}

/// What a bundle tells. Git refuses one whose words name no ref, and so is it here.
fn told_of<O: Objects>(
    run: &Run<'_>,
    objects: &O,
    asked: &BundleAsked<'_>,
) -> Result<Told<Global>, RunFault>
    ensures spelled { IfOk result (λ told. SpellsRefs told.refs.items) }
    ensures held { IfOk result
        (λ told. IfSome (O.told objects.now) (SpellsRefsOf told.refs.items)) }
{
    let alloc = run.rt.alloc();
    let words = ranges_of(run, asked.ranges)?;
    let has_head = asked.head.is_some();
    let all = asked.all || words.is_empty();
    let told = told_by(alloc, objects, words.as_slice(), all, has_head)?;
    if told.refs.is_empty() && !has_head && !words.is_empty() {
        return Err(RunFault::EmptyBundle);
    }
    Ok(told)
}

/// The commit of the ref that HEAD is to be, where it is to be one. Git checks out nothing else.
fn commit_of_head<O: Objects>(
    alloc: Global,
    objects: &O,
    asked: &BundleAsked<'_>,
) -> Result<Option<Name>, RunFault> {
    let Some(called) = asked.head else {
        return Ok(None);
    };
    let behind = asked.ranges.len() as u64 + 1;
    let Some(name) = objects.object_of_ref(called.as_bytes())? else {
        return Err(refused_head(behind, RevFault::UnknownRef));
    };
    let mut room = Vec::new(alloc);
    match objects.object(&name, &mut room)? {
        Some(object) if object.kind == Kind::Commit => Ok(Some(name)),
        Some(_) => Err(refused_head(behind, RevFault::WrongKind)),
        None => Err(RunFault::Damaged),
    }
}

/// The ref that is to be HEAD comes behind the range words.
fn refused_head(number: u64, kind: RevFault) -> RunFault {
    RunFault::Command(CliFault::Revision { number, kind })
}

/// Writes the bundle of objects that are listed, or its pack alone, through a buffer, and shows how much went out.
fn write_bundle<O: Objects>(
    run: &Run<'_>,
    objects: &O,
    listing: &Listing<Global>,
    told: &Told<Global>,
    head: Option<Name>,
    pack: bool,
) -> Result<(), RunFault>
    requires listed { ListsIfTold (O.told objects.now) (O.stands objects.now) listing.now }
    requires spelled { SpellsRefs told.now.refs.items }
    requires held { IfSome (O.told objects.now) (SpellsRefsOf told.now.refs.items) }
{
    let alloc = run.rt.alloc();
    let bundled = told.bundled(objects, head);
    let progress = ProgressLine::new(run);
    let output = Noted::output(run).shown_by(&progress);
    let answer = match BufWriter::with_capacity(alloc, BUFFER, output) {
        Ok(mut out) => {
            let sink = &mut IntoWrite::new(&mut out);
            let sent = if pack {
                gx_kept::pack(alloc, objects, listing, &bundled, sink)
            } else {
                gx_kept::bundle(alloc, objects, listing, &bundled, sink)
            };
            flushed(&mut out, sent.map_err(RunFault::from))
        }
        Err(_) => Err(RunFault::Command(CliFault::OutOfMemory)),
    };
    progress.clear();
    answer
}

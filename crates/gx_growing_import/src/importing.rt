//! Imports over small repositories. Source: git-fast-import(1).

ghost use Rattle.std.specs.Prelude.{◌≡◌, IfOk};
ghost use Rattle.gx_growing_import.specs.Importing.{GivesTold, TakesText};

use crate::WholeWay;
use crate::comparing::compare;
use gx_asked::Asked;
use gx_brought::{new_objects, next_refs};
use gx_import::{Explanation, Report, import_explained};
use gx_model::Features;
use gx_model::repository_laws::histories_of_records;
use gx_object::Namer;
use gx_objects::Objects;
use gx_ref_lines::RefLines;
use gx_repo::Repo;
use gx_small_repo::small_repository;
use gx_stand_ins::stand_in_laws::stand_ins_bring;
use gx_store::Store;
use gx_text::{Bytes, Growing, PIECE};
use std::alloc::Allocator;
use std::hash::RandomState;

/// What an import gives a repository that isn't read whole.
#[derive(Drop)]
pub struct Imported<N: Namer, A: Allocator> {
    /// The objects that the repository doesn't hold, in the order in which they are added.
    pub objects: Store<N, A>,
    /// The lines of all refs that it has then, and how many.
    pub refs: Vec<u8, A>,
    pub ref_count: u64,
    /// The lines of `progress`.
    pub progress: Vec<u8, A>,
    pub report: Report,
}

/// Imports a stream into what holds objects and refs, where these features are asked for as if it began with them, and answers what
/// that is to have then. It is done over a small repository, which holds what the stream's texts ask for.
///
/// `WholeWay` tells why it isn't done so. Then nothing is known of what the import comes to.
/// Cost: the stream, read twice and its blobs hashed twice; the trees of the commits that it names, and of those that its
/// branches hold; its new objects, hashed and copied once more; and the refs. Memory: all of these. Source: git-fast-import(1).
pub fn import_over<O: Objects, N: Namer + Copy, A: Allocator + Copy>(
    alloc: A,
    namer: N,
    objects: &O,
    stream: &[u8],
    fails: bool,
    features: Features,
    state: RandomState,
) -> Result<Imported<N, A>, WholeWay>
    requires names { O.name_of objects.now ≡ N.name_of namer }
    ensures namer { IfOk result (λ given. given.objects.0 ≡ namer) }
    ensures whole { IfOk result (λ given.
        GivesTold (N.name_of namer) features (O.told objects.now) stream.now fails
        given.objects.1 given.refs.items given.ref_count given.progress.items given.report) }
{
    histories_of_records();
    stand_ins_bring();
    objects.sound_if_told();
    let mut room = Vec::new(alloc);
    let lines = RefLines::read(alloc, objects.ref_lines(&mut room)?)?;
    let asked = Asked::read(alloc, &namer, stream, fails, features)?;
    let mut small = small_repository(alloc, namer, objects, &asked, &lines, state)?;
    compare(alloc, objects, &small, &asked, &lines)?;
    let held = small.store().len();
    let (report, progress) = import_small(alloc, &mut small, stream, fails, features)?;
    let new = new_objects(alloc, namer, objects, &small, held, state)?;
    let (refs, ref_count) = next_refs(alloc, &lines, &small)?;
    Ok(Imported {
        report: Report {
            objects: new.len() as u64,
            ..report
        },
        objects: new,
        refs,
        ref_count,
        progress,
    })
}

/// Imports a stream into a small repository, and answers the report and the lines of `progress`.
fn import_small<N: Namer, A: Allocator + Copy>(
    alloc: A,
    small: &mut Repo<N, A>,
    stream: &[u8],
    fails: bool,
    features: Features,
) -> Result<(Report, Vec<u8, A>), WholeWay>
    ensures namer { small.new.0 ≡ small.old.0 }
    ensures takes { IfOk result (λ taken. TakesText (N.name_of small.old.0) features
        small.old.1 small.new.1 stream.now fails taken.1.items taken.0) }
{
    let mut progress = Growing::new(alloc);
    let mut told = Explanation::none();
    let source = Bytes::new(stream, PIECE, fails);
    let report = import_explained(alloc, small, source, &mut progress, features, &mut told)?;
    Ok((report, progress.into_bytes()))
}

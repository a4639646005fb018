//! A stream that is imported, exported, and imported again.

ghost use Rattle.std.specs.Prelude.{◌≡◌, ◌≤◌, length, IfOk, None};
ghost use Rattle.gx_model.specs.Streams.Gitlinks.{HoldsSayable};
ghost use Rattle.gx_model.specs.Records.HistoryOf.{history_of};
ghost use Rattle.gx_model.specs.Records.Sound.{IsSound};
ghost use Rattle.gx_export.specs.Outputs.{most};
ghost use Rattle.gx_import.specs.Standing.{Extends};
ghost use Rattle.gx_cli.specs.Explained.{ExplainsCommand};
ghost use Rattle.gx_cli.specs.Forms.{text_as};
ghost use Rattle.gx_cli.specs.Headline.{ComesBackOr, ExportsAgain, GivesText, ImportsAgainOr, RoundTrips};
ghost use Rattle.gx_cli.specs.Retold.{RetellsTrip};

use crate::export::export_as;
use crate::forms::forms_are_imported;
use crate::questions::{Question, Reply, reply_asked};
use crate::{CliFault, ExportForm};
use gx_export::ExportFault;
use gx_import::{Explanation, ImportFault, Report, import, import_explained};
use gx_model::Features;
use gx_model::gitlink_laws::replays_keep_none;
use gx_model::repository_laws::histories_of_records;
use gx_object::Namer;
use gx_repo::Repo;
use gx_text::{Bytes, Growing, Sink, Source};
use std::alloc::Allocator;
use std::hash::RandomState;

/// What a round trip is asked for.
#[derive(Drop)]
pub struct RoundTripOptions<A: Allocator> {
    /// The features that are asked for as if the stream began with them.
    pub features: Features,
    /// What is asked of the repository that the stream makes.
    pub question: Option<Question<A>>,
    /// What the repository is exported as.
    pub form: ExportForm,
}

/// What a stream's import into a repository reports, what is answered to a question then, the stream that the repository is
/// exported as, and what that one makes of an empty store.
#[derive(Drop)]
pub struct RoundTrip<N: Namer, A: Allocator> {
    pub report: Report,
    pub reply: Option<Reply<A>>,
    pub text: Vec<u8, A>,
    pub again: Repo<N, A>,
}

/// Imports a stream into a repository, answers a question there, where one is asked, exports the repository in a form, and imports
/// the export into an empty one. Lines of `progress` go out as they come. A question without an answer stops nothing.
///
/// `Import`: the stream's import is refused. The repository is then as its last checkpoint left it, its objects and its refs, and
/// as it was before where there was none; what the refusal is about is told, as `gx_import::import_explained` does. `Export`: the
/// export has more than 2^63 - 1 bytes, which no import reads. `OutOfMemory`: a growth was refused after the import. That of the
/// export is refused for no other cause.
/// Cost: that of the import, of the answer, of the export, and of the import of what it wrote. Memory: that of both imports, the
/// answer, and the export's text.
pub fn round_trip<N: Namer + Copy + Drop, A: Allocator + Copy, R: Source + Drop, W: Sink>(
    alloc: A,
    repo: &mut Repo<N, A>,
    namer: N,
    source: R,
    sink: &mut W,
    options: &RoundTripOptions<A>,
    state: RandomState,
    told: &mut Explanation<A>,
) -> Result<RoundTrip<N, A>, CliFault>
    requires namer { repo.old.0 ≡ namer }
    requires gitlinks { HoldsSayable (history_of repo.old.1) }
    ensures namer { repo.new.0 ≡ namer }
    ensures sound { IsSound (N.name_of namer) repo.new.1 }
    ensures extends { Extends repo.old.1.records repo.new.1.records }
    ensures explained { ExplainsCommand (N.name_of namer) options.now.features repo.old.1
        (R.coming source) result told.new }
    ensures retold { R.coming source ≡ None → RetellsTrip (N.name_of namer) options.now.features
        repo.old.1 repo.new.1 (W.taken sink.old) (W.taken sink.new) result told.new }
    ensures again { IfOk result (λ trip. trip.again.0 ≡ namer) }
    ensures back { RoundTrips (N.name_of namer) options.now.form options.now.features
        options.now.question
        repo.old.1 repo.new.1 (R.coming source) (W.taken sink.old) (W.taken sink.new) result }
{
    match import_explained(alloc, repo, source, sink, options.features, told) {
        Ok(report) => come_back(alloc, namer, report, repo, options, state),
        Err(fault) => Err(CliFault::Import(fault)),
    }
}

/// Answers a question in a repository, and brings that back by its export.
fn come_back<N: Namer + Copy + Drop, A: Allocator + Copy>(
    alloc: A,
    namer: N,
    report: Report,
    repo: &Repo<N, A>,
    options: &RoundTripOptions<A>,
    state: RandomState,
) -> Result<RoundTrip<N, A>, CliFault>
    requires namer { repo.now.0 ≡ namer }
    requires gitlinks { HoldsSayable (history_of repo.now.1) }
    ensures again { IfOk result (λ trip. trip.again.0 ≡ namer) }
    ensures back { ComesBackOr (N.name_of namer) options.now.form options.now.question
        report repo.now.1 result }
{
    histories_of_records();
    repo.sound();
    let reply = reply_asked(alloc, repo, &options.question);
    match export_again(alloc, namer, repo, options.form, state) {
        Ok((again, text)) => Ok(RoundTrip {
            report,
            reply,
            text,
            again,
        }),
        Err(fault) => Err(fault),
    }
}

/// The repository that the import of a repository's export in a form into an empty store makes, and the text of the export.
fn export_again<N: Namer + Drop, A: Allocator + Copy>(
    alloc: A,
    namer: N,
    first: &Repo<N, A>,
    form: ExportForm,
    state: RandomState,
) -> Result<(Repo<N, A>, Vec<u8, A>), CliFault>
    requires namer { first.now.0 ≡ namer }
    requires gitlinks { HoldsSayable (history_of first.now.1) }
    ensures namer { IfOk result (λ made. made.0.0 ≡ namer) }
    ensures sound { IfOk result (λ made. IsSound (N.name_of namer) made.0.1) }
    ensures made { ExportsAgain (N.name_of namer) form first.now.1 result }
{
    match exported(alloc, first, form) {
        Ok(text) => match import_again(alloc, first, namer, form, text.as_slice(), state) {
            Ok(again) => Ok((again, text)),
            Err(_) => Err(CliFault::OutOfMemory),
        },
        Err(fault) => Err(fault),
    }
}

/// The text that a repository is exported as in this form.
fn exported<N: Namer, A: Allocator + Copy>(
    alloc: A,
    repo: &Repo<N, A>,
    form: ExportForm,
) -> Result<Vec<u8, A>, CliFault>
    requires { HoldsSayable (history_of repo.now.1) }
    ensures { GivesText (text_as (N.name_of repo.now.0) form (history_of repo.now.1)) result }
{
    replays_keep_none();
    let mut sink = Growing::new(alloc);
    match export_as(alloc, repo, form, &mut sink) {
        Ok(()) => Ok(sink.into_bytes()),
        Err(ExportFault::WriteFailed { written }) => {
            if sink.has_failed() {
                return Err(CliFault::OutOfMemory);
            }
            Err(CliFault::Export(ExportFault::WriteFailed { written }))
        }
        Err(ExportFault::OutOfMemory) => Err(CliFault::OutOfMemory),
        Err(ExportFault::Unsupported) => unreachable!(),
    }
}

/// The repository that the import of the text of a repository's export in a form into an empty store makes. Only memory may be
/// wanting.
fn import_again<N: Namer + Drop, A: Allocator + Copy>(
    alloc: A,
    exported: &Repo<N, A>,
    namer: N,
    form: ExportForm,
    text: &[u8],
    state: RandomState,
) -> Result<Repo<N, A>, ImportFault>
    requires namer { exported.now.0 ≡ namer }
    requires text { text.now ≡ text_as (N.name_of namer) form (history_of exported.now.1) }
    requires short { length text.now ≤ most }
    requires gitlinks { HoldsSayable (history_of exported.now.1) }
    ensures namer { IfOk result (λ again. again.0 ≡ namer) }
    ensures sound { IfOk result (λ again. IsSound (N.name_of namer) again.1) }
    ensures again { ImportsAgainOr exported.now.1 result }
{
    forms_are_imported();
    replays_keep_none();
    exported.sound();
    let mut again = Repo::new(alloc, namer, state);
    let mut progress = Growing::new(alloc);
    match import(
        alloc,
        &mut again,
        Bytes::new(text, 65_536, false),
        &mut progress,
    ) {
        Ok(_) => Ok(again),
        Err(fault) => Err(fault),
    }
}

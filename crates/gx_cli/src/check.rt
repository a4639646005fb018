//! A stream's trip into an empty store and back, told in a line. Source: git-fast-import(1) and git-fast-export(1).

ghost use Rattle.std.specs.Prelude.{◌≡◌, ◌++◌, [], None, OnOk};
ghost use Rattle.gx_model.specs.Histories.{empty_repository};
ghost use Rattle.gx_cli.specs.Checking.{Checks, checked_line, count, TellsBack};
ghost use Rattle.gx_cli.specs.Explained.{ExplainsCommand};
ghost use Rattle.gx_cli.specs.Retold.{RetellsAlone};

use crate::sending::put_text;
use crate::trips::{RoundTripOptions, round_trip};
use crate::{CliFault, ExportForm};
use gx_import::Explanation;
use gx_model::Features;
use gx_model::gitlink_laws::replays_keep_none;
use gx_object::{Kind, Name, Namer};
use gx_repo::Repo;
use gx_text::{Sink, Source};
use itoa::Buffer;
use std::alloc::{AllocError, Allocator};
use std::hash::RandomState;

/// Makes the [`round_trip`] of a stream from an empty store by its changes, of which nothing is kept, and prints in a line how many
/// commands were imported, and how many objects and refs came back: each ref with its object's name, and what refs reach. Lines of
/// `progress` go out first. These features are asked for as if the stream began with them.
///
/// `Import`: the stream's import is refused; what that is about is told, as `gx_import::import_explained` does. `Export`: the export
/// has more than 2^63 - 1 bytes. `WriteFailed`: the sink didn't take all of the line. `OutOfMemory`: a growth was refused after
/// the import.
/// Cost and memory: those of the trip.
pub fn check_stream<N: Namer + Drop, A: Allocator + Copy, R: Source + Drop, W: Sink>(
    alloc: A,
    namer: N,
    source: R,
    sink: &mut W,
    features: Features,
    state: RandomState,
    told: &mut Explanation<A>,
) -> Result<(), CliFault>
    ensures explained { ExplainsCommand (N.name_of namer) features empty_repository
        (R.coming source) result told.new }
    ensures retold { R.coming source ≡ None → RetellsAlone (N.name_of namer) features
        (W.taken sink.old) (W.taken sink.new) result told.new }
    ensures checked { Checks (N.name_of namer) features (R.coming source)
        (W.taken sink.old) (W.taken sink.new) result }
{
    let lent = Lent { namer: &namer };
    check_copied(alloc, lent, source, sink, features, state, told)
}

/// The same, where the namer can be copied.
fn check_copied<N: Namer + Copy + Drop, A: Allocator + Copy, R: Source + Drop, W: Sink>(
    alloc: A,
    namer: N,
    source: R,
    sink: &mut W,
    features: Features,
    state: RandomState,
    told: &mut Explanation<A>,
) -> Result<(), CliFault>
    ensures explained { ExplainsCommand (N.name_of namer) features empty_repository
        (R.coming source) result told.new }
    ensures retold { R.coming source ≡ None → RetellsAlone (N.name_of namer) features
        (W.taken sink.old) (W.taken sink.new) result told.new }
    ensures checked { Checks (N.name_of namer) features (R.coming source)
        (W.taken sink.old) (W.taken sink.new) result }
{
    replays_keep_none();
    let mut repo = Repo::new(alloc, namer, state);
    let options = RoundTripOptions {
        features,
        question: None,
        form: ExportForm::Changes { done: true },
    };
    match round_trip(alloc, &mut repo, namer, source, sink, &options, state, told) {
        Ok(trip) => tell_back(alloc, trip.report.commands, &trip.again, sink),
        Err(fault) => Err(fault),
    }
}

/// A namer that two repositories borrow.
struct Lent<'n, N: Namer> {
    namer: &'n N,
}

impl<N: Namer> Clone for Lent<'_, N> {
    fn clone(&self) -> Result<Self, AllocError> {
        Ok(*self)
    }
}

impl<N: Namer> Copy for Lent<'_, N> {}

impl<N: Namer> Namer for Lent<'_, N> {
    ghost name_of = { λ lent kind body. N.name_of lent.namer.now kind body };

    ghost is_namer = { λ lent. N.is_namer lent.namer.now };

    fn name(&self, kind: Kind, body: &[u8]) -> Name {
        self.namer.name(kind, body)
    }
}

/// Prints the line of a trip that came back. It is made before it goes out.
fn tell_back<N: Namer, W: Sink, A: Allocator + Copy>(
    alloc: A,
    commands: u64,
    again: &Repo<N, A>,
    sink: &mut W,
) -> Result<(), CliFault>
    ensures { TellsBack commands again.now.1 (W.taken sink.old) (W.taken sink.new) result }
{
    let mut line = Vec::new(alloc);
    write_back(&mut line, commands, again)?;
    put_text(sink, &line)
}

/// Writes that line.
fn write_back<N: Namer, A: Allocator + Copy>(
    line: &mut Vec<u8, A>,
    commands: u64,
    again: &Repo<N, A>,
) -> Result<(), AllocError>
    requires empty { line.old.items ≡ [] }
    ensures { OnOk result (line.new.items ≡ checked_line commands again.now.1) }
{
    write_count(line, b"commands: ", commands)?;
    write_count(line, b", objects: ", again.store().len() as u64)?;
    write_count(line, b", refs: ", again.refs().count() as u64)?;
    line.extend_from_slice(b", and all names came back\n")?;
    Ok(())
}

/// Appends words, and a number behind them.
fn write_count<A: Allocator>(
    line: &mut Vec<u8, A>,
    words: &[u8],
    number: u64,
) -> Result<(), AllocError>
    ensures { OnOk result (line.new.items ≡ line.old.items ++ count words.now number) }
{
    line.extend_from_slice(words)?;
    line.extend_from_slice(Buffer::new().format(number).as_bytes())?;
    Ok(())
}

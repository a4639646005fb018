//! Questions to store files. Of a growing store each reads what it needs; another store is read as a whole.

ghost use Rattle.std.specs.Prelude.{◌≡◌, if◌then◌else◌};

use crate::ancestry::{tell_ancestry, tell_bases};
use crate::fault::RunFault;
use crate::looks::{export_looked, growing_file, look_into};
use crate::run::Run;
use crate::stores::files::{open_text, read_store};
use crate::streams::devices::{Noted, flushed};
use crate::streams::progress::ProgressLine;
use gx_asks::{BatchForm, Question};
use gx_batch::{Format, LineEnding};
use gx_cli::{CliFault, ending_of, read_format};
use gx_objects::Objects;
use gx_text::{FromRead, IntoWrite};
use gx_told::{answer, batch as answer_lines};
use std::alloc::Global;
use std::hash::RandomState;
use std::io::BufWriter;

/// The status of a question whose answer is no.
const NO: u8 = 3;

/// Answers a question to a store file. Answers the status.
pub(crate) fn ask(
    run: &Run<'_>,
    question: &Question<'_>,
    file: &str,
    state: RandomState,
) -> Result<u8, RunFault> {
    match question {
        Question::Batch { form, format, nul } => {
            let ending = ending_of(*nul);
            batch(run, *form, *format, ending, file, state)?;
        }
        Question::Export(_) => export(run, question, file, state)?,
        Question::ExportRange { done, ranges } => {
            if !export_looked(run, file, ranges, *done)? {
                export(run, question, file, state)?;
            }
        }
        Question::Diff { .. } | Question::MergeBase { .. } | Question::IsAncestor { .. } => {
            return Ok(status_of(tell(run, question, file, state)?));
        }
        _ => print(run, question, file, state)?,
    }
    Ok(0)
}

/// The status of a question that is answered yes or no. It is no refusal: standard error has nothing of it.
fn status_of(is_so: bool) -> u8
    ensures { result ≡ if is_so then 0 else 3 }
{
    if is_so { 0 } else { NO }
}

/// Tells what a question asks of a store, and whether its answer is yes.
fn tell(
    run: &Run<'_>,
    question: &Question<'_>,
    file: &str,
    state: RandomState,
) -> Result<bool, RunFault> {
    if let Some(opened) = growing_file(run, file)? {
        let look = look_into(run, file, opened)?;
        return tell_of(run, &look, question);
    }
    let store = read_store(run, file)?;
    let repo = open_text(run, store, state)?;
    tell_of(run, &repo, question)
}

/// Tells what a question asks of objects and refs, and whether its answer is yes.
fn tell_of<O: Objects>(
    run: &Run<'_>,
    objects: &O,
    question: &Question<'_>,
) -> Result<bool, RunFault> {
    match question {
        Question::MergeBase {
            octopus,
            all,
            revision,
            others,
        } => tell_bases(run, objects, *octopus, *all, revision, others.as_slice()),
        Question::IsAncestor {
            revision,
            descendant,
        } => tell_ancestry(run, objects, revision, descendant),
        _ => tell_buffered(run, objects, question),
    }
}

/// The same of what is printed through a buffer.
fn tell_buffered<O: Objects>(
    run: &Run<'_>,
    objects: &O,
    question: &Question<'_>,
) -> Result<bool, RunFault> {
    let alloc = run.rt.alloc();
    match BufWriter::new(alloc, Noted::output(run)) {
        Ok(mut out) => {
            let told = gx_told::tell(alloc, objects, question, &mut IntoWrite::new(&mut out));
            flushed(&mut out, told.map_err(RunFault::from))
        }
        Err(_) => Err(RunFault::Command(CliFault::OutOfMemory)),
    }
}

/// Prints what a question tells of a store.
fn print(
    run: &Run<'_>,
    question: &Question<'_>,
    file: &str,
    state: RandomState,
) -> Result<(), RunFault> {
    if let Some(opened) = growing_file(run, file)? {
        let look = look_into(run, file, opened)?;
        return print_of(run, &look, question);
    }
    let store = read_store(run, file)?;
    let repo = open_text(run, store, state)?;
    print_of(run, &repo, question)
}

/// Prints what a question tells of objects and refs. It goes out through a buffer.
fn print_of<O: Objects>(
    run: &Run<'_>,
    objects: &O,
    question: &Question<'_>,
) -> Result<(), RunFault> {
    let alloc = run.rt.alloc();
    match BufWriter::new(alloc, Noted::output(run)) {
        Ok(mut out) => {
            let source = FromRead::new(Noted::input(run));
            let answered = answer(
                alloc,
                objects,
                question,
                source,
                &mut IntoWrite::new(&mut out),
            );
            flushed(&mut out, answered.map_err(RunFault::from))
        }
        Err(_) => Err(RunFault::Command(CliFault::OutOfMemory)),
    }
}

/// Answers each line of standard input over a store. The format is read before the store is opened.
fn batch(
    run: &Run<'_>,
    form: BatchForm,
    format: Option<&str>,
    ending: LineEnding,
    file: &str,
    state: RandomState,
) -> Result<(), RunFault> {
    let alloc = run.rt.alloc();
    if let Some(opened) = growing_file(run, file)? {
        let format = read_format(alloc, format)?;
        let look = look_into(run, file, opened)?;
        return batch_of(run, &look, form, &format, ending);
    }
    let store = read_store(run, file)?;
    let format = read_format(alloc, format)?;
    let repo = open_text(run, store, state)?;
    batch_of(run, &repo, form, &format, ending)
}

/// Answers each line of standard input of objects and refs. Each answer goes out before the next line is read.
fn batch_of<O: Objects>(
    run: &Run<'_>,
    objects: &O,
    form: BatchForm,
    format: &Format<Global>,
    ending: LineEnding,
) -> Result<(), RunFault> {
    let alloc = run.rt.alloc();
    let source = FromRead::new(Noted::input(run));
    let sink = &mut IntoWrite::new(Noted::output(run));
    Ok(answer_lines(alloc, objects, form, format, ending, source, sink)?)
}

/// Exports a store, which is read as a whole, and shows how much went out.
fn export(
    run: &Run<'_>,
    question: &Question<'_>,
    file: &str,
    state: RandomState,
) -> Result<(), RunFault> {
    let alloc = run.rt.alloc();
    let store = read_store(run, file)?;
    let repo = open_text(run, store, state)?;
    let progress = ProgressLine::new(run);
    let output = Noted::output(run).shown_by(&progress);
    let answer = match BufWriter::new(alloc, output) {
        Ok(mut out) => {
            let source = FromRead::new(Noted::input(run));
            let sink = &mut IntoWrite::new(&mut out);
            let answered = gx_cli::answer(alloc, &repo, question, source, sink);
            flushed(&mut out, answered)
        }
        Err(_) => Err(CliFault::OutOfMemory),
    };
    progress.clear();
    Ok(answer?)
}

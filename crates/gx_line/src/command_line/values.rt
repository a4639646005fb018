//! What clap found for the arguments of a command.

ghost use Rattle.std.specs.Prelude.{◌≡◌, ◌++◌, IfErr, IfNone, IfOk, IfSome, None, OnOk, Some, codes, map, option_map};
ghost use Rattle.clap.specs.Words.{all_of, first_of, found_of, rows_of};
ghost use Rattle.gx_line.specs.CommandLine as say;
ghost use Rattle.gx_line.specs.declared.fault.LineFault.TheVariants.{OutOfMemory};

use crate::LineFault;
use clap::ArgMatches;
use gx_asks::{BatchForm, ExportForm, LogFormat, RefChange, RefFilter, RefTest};
use std::alloc::Global;

/// What is said of a format that there isn't, in the manner of clap.
const NO_FORMAT: &str = "\
error: invalid value for '--format <FORMAT>'
  [possible values: oneline, raw, subject, author, dates]

For more information, try '--help'.
";

/// What is said of --push beside --force, in the manner of clap.
pub(super) const FORCED_PUSH: &str = "\
error: the argument '--push <F>' cannot be used with '--force'

For more information, try '--help'.
";

/// What is said of --objects beside --done, in the manner of clap.
pub(super) const ENDED_OBJECTS: &str = "\
error: the argument '--objects' cannot be used with '--done'

For more information, try '--help'.
";

/// What is said of --objects beside --push, in the manner of clap.
pub(super) const PUSHED_OBJECTS: &str = "\
error: the argument '--objects' cannot be used with '--push <F>'

For more information, try '--help'.
";

/// What is said of --is-ancestor with several other revisions, in the manner of clap.
pub(super) const ONE_DESCENDANT: &str = "\
error: the argument '--is-ancestor' takes one OTHER

For more information, try '--help'.
";

/// The word of a positional argument, which clap makes sure of.
pub(super) fn word_of<'a>(
    alloc: Global,
    matches: &ArgMatches<'a>,
    id: &str,
) -> Result<&'a str, LineFault>
    ensures word { IfOk result
        (λ word. first_of id.now (rows_of (found_of matches.now)) ≡ Some word.now) }
    ensures missing { IfErr result (λ _. first_of id.now (rows_of (found_of matches.now)) ≡ None) }
{
    match matches.get_str(id) {
        Some(word) => Ok(word),
        None => Err(unknown(alloc)),
    }
}

/// The words of a positional argument that takes several, which clap makes sure of.
pub(super) fn words_of<'a>(
    alloc: Global,
    matches: &ArgMatches<'a>,
    id: &str,
) -> Result<Vec<&'a str>, LineFault>
    ensures words { IfOk result
        (λ words. say.AreWords id.now (rows_of (found_of matches.now)) words.items) }
    ensures missing { IfErr result
        (say.HasCause (all_of id.now (rows_of (found_of matches.now)) ≡ None)) }
{
    match matches.get_strs(id) {
        Some(words) => Ok(Vec::from_slice(alloc, words)?),
        None => Err(unknown(alloc)),
    }
}

/// The words of a positional argument that may be left out.
pub(super) fn any_words_of<'a>(
    alloc: Global,
    matches: &ArgMatches<'a>,
    id: &str,
) -> Result<Vec<&'a str>, LineFault>
    ensures words { IfOk result
        (λ words. say.AreAnyWords id.now (rows_of (found_of matches.now)) words.items) }
    ensures memory { IfErr result (λ fault. fault ≡ OutOfMemory) }
{
    match matches.get_strs(id) {
        Some(words) => Ok(Vec::from_slice(alloc, words)?),
        None => Ok(Vec::new(alloc)),
    }
}

/// The form that an export is asked for in. There is none where `--no-done` stands alone, of which clap makes sure.
pub(super) fn form_of(matches: &ArgMatches<'_>) -> Option<ExportForm>
    ensures form { IfSome result (λ form. say.IsForm (rows_of (found_of matches.now)) form) }
    ensures none { IfNone result (say.HasNoForm (rows_of (found_of matches.now))) }
{
    let no_done = is_set(matches, "no-done");
    if is_set(matches, "changes") {
        Some(ExportForm::Changes { done: !no_done })
    } else if no_done {
        None
    } else {
        Some(ExportForm::FullTree)
    }
}

/// What a batch is asked for. There is none where `--check` and `--command` stand together, of which clap makes sure.
pub(super) fn batch_form_of(matches: &ArgMatches<'_>) -> Option<BatchForm>
    ensures form { IfSome result (λ form. say.IsBatchForm (rows_of (found_of matches.now)) form) }
    ensures none { IfNone result (say.HasNoBatchForm (rows_of (found_of matches.now))) }
{
    let check = is_set(matches, "check");
    if is_set(matches, "command") {
        if check {
            None
        } else {
            Some(BatchForm::Commands)
        }
    } else if check {
        Some(BatchForm::Check)
    } else {
        Some(BatchForm::Bytes)
    }
}

/// The ref that is set, where standard input isn't to tell. clap makes sure that it is given, with what it becomes.
pub(super) fn ref_change_of<'a>(
    alloc: Global,
    matches: &ArgMatches<'a>,
) -> Result<Option<RefChange<'a>>, LineFault>
    ensures change { IfOk result
        (λ change. say.IsRefChange (rows_of (found_of matches.now)) change) }
    ensures missing { IfErr result
        (say.HasCause (say.HasNoRefChange (rows_of (found_of matches.now)))) }
{
    if is_set(matches, "stdin") {
        return Ok(None);
    }
    Ok(Some(RefChange {
        name: word_of(alloc, matches, "ref")?,
        new: word_of(alloc, matches, "new")?,
        old: option_of(matches, "old"),
    }))
}

/// The tests of refs that are given.
pub(super) fn filters_of<'a>(
    alloc: Global,
    matches: &ArgMatches<'a>,
) -> Result<Vec<RefFilter<'a>>, LineFault>
    ensures filters { IfOk result
        (λ filters. say.AreFilters (rows_of (found_of matches.now)) filters.items) }
    ensures memory { IfErr result (λ fault. fault ≡ OutOfMemory) }
{
    let mut filters = Vec::new(alloc);
    add_filter(
        &mut filters,
        RefTest::PointsAt,
        option_of(matches, "points-at"),
    )?;
    add_filter(
        &mut filters,
        RefTest::Contains,
        option_of(matches, "contains"),
    )?;
    add_filter(
        &mut filters,
        RefTest::NoContains,
        option_of(matches, "no-contains"),
    )?;
    add_filter(&mut filters, RefTest::Merged, option_of(matches, "merged"))?;
    add_filter(
        &mut filters,
        RefTest::NoMerged,
        option_of(matches, "no-merged"),
    )?;
    Ok(filters)
}

/// Adds a test of refs with the revision that is given for it, where one is.
fn add_filter<'a>(
    filters: &mut Vec<RefFilter<'a>>,
    test: RefTest,
    revision: Option<&'a str>,
) -> Result<(), LineFault>
    ensures added { OnOk result (map say.shown_filter filters.new.items
        ≡ map say.shown_filter filters.old.items
        ++ say.filter_given test (option_map (λ s. s.now) revision.entry)) }
    ensures memory { IfErr result (λ fault. fault ≡ OutOfMemory) }
{
    let Some(revision) = revision else {
        return Ok(());
    };
    match filters.push(RefFilter { test, revision }) {
        Ok(()) => Ok(()),
        Err(_) => Err(LineFault::OutOfMemory),
    }
}

/// The format that a list of commits is asked for in.
pub(super) fn format_of(alloc: Global, matches: &ArgMatches<'_>) -> Result<LogFormat, LineFault>
    ensures format { IfOk result
        (λ format. say.IsLogFormat (rows_of (found_of matches.now)) format) }
    ensures none { IfErr result
        (say.HasCause (say.HasNoFormat
        (first_of (codes "format") (rows_of (found_of matches.now))))) }
{
    match option_of(matches, "format") {
        None => Ok(LogFormat::Names),
        Some(word) => format_named(alloc, word),
    }
}

/// The format that a word asks for.
fn format_named(alloc: Global, word: &str) -> Result<LogFormat, LineFault>
    ensures format { IfOk result (λ format. say.format_word format ≡ Some word.now) }
    ensures none { IfErr result (say.HasCause (say.HasNoFormat (Some word.now))) }
{
    match word {
        "oneline" => Ok(LogFormat::Oneline),
        "raw" => Ok(LogFormat::Raw),
        "subject" => Ok(LogFormat::Subject),
        "author" => Ok(LogFormat::Author),
        "dates" => Ok(LogFormat::Dates),
        _ => Err(not_accepted(alloc, NO_FORMAT)),
    }
}

/// What is answered to a line that isn't accepted for this reason.
pub(super) fn not_accepted(alloc: Global, why: &str) -> LineFault {
    match format!(in alloc; "{why}") {
        Ok(text) => LineFault::Status { status: 2, text },
        Err(_) => LineFault::OutOfMemory,
    }
}

/// Whether a flag is given.
pub(super) fn is_set(matches: &ArgMatches<'_>, id: &str) -> bool
    ensures { say.IsFlag id.now (rows_of (found_of matches.now)) result }
{
    matches.get_one(id).unwrap_or(false)
}

/// The text of an option, which is empty where the option isn't given.
pub(super) fn text_of<'a>(matches: &ArgMatches<'a>, id: &str) -> &'a str
    ensures { say.IsText id.now (rows_of (found_of matches.now)) result }
{
    match matches.get_str(id) {
        Some(text) => text,
        None => "",
    }
}

/// The text of an option, where the option is given.
pub(super) fn option_of<'a>(matches: &ArgMatches<'a>, id: &str) -> Option<&'a str>
    ensures { say.IsOption id.now (rows_of (found_of matches.now)) result }
{
    matches.get_str(id)
}

/// The number of an option, which clap has checked.
pub(super) fn number_of(matches: &ArgMatches<'_>, id: &str) -> Option<u64>
    ensures { say.IsNumber id.now (rows_of (found_of matches.now)) result }
{
    matches.get_one(id)
}

/// Clap took the words for a command that it wasn't told of, which it never does.
pub(super) fn unknown(alloc: Global) -> LineFault {
    LineFault::Status {
        status: 2,
        text: String::new(alloc),
    }
}

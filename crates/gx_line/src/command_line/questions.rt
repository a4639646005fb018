//! The question to a store that a command and what clap found for it give.

ghost use Rattle.std.specs.Prelude.{◌≡◌, ◌∷◌, [], ℕ, List, IfErr, IfNone, IfOk, IfSome, codes};
ghost use Rattle.std.specs.Borrow.{Bor};
ghost use Rattle.clap.specs.Words.{first_of, found_of, rows_of};
ghost use Rattle.gx_line.specs.CommandLine as say;
ghost use Rattle.gx_line.specs.declared.fault.LineFault.TheVariants.{OutOfMemory};

use super::values::{
    ONE_DESCENDANT, any_words_of, batch_form_of, filters_of, form_of, format_of, is_set,
    not_accepted, number_of, option_of, text_of, unknown, word_of, words_of,
};
use crate::LineFault;
use clap::ArgMatches;
use gx_asks::{CommitFilter, DiffForm, DiffOptions, ExportForm, LogOptions, Question};
use std::alloc::Global;

/// The question that a command asks, which makes no change.
#[tactic(auto, unfolding(crate::specs::CommandLine::Says, crate::specs::CommandLine::Asks, crate::specs::CommandLine::Alters, crate::specs::CommandLine::Tries))]
pub(super) fn question_of<'a>(
    alloc: Global,
    name: &'a str,
    matches: &ArgMatches<'a>,
) -> Result<Question<'a>, LineFault>
    requires other { say.IsNoneOf say.stream_names name.now }
    requires unchanging { say.IsNoneOf say.change_names name.now }
    requires neither { say.IsNoneOf say.whole_names name.now }
    ensures question { IfOk result (say.Asks name.now (rows_of (found_of matches.now))) }
    ensures refused { IfErr result (say.IsRefused name.now (rows_of (found_of matches.now))) }
{
    match name {
        "refs" => refs_of(alloc, matches),
        "show" => Ok(Question::Show {
            revision: word_of(alloc, matches, "rev")?,
        }),
        "ls" => Ok(Question::Ls {
            recursive: is_set(matches, "recursive"),
            revision: word_of(alloc, matches, "rev")?,
        }),
        "archive" => Ok(Question::Archive {
            prefix: text_of(matches, "prefix"),
            revision: word_of(alloc, matches, "rev")?,
        }),
        "rev-parse" => Ok(Question::Names {
            revisions: words_of(alloc, matches, "rev")?,
        }),
        "log" => Ok(Question::Log {
            options: log_options_of(alloc, matches)?,
            ranges: any_words_of(alloc, matches, "range")?,
        }),
        "merge-base" => bases_of(alloc, matches),
        "diff" => Ok(Question::Diff {
            options: diff_options_of(matches),
            old: word_of(alloc, matches, "before")?,
            new: word_of(alloc, matches, "after")?,
            paths: any_words_of(alloc, matches, "path")?,
        }),
        "batch" => match batch_form_of(matches) {
            Some(form) => Ok(Question::Batch {
                form,
                format: option_of(matches, "format"),
                nul: is_set(matches, "nul"),
            }),
            None => Err(unknown(alloc)),
        },
        "export" => export_of(alloc, matches),
        _ => Err(unknown(alloc)),
    }
}

/// The refs, all of them where nothing is asked of them.
#[tactic(auto, unfolding(crate::specs::CommandLine::Says, crate::specs::CommandLine::Asks, crate::specs::CommandLine::Alters, crate::specs::CommandLine::Tries))]
fn refs_of<'a>(alloc: Global, matches: &ArgMatches<'a>) -> Result<Question<'a>, LineFault>
    ensures question { IfOk result (say.Asks (codes "refs") (rows_of (found_of matches.now))) }
    ensures memory { IfErr result (λ fault. fault ≡ OutOfMemory) }
{
    let filters = filters_of(alloc, matches)?;
    let patterns = any_words_of(alloc, matches, "pattern")?;
    if filters.is_empty() && patterns.is_empty() {
        return Ok(Question::Refs);
    }
    Ok(Question::RefsThat { filters, patterns })
}

/// The options of a list of commits.
fn log_options_of(alloc: Global, matches: &ArgMatches<'_>) -> Result<LogOptions, LineFault>
    ensures options { IfOk result (say.AreLogOptions (rows_of (found_of matches.now))) }
    ensures none { IfErr result (say.HasCause
        (say.HasNoFormat (first_of (codes "format") (rows_of (found_of matches.now))))) }
{
    Ok(LogOptions {
        reverse: is_set(matches, "reverse"),
        only: filter_of(matches),
        skip: number_of(matches, "skip"),
        max_count: number_of(matches, "max-count"),
        count: is_set(matches, "count"),
        parents: is_set(matches, "parents"),
        all: is_set(matches, "all"),
        stdin: is_set(matches, "stdin"),
        format: format_of(alloc, matches)?,
    })
}

/// What is told of what differs, and how.
fn diff_options_of(matches: &ArgMatches<'_>) -> DiffOptions
    ensures { say.AreDiffOptions (rows_of (found_of matches.now)) result }
{
    DiffOptions {
        form: diff_form_of(matches),
        nul: is_set(matches, "nul"),
        exit_code: is_set(matches, "exit-code"),
    }
}

/// What is printed of what differs. clap makes sure that one form is asked for at most, beside `--quiet`.
fn diff_form_of(matches: &ArgMatches<'_>) -> DiffForm
    ensures { say.IsDiffForm (rows_of (found_of matches.now)) result }
{
    if is_set(matches, "quiet") {
        DiffForm::Quiet
    } else if is_set(matches, "count") {
        DiffForm::Count
    } else if is_set(matches, "raw") {
        DiffForm::Raw
    } else if is_set(matches, "name-only") {
        DiffForm::Paths
    } else if is_set(matches, "patch") {
        DiffForm::Patch
    } else {
        DiffForm::Status
    }
}

/// Which commits are kept.
fn filter_of(matches: &ArgMatches<'_>) -> CommitFilter
    ensures { say.IsFilter (rows_of (found_of matches.now)) result }
{
    CommitFilter {
        merges: is_set(matches, "merges"),
        no_merges: is_set(matches, "no-merges"),
        since: number_of(matches, "since"),
        until: number_of(matches, "until"),
    }
}

/// An export. clap makes sure that `--no-done` and range words stand beside `--changes`.
#[tactic(auto, unfolding(crate::specs::CommandLine::Says, crate::specs::CommandLine::Asks, crate::specs::CommandLine::Alters, crate::specs::CommandLine::Tries))]
fn export_of<'a>(alloc: Global, matches: &ArgMatches<'a>) -> Result<Question<'a>, LineFault>
    ensures question { IfOk result (say.Asks (codes "export") (rows_of (found_of matches.now))) }
    ensures refused { IfErr result
        (say.IsRefused (codes "export") (rows_of (found_of matches.now))) }
{
    let Some(form) = form_of(matches) else {
        return Err(unknown(alloc));
    };
    let Some(words) = matches.get_strs("range") else {
        return Ok(Question::Export(form));
    };
    match form {
        ExportForm::Changes { done } => Ok(Question::ExportRange {
            done,
            ranges: Vec::from_slice(alloc, words)?,
        }),
        ExportForm::FullTree => Err(unknown(alloc)),
    }
}

/// What is asked of merge bases. clap makes sure that `--is-ancestor` stands beside neither `--all` nor `--octopus`.
#[tactic(auto, unfolding(crate::specs::CommandLine::Says, crate::specs::CommandLine::Asks, crate::specs::CommandLine::Alters, crate::specs::CommandLine::Tries))]
fn bases_of<'a>(alloc: Global, matches: &ArgMatches<'a>) -> Result<Question<'a>, LineFault>
    ensures question { IfOk result
        (say.Asks (codes "merge-base") (rows_of (found_of matches.now))) }
    ensures refused { IfErr result
        (say.IsRefused (codes "merge-base") (rows_of (found_of matches.now))) }
{
    let revision = word_of(alloc, matches, "rev")?;
    let others = words_of(alloc, matches, "other")?;
    if !is_set(matches, "is-ancestor") {
        return Ok(Question::MergeBase {
            octopus: is_set(matches, "octopus"),
            all: is_set(matches, "all"),
            revision,
            others,
        });
    }
    match only_word(others.as_slice()) {
        Some(descendant) => Ok(Question::IsAncestor {
            revision,
            descendant,
        }),
        None => Err(not_accepted(alloc, ONE_DESCENDANT)),
    }
}

/// The word of a list of one.
fn only_word<'a>(words: &[&'a str]) -> Option<&'a str>
    ensures word { IfSome result (λ word. words.now ≡ word ∷ []) }
    ensures none { IfNone result ((word : Bor (List ℕ)) → words.now ≡ word ∷ [] → ⊥) }
{
    if words.len() != 1 {
        return None;
    }
    words.first().copied()
}

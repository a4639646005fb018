//! The names of what revisions give, one a line. Source: git-rev-parse(1).

ghost use Rattle.std.specs.Prelude.{◌≡◌, Ok, OnOk, [], map};
ghost use Rattle.std.specs.List.{AllByRecursion, flat_map};
ghost use Rattle.gx_model.specs.Records.HistoryOf.{history_of};
ghost use Rattle.gx_model.specs.Revisions.{revision_of};
ghost use Rattle.gx_model.specs.Revisions.Ranges.{each_word};
ghost use Rattle.gx_model.specs.Revisions.Denotation.{denoted};
ghost use Rattle.gx_rev.specs.Answers.{IsNamed, shown_by};
ghost use Rattle.gx_text.specs.Lent.{lent_texts};
ghost use Rattle.gx_cli.specs.Answers.{Prints};
ghost use Rattle.gx_print.specs.Stored.{all_words, names_text, shown_line};
ghost use Rattle.gx_cli.specs.Words.{GivesWords};

use crate::CliFault;
use crate::sending::put_text;
use crate::words::refused;
use gx_object::Namer;
use gx_print::{read_revisions, shown_line};
use gx_repo::Repo;
use gx_rev::{Revision, Shown};
use gx_text::Sink;
use std::alloc::Allocator;

/// Prints the name of what each word gives as a revision; a submodule's digits. All words are read, then all are evaluated,
/// and only then is anything printed.
///
/// `Revision`: the first word that isn't one, or else the first that gives nothing, by its number from 1.
/// Cost: that of `Revision::eval` for each word. Memory: the revisions and what they give.
pub(crate) fn print_names<N: Namer, A: Allocator + Copy, W: Sink>(
    alloc: A,
    repo: &Repo<N, A>,
    words: &[&[u8]],
    sink: &mut W,
) -> Result<(), CliFault>
    ensures { Prints (names_text (N.name_of repo.now.0) (history_of repo.now.1)
        (lent_texts words.now))
        (W.taken sink.old) (W.taken sink.new) result }
{
    let revisions = revisions_of(alloc, words)?;
    let mut shown = Vec::new(alloc);
    eval_into(repo, &revisions, &mut shown)?;
    print_lines(&shown, sink)
}

/// Each word as a revision, or the first that is none.
fn revisions_of<A: Allocator + Copy>(
    alloc: A,
    words: &[&[u8]],
) -> Result<Vec<Revision<A>, A>, CliFault>
    ensures { GivesWords (λ revisions. revisions.items) result
        (all_words (each_word revision_of (lent_texts words.now))) }
{
    match read_revisions(alloc, words) {
        Ok(revisions) => Ok(revisions),
        Err(fault) => Err(refused(fault.word as u64, fault.kind)),
    }
}

/// Puts what each revision shows into a list, or tells the first that shows nothing.
fn eval_into<N: Namer, A: Allocator + Copy>(
    repo: &Repo<N, A>,
    revisions: &[Revision<A>],
    shown: &mut Vec<Shown, A>,
) -> Result<(), CliFault>
    requires empty { shown.old.items ≡ [] }
    ensures shown { GivesWords (λ done. map (shown_by repo.now.1) shown.new.items) result
        (all_words (each_word (denoted (N.name_of repo.now.0) (history_of repo.now.1))
        revisions.now)) }
    ensures named { OnOk result (AllByRecursion (IsNamed (N.name_of repo.now.0) repo.now.1)
        shown.new.items) }
{
    for (place, revision) in revisions.iter().enumerate() {
        match revision.eval(repo) {
            Ok(object) => shown.push(object)?,
            Err(kind) => return Err(refused(place as u64 + 1, kind)),
        }
    }
    Ok(())
}

/// Prints a line for each.
fn print_lines<W: Sink>(all: &[Shown], sink: &mut W) -> Result<(), CliFault>
    ensures { Prints (Ok (flat_map shown_line all.now))
        (W.taken sink.old) (W.taken sink.new) result }
{
    for shown in all {
        put_text(sink, shown_line(*shown).as_slice())?;
    }
    Ok(())
}

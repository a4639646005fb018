//! What a revision shows, printed. Source: git-cat-file(1) and git-ls-tree(1).

ghost use Rattle.std.specs.Prelude.{[], Ok};
ghost use Rattle.gx_model.specs.Records.HistoryOf.{history_of};
ghost use Rattle.gx_model.specs.declared.objects.Kind.TheVariants as kinds;
ghost use Rattle.gx_rev.specs.Answers.{IsNamed, shown_by};
ghost use Rattle.gx_rev.specs.Objects.{IsHeldAs, files_at};
ghost use Rattle.gx_print.specs.Listings.{shown_text, text_of_word, tree_lines};
ghost use Rattle.gx_cli.specs.Trying.{Shows};

use crate::CliFault;
use crate::sending::put_text;
use gx_object::{Kind, Name, Namer};
use gx_print::listing;
use gx_repo::Repo;
use gx_rev::{RevFault, Revision, Shown, body_of, entries_of};
use gx_text::Sink;
use std::alloc::Allocator;

/// Shows a word as a revision: a blob's bytes, a submodule's digits, the body of a commit or a tag, a tree's entries.
///
/// `Revision`: the word isn't a revision, or the revision gives nothing. Nothing is printed then.
/// Cost: that of `Revision::eval`, and what is printed. A tree's lines are made before they are printed.
pub(crate) fn show<N: Namer, A: Allocator + Copy, W: Sink>(
    alloc: A,
    repo: &Repo<N, A>,
    word: &[u8],
    sink: &mut W,
) -> Result<(), CliFault>
    ensures { Shows [] (text_of_word (N.name_of repo.now.0) (history_of repo.now.1) word.now)
        (W.taken sink.old) (W.taken sink.new) result }
{
    match Revision::eval_text(alloc, repo, word) {
        Ok(shown) => print_shown(alloc, repo, shown, sink),
        Err(RevFault::OutOfMemory) => Err(CliFault::OutOfMemory),
        Err(kind) => Err(CliFault::Revision { number: 1, kind }),
    }
}

/// Prints what is shown.
fn print_shown<N: Namer, A: Allocator + Copy, W: Sink>(
    alloc: A,
    repo: &Repo<N, A>,
    shown: Shown,
    sink: &mut W,
) -> Result<(), CliFault>
    requires { IsNamed (N.name_of repo.now.0) repo.now.1 shown }
    ensures { Shows [] (Ok (shown_text (N.name_of repo.now.0) (shown_by repo.now.1 shown)))
        (W.taken sink.old) (W.taken sink.new) result }
{
    repo.sound();
    match shown {
        Shown::Object(kind, name) => match kind {
            Kind::Tree => print_entries(alloc, repo, &name, sink),
            Kind::Blob | Kind::Commit | Kind::Tag => put_text(sink, body_of(repo, &name)),
        },
        Shown::Submodule(name) => put_text(sink, name.hex().as_slice()),
    }
}

/// Prints the lines of a held tree's entries, which are made before they are printed.
pub(crate) fn print_entries<N: Namer, A: Allocator + Copy, W: Sink>(
    alloc: A,
    repo: &Repo<N, A>,
    tree: &Name,
    sink: &mut W,
) -> Result<(), CliFault>
    requires { IsHeldAs kinds.Tree repo.now.1 tree.now }
    ensures { Shows [] (Ok (tree_lines (N.name_of repo.now.0) (files_at repo.now.1 tree.now)))
        (W.taken sink.old) (W.taken sink.new) result }
{
    repo.sound();
    match listing(alloc, entries_of(repo, tree)) {
        Ok(text) => put_text(sink, text.as_slice()),
        Err(_) => Err(CliFault::OutOfMemory),
    }
}

//! The entries of a revision's tree. Source: git-ls-tree(1), `-z`.

ghost use Rattle.std.specs.Prelude.{◌≡◌, ◌++◌, IfOk, OnOk};
ghost use Rattle.std.specs.List.{flat_map};
ghost use Rattle.gx_model.specs.Faults.{Gives};
ghost use Rattle.gx_model.specs.Records.HistoryOf.{history_of};
ghost use Rattle.gx_object.specs.Entries.{shown};
ghost use Rattle.gx_rev.specs.RevFaults.{fault_of};
ghost use Rattle.gx_c.specs.Answers.{AnswersText};
ghost use Rattle.gx_c.specs.Listings.{listed, listing_of};

use crate::answer::{Answer, Why};
use gx_object::{Entry, Namer, TreeEntries};
use gx_repo::Repo;
use gx_rev::{RevFault, entries_of, put_entry_head, tree_of_text};
use std::alloc::{AllocError, Allocator};

/// The entries of the tree that a text gives as a revision, in Git's order: of each the mode, the kind, the digits, a
/// TAB, its name and a NUL. A tree below is asked for by itself, as `main:dir`.
///
/// Refused by the first fault of the revision's text and of what it gives. Cost: that of `gx_rev::tree_of_text`, and the text's
/// length.
pub(crate) fn ls<N: Namer, A: Allocator + Copy>(
    alloc: A,
    repo: &Repo<N, A>,
    revision: &[u8],
) -> Answer<A>
    ensures { AnswersText (listing_of (N.name_of repo.now.0) (history_of repo.now.1) revision.now)
        result }
{
    match listing(alloc, repo, revision) {
        Ok(text) => Answer::given(text, 0),
        Err(fault) => Answer::refused(alloc, Why::Revision(fault), 0),
    }
}

fn listing<N: Namer, A: Allocator + Copy>(
    alloc: A,
    repo: &Repo<N, A>,
    revision: &[u8],
) -> Result<Vec<u8, A>, RevFault>
    ensures { Gives fault_of (λ text. text.items) result
        (listing_of (N.name_of repo.now.0) (history_of repo.now.1) revision.now) }
{
    let tree = tree_of_text(alloc, repo, revision)?;
    Ok(put_entries(alloc, entries_of(repo, &tree))?)
}

fn put_entries<A: Allocator + Copy>(
    alloc: A,
    entries: TreeEntries<'_>,
) -> Result<Vec<u8, A>, AllocError>
    ensures { IfOk result (λ text. text.items ≡ flat_map listed entries.entry) }
{
    let mut text = Vec::new(alloc);
    for entry in entries {
        put_entry(&mut text, &entry)?;
    }
    Ok(text)
}

/// Appends an entry.
fn put_entry<A: Allocator>(text: &mut Vec<u8, A>, entry: &Entry<'_>) -> Result<(), AllocError>
    ensures { OnOk result (text.new.items ≡ text.old.items ++ listed (shown entry.now)) }
{
    put_entry_head(text, entry.mode, &entry.name)?;
    text.extend_from_slice(entry.component)?;
    text.push(b'\0')?;
    Ok(())
}

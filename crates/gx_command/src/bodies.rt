//! The lines and blocks of each command after its first line.

ghost use Rattle.std.specs.Prelude.{◌≡◌, codes, map, IfOk};
ghost use Rattle.std.specs.Option.{option_map};
ghost use Rattle.gx_model.specs.Faults.{Gives, NeedsNoMemory};
ghost use Rattle.gx_model.specs.Streams.Items.{Stream};
ghost use Rattle.gx_stream.specs.Reading.{item_of};
ghost use Rattle.gx_model.specs.Streams.Grammar.{unsigned, item_after, bytes_from, merges, changes, blob_at, links_at, commit_at, tag_at, reset_at};
ghost use Rattle.gx_model.specs.Streams.Lines.{optional, needed, block, mark_of, any_text, ident_of, encoding_of, commit_ish_of};
ghost use Rattle.gx_command.specs.Ahead.{ReadsOn, ReadsPlain, ReadsLine, Falls, FallsNot, to_come, most};
ghost use Rattle.gx_command.specs.Bodies.{begun_change, next_change, written_at, shown_written, shown_links, ChangeIn, TakesChange, signature_in, empty_line};
ghost use Rattle.gx_command.specs.CommandFaults.{fault_of};
ghost use Rattle.gx_command.specs.Explaining.{ExplainsFrom, ExplainsOn, MayBeAhead};
ghost use Rattle.gx_command.specs.ChangeLines.{completed_modify, shown_where};
ghost use Rattle.gx_command.specs.Places.{IsSuitedAs};
ghost use Rattle.gx_command.specs.Views.{shown_ident, shown_encoding, shown_commit_ish, shown_data, shown_modify, shown_change, shown_blob, shown_commit, shown_tag, shown_reset};

use crate::ahead::{Ahead, Held};
use crate::change_lines::{ChangeLine, read_change};
use crate::commands::{Blob, Change, Commit, CommitIsh, DataRef, Modify, Reset, Tag};
use crate::fault::CommandFault;
use crate::lines::Words;
use crate::marks::{read_commit_ish, read_mark};
use crate::modify_line::{ModifyLine, Place};
use crate::texts::{Encoding, Identity, RefName, TagName};
use gx_stream::Item;
use gx_text::Source;
use std::alloc::Allocator;

/// Who wrote a commit, and what.
#[derive(Drop)]
struct Written<A: Allocator> {
    author: Option<Identity<A>>,
    committer: Identity<A>,
    encoding: Option<Encoding<A>>,
    message: Vec<u8, A>,
}

/// The parents and the changes of a commit.
#[derive(Drop)]
struct Links<A: Allocator> {
    from: Option<CommitIsh<A>>,
    merges: Vec<CommitIsh<A>, A>,
    changes: Vec<Change<A>, A>,
}

impl<R: Source, A: Allocator + Copy> Ahead<R, A> {
    pub(crate) fn blob(&mut self) -> Result<Blob<A>, CommandFault>
        ensures reads { ReadsOn shown_blob blob_at self.old self.new result }
        ensures explains { ExplainsOn shown_blob blob_at self.old self.new result }
        ensures falls { FallsNot (most self.old) (most self.new) result }
    {
        let mark = self.mark()?;
        self.skip_oid()?;
        let bytes = self.block()?;
        Ok(Blob { mark, bytes })
    }

    pub(crate) fn commit(&mut self, branch: RefName<A>) -> Result<Commit<A>, CommandFault>
        ensures reads { ReadsOn shown_commit (commit_at branch.bytes.items)
            self.old self.new result }
        ensures explains { ExplainsOn shown_commit (commit_at branch.bytes.items)
            self.old self.new result }
        ensures falls { FallsNot (most self.old) (most self.new) result }
    {
        let mark = self.mark()?;
        self.skip_oid()?;
        let written = self.written()?;
        let links = self.links()?;
        Ok(Commit {
            branch,
            mark,
            author: written.author,
            committer: written.committer,
            encoding: written.encoding,
            message: written.message,
            from: links.from,
            merges: links.merges,
            changes: links.changes,
        })
    }

    fn written(&mut self) -> Result<Written<A>, CommandFault>
        ensures reads { ReadsOn shown_written written_at self.old self.new result }
        ensures explains { ExplainsOn shown_written written_at self.old self.new result }
        ensures falls { FallsNot (most self.old) (most self.new) result }
    {
        let author = self.ident(b"author")?;
        let committer = self.needed_ident(b"committer")?;
        self.check_unsigned()?;
        let encoding = self.encoding()?;
        let message = self.block()?;
        Ok(Written {
            author,
            committer,
            encoding,
            message,
        })
    }

    fn links(&mut self) -> Result<Links<A>, CommandFault>
        ensures reads { ReadsOn shown_links links_at self.old self.new result }
        ensures explains { ExplainsOn shown_links links_at self.old self.new result }
        ensures falls { FallsNot (most self.old) (most self.new) result }
    {
        let from = self.commit_ish(b"from")?;
        let merges = self.merges()?;
        let changes = self.changes()?;
        self.end()?;
        Ok(Links {
            from,
            merges,
            changes,
        })
    }

    pub(crate) fn tag(&mut self, name: TagName<A>) -> Result<Tag<A>, CommandFault>
        ensures reads { ReadsOn shown_tag (tag_at name.bytes.items) self.old self.new result }
        ensures explains { ExplainsOn shown_tag (tag_at name.bytes.items) self.old self.new result }
        ensures falls { FallsNot (most self.old) (most self.new) result }
    {
        let mark = self.mark()?;
        let from = self.needed_commit_ish(b"from")?;
        self.skip_oid()?;
        let tagger = self.ident(b"tagger")?;
        let message = self.block()?;
        Ok(Tag {
            name,
            mark,
            from,
            tagger,
            message,
        })
    }

    pub(crate) fn reset(&mut self, branch: RefName<A>) -> Result<Reset<A>, CommandFault>
        ensures reads { ReadsOn shown_reset (reset_at branch.bytes.items) self.old self.new result }
        ensures explains { ExplainsOn shown_reset (reset_at branch.bytes.items)
            self.old self.new result }
        ensures falls { FallsNot (most self.old) (most self.new) result }
    {
        let from = self.commit_ish(b"from")?;
        self.end()?;
        Ok(Reset { branch, from })
    }

    fn mark(&mut self) -> Result<Option<u64>, CommandFault>
        ensures reads { ReadsPlain (optional (codes "mark") mark_of) self.old self.new result }
        ensures explains { ExplainsOn (λ x. x) (optional (codes "mark") mark_of)
            self.old self.new result }
        ensures falls { FallsNot (most self.old) (most self.new) result }
    {
        self.optional(b"mark", read_mark)
    }

    fn skip_oid(&mut self) -> Result<Option<()>, CommandFault>
        ensures reads { ReadsPlain (optional (codes "original-oid") any_text)
            self.old self.new result }
        ensures explains { ExplainsOn (λ x. x) (optional (codes "original-oid") any_text)
            self.old self.new result }
        ensures falls { FallsNot (most self.old) (most self.new) result }
    {
        self.optional(b"original-oid", |_text| Ok(()))
    }

    fn ident(&mut self, word: &[u8]) -> Result<Option<Identity<A>>, CommandFault>
        ensures reads { ReadsLine shown_ident word.now ident_of self.old self.new result }
        ensures explains { ExplainsOn (option_map shown_ident) (optional word.now ident_of)
            self.old self.new result }
        ensures falls { FallsNot (most self.old) (most self.new) result }
    {
        let alloc = self.alloc;
        self.optional(word, |text| Identity::read(alloc, text))
    }

    fn needed_ident(&mut self, word: &[u8]) -> Result<Identity<A>, CommandFault>
        ensures reads { ReadsOn shown_ident (needed word.now ident_of) self.old self.new result }
        ensures explains { ExplainsOn shown_ident (needed word.now ident_of)
            self.old self.new result }
        ensures falls { FallsNot (most self.old) (most self.new) result }
    {
        self.ident(word)?.ok_or(CommandFault::BadLine)
    }

    fn encoding(&mut self) -> Result<Option<Encoding<A>>, CommandFault>
        ensures reads { ReadsLine shown_encoding (codes "encoding") encoding_of
            self.old self.new result }
        ensures explains { ExplainsOn (option_map shown_encoding)
            (optional (codes "encoding") encoding_of) self.old self.new result }
        ensures falls { FallsNot (most self.old) (most self.new) result }
    {
        let alloc = self.alloc;
        self.optional(b"encoding", |text| Encoding::read(alloc, text))
    }

    fn commit_ish(&mut self, word: &[u8]) -> Result<Option<CommitIsh<A>>, CommandFault>
        ensures reads { ReadsLine shown_commit_ish word.now commit_ish_of self.old self.new result }
        ensures explains { ExplainsOn (option_map shown_commit_ish)
            (optional word.now commit_ish_of) self.old self.new result }
        ensures falls { Falls (most self.old) (most self.new) result }
    {
        let alloc = self.alloc;
        self.optional(word, |text| read_commit_ish(alloc, text))
    }

    fn needed_commit_ish(&mut self, word: &[u8]) -> Result<CommitIsh<A>, CommandFault>
        ensures reads { ReadsOn shown_commit_ish (needed word.now commit_ish_of)
            self.old self.new result }
        ensures explains { ExplainsOn shown_commit_ish (needed word.now commit_ish_of)
            self.old self.new result }
        ensures falls { FallsNot (most self.old) (most self.new) result }
    {
        self.commit_ish(word)?.ok_or(CommandFault::BadLine)
    }

    /// The commits that are merged, of all the lines that name one.
    #[tactic(auto, unfolding(crate::specs::Explaining::Explains))]
    fn merges(&mut self) -> Result<Vec<CommitIsh<A>, A>, CommandFault>
        ensures reads { ReadsOn (λ v. map shown_commit_ish v.items) merges
            self.old self.new result }
        ensures explains { ExplainsOn (λ v. map shown_commit_ish v.items) merges
            self.old self.new result }
        ensures falls { FallsNot (most self.old) (most self.new) result }
    {
        let mut merges = Vec::new(self.alloc);
        while let Some(merge) = self.commit_ish(b"merge")? {
            merges.push(merge)?;
        }
        Ok(merges)
    }

    #[tactic(auto, unfolding(crate::specs::Explaining::Explains))]
    fn changes(&mut self) -> Result<Vec<Change<A>, A>, CommandFault>
        ensures reads { ReadsOn (λ v. map shown_change v.items) changes self.old self.new result }
        ensures explains { ExplainsOn (λ v. map shown_change v.items) changes
            self.old self.new result }
        ensures falls { FallsNot (most self.old) (most self.new) result }
    {
        let mut changes = Vec::new(self.alloc);
        while let Some(change) = self.change()? {
            changes.push(change)?;
        }
        Ok(changes)
    }

    /// The next change, with the block that belongs to it.
    #[tactic(auto, unfolding(crate::specs::Explaining::Explains))]
    fn change(&mut self) -> Result<Option<Change<A>>, CommandFault>
        ensures reads { ReadsOn (option_map shown_change) next_change self.old self.new result }
        ensures explains { ExplainsOn (option_map shown_change) next_change
            self.old self.new result }
        ensures falls { Falls (most self.old) (most self.new) result }
    {
        match self.change_line()? {
            None => Ok(None),
            Some(ChangeLine::Whole(change)) => Ok(Some(change)),
            Some(ChangeLine::Modify(line)) => Ok(Some(Change::Modify(self.modify(line)?))),
        }
    }

    /// The modify of a line, with the block that may belong to it.
    #[tactic(auto, unfolding(crate::specs::Explaining::Explains))]
    fn modify(&mut self, line: ModifyLine<A>) -> Result<Modify<A>, CommandFault>
        ensures reads { ReadsOn shown_modify (completed_modify line) self.old self.new result }
        ensures explains { ExplainsOn shown_modify (completed_modify line)
            self.old self.new result }
        ensures falls { FallsNot (most self.old) (most self.new) result }
    {
        let ModifyLine { mode, place, path } = line;
        let data_ref = self.data_ref(place)?;
        Ok(Modify {
            mode,
            data_ref,
            path,
        })
    }

    #[tactic(auto, unfolding(crate::specs::Explaining::Explains))]
    fn data_ref(&mut self, place: Place) -> Result<DataRef<A>, CommandFault>
        ensures reads { ReadsOn shown_data (bytes_from (shown_where place))
            self.old self.new result }
        ensures explains { ExplainsOn shown_data (bytes_from (shown_where place))
            self.old self.new result }
        ensures suits { IfOk result (IsSuitedAs place) }
        ensures falls { FallsNot (most self.old) (most self.new) result }
    {
        match place {
            Place::Mark(mark) => Ok(DataRef::Mark(mark)),
            Place::Name(digits) => Ok(DataRef::Name(digits)),
            Place::Block => Ok(DataRef::Inline(self.block()?)),
        }
    }

    fn change_line(&mut self) -> Result<Option<ChangeLine<A>>, CommandFault>
        ensures takes { TakesChange (to_come self.old) (to_come self.new) result }
        ensures explains { ExplainsFrom begun_change next_change (MayBeAhead self.old)
            (MayBeAhead self.new) result }
        ensures falls { Falls (most self.old) (most self.new) result }
    {
        let alloc = self.alloc;
        self.take(|item| change_in(alloc, item))
    }

    /// The bytes of the next item, which has to be a block.
    #[tactic(auto, unfolding(gx_model::specs::Streams::Lines::block_in, crate::specs::Ahead::to_come, crate::specs::Ahead::most, crate::specs::Explaining::Explains))]
    fn block(&mut self) -> Result<Vec<u8, A>, CommandFault>
        ensures reads { ReadsOn (λ v. v.items) block self.old self.new result }
        ensures explains { ExplainsOn (λ v. v.items) block self.old self.new result }
        ensures falls { FallsNot (most self.old) (most self.new) result }
    {
        match self.held.take() {
            Some(Held::Data(bytes)) => return Ok(bytes),
            Some(Held::Line(_)) => return Err(CommandFault::BadLine),
            None => {}
        }
        if let Some(bytes) = self.items.next_block()? {
            return Ok(bytes);
        }
        let _line = self.items.next()?;
        Err(CommandFault::BadLine)
    }

    /// Refuses a signature.
    #[tactic(auto, unfolding(gx_model::specs::Streams::Grammar::unsigned_in, crate::specs::Explaining::Explains))]
    fn check_unsigned(&mut self) -> Result<(), CommandFault>
        ensures reads { ReadsPlain unsigned self.old self.new result }
        ensures explains { ExplainsOn (λ x. x) unsigned self.old self.new result }
        ensures falls { FallsNot (most self.old) (most self.new) result }
    {
        let _none = self.take(refuse_signature)?;
        Ok(())
    }

    /// Looks at the item after a commit or a reset, and takes it where it is an empty line.
    #[tactic(auto, unfolding(gx_model::specs::Streams::Grammar::item_after_in, crate::specs::Explaining::Explains))]
    fn end(&mut self) -> Result<(), CommandFault>
        ensures reads { ReadsPlain item_after self.old self.new result }
        ensures explains { ExplainsOn (λ x. x) item_after self.old self.new result }
        ensures falls { FallsNot (most self.old) (most self.new) result }
    {
        let _line = self.take(|item| Ok(empty_line(item)))?;
        Ok(())
    }
}

/// The change that an item is, or begins.
fn change_in<A: Allocator + Copy>(
    alloc: A,
    item: Item<'_>,
) -> Result<Option<ChangeLine<A>>, CommandFault>
    ensures { (s : Stream) → ChangeIn (item_of item.entry) s result }
{
    match item {
        Item::Line(line) => read_change(alloc, line),
        Item::Data(_) => Ok(None),
    }
}

fn refuse_signature(item: Item<'_>) -> Result<Option<()>, CommandFault>
    ensures signature { Gives fault_of (λ none. none) result (signature_in (item_of item.entry)) }
    ensures memory { NeedsNoMemory CommandFault.OutOfMemory result }
{
    match item {
        Item::Line(line) if Words::of(line).is(b"gpgsig") => Err(CommandFault::Unsupported),
        _ => Ok(None),
    }
}

fn empty_line(item: Item<'_>) -> Option<()>
    ensures { result ≡ empty_line (item_of item.entry) }
{
    match item {
        Item::Line(line) if line.is_empty() => Some(()),
        _ => None,
    }
}

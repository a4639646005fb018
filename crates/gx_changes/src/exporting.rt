//! The export of the changes that range words list. Source: git-fast-export(1).

ghost use Rattle.std.specs.Prelude.{IfSome, map};
ghost use Rattle.gx_rev.specs.Views.{shown_range};
ghost use Rattle.gx_changes.specs.Sending.{SendsRange};

use crate::ChangesFault;
use crate::finding::{Sent, find_sent};
use crate::sayable::check_sayable;
use crate::sending::write_sent;
use gx_objects::Objects;
use gx_rev::Range;
use gx_text::Sink;
use std::alloc::Allocator;

/// Writes the commits that range words list as a stream, with the refs whose commits some word includes or excludes, as
/// `gx_export::export_range` writes those of a repository.
///
/// Word: a word is refused, and nothing went out. Unsupported: a commit that is listed has a header but that of an encoding, as
/// a signature, which no stream can say, and nothing went out. WriteFailed: the sink failed, or has taken 2^63 - 1 bytes of a longer text.
/// OutOfMemory: a growth is refused. ReadFailed: a read failed. Damaged: this is no repository. What went out is a front of the
/// text.
/// Cost: what the words cost; the bodies of the commits that the words reach down to the oldest ref that they reach, and of those
/// that these refs reach down to the oldest that is sent; and of each commit that is sent the directories that aren't those of its
/// first parent, and the blobs that weren't written. Memory: a name, a number and a mark for each commit that is sent, a mark for
/// each blob, the refs, the lines of a commit's changes, the two trees at each level of a path, and a blob.
/// Source: git-fast-export(1), gitrevisions(7), "Specifying Ranges".
pub fn export_range<O: Objects, A: Allocator + Copy, W: Sink>(
    alloc: A,
    objects: &O,
    words: &[Range<A>],
    sink: &mut W,
    closed: bool,
) -> Result<(), ChangesFault>
    ensures range { IfSome (O.told objects.now) (SendsRange (O.name_of objects.now) closed
        (map shown_range words.now) (W.taken sink.old) (W.taken sink.new) result) }
{
    let mut room = Vec::new(alloc);
    let mut lines = Vec::new(alloc);
    let Sent { refs, commits } = find_sent(alloc, objects, &mut room, &mut lines, words)?;
    check_sayable(objects, &mut room, &commits)?;
    write_sent(alloc, objects, &mut room, sink, &refs, &commits, closed)?;
    Ok(())
}

//! The commands of streams with all their parts, in pieces and up to failures and refused growths.

ghost use Rattle.std.specs.Prelude.{◌<◌};

use crate::spelling::{Heap, Spelling};
use gx_command::{CommandFault, CommandReader};
use gx_text::Bytes;

mod spelled;

use spelled::put_command;

const STREAM: &[u8] = b"\
feature done\n\
option git quiet\n\
# all parts\n\
\n\
blob\n\
mark :1\n\
original-oid x\n\
data 3\n\
a\n\
b\n\
blob\n\
data <<E\n\
c\n\
E\n\
\n\
checkpoint\n\
progress half way\n\
commit refs/heads/a\n\
mark :2\n\
original-oid y\n\
author A <a@x> 1 +0000\n\
committer B <b@x> 2 -0130\n\
encoding latin 1\n\
data 3\n\
foofrom :3\n\
merge :4\n\
merge main~2\n\
M 644 :1 d/e\n\
M 100755 d670460b4b4aece5915caf5c68d12f560a9fe3e4 f g\n\
M 120000 inline \"l\\303\\251\"\n\
data 2\n\
hi\n\
M 160000 D670460B4B4AECE5915CAF5C68D12F560A9FE3E4 sub\n\
D d/e\n\
C \"f g\" h i\n\
R l  m\n\
deleteall\n\
\n\
reset refs/heads/b\n\
from refs/heads/a^0\n\
\n\
reset refs/heads/c\n\
tag v1\n\
mark :5\n\
from :2\n\
original-oid z\n\
tagger <c@x> 3 +0\n\
data 3\n\
one\n\
tag v2\n\
from x\n\
data 0\n\
commit c\n\
committer B <b@x> 4 +0000\n\
data 1\n\
mdone\n\
foo\n";

/// The commands of that stream, each with a semicolon.
const COMMANDS: &[u8] =
    b"feature done;option git quiet;blob :1 <a\nb>;blob <c\n>;checkpoint;progress half way;\
commit refs/heads/a :2 author(A <a@x> 1 +0000) committer(B <b@x> 2 -0130) encoding(latin 1) <foo> from :3 merge :4 merge main~2 \
M 100644 :1 [d/e] M 100755 d670460b4b4aece5915caf5c68d12f560a9fe3e4 [f g] M 120000 <hi> [l\xc3\xa9] \
M 160000 D670460B4B4AECE5915CAF5C68D12F560A9FE3E4 [sub] D [d/e] C [f g] [h i] R [l] [ m] deleteall;\
reset refs/heads/b from refs/heads/a^0;reset refs/heads/c;tag v1 :5 from :2 tagger(<c@x> 3 +0) <one>;tag v2 from x <>;\
commit c committer(B <b@x> 4 +0000) <m>;done;";

/// A stream's end, or the fault before it.
type End = Option<CommandFault>;

/// A reader of a text on a heap that may be told to refuse a growth.
type Reader<'t, 'h> = CommandReader<Bytes<'t>, &'h Heap>;

/// Spells the next command, with a semicolon. Answers what is there in its place.
fn put_next(spelling: &mut Spelling<'_>, reader: &mut Reader<'_, '_>) -> Option<End> {
    let next = reader.next();
    let end = match &next {
        Ok(Some(command)) => {
            put_command(spelling, command);
            spelling.put(b";", b"", b"");
            None
        }
        Ok(None) => Some(None),
        Err(fault) => Some(Some(*fault)),
    };
    drop(next);
    end
}

/// What is behind commands, where they are those that this text spells, all of them or, before a fault, the first ones.
fn end_of(reader: &mut Reader<'_, '_>, spelled: &[u8]) -> Option<End> {
    let mut spelling = Spelling::new(spelled);
    for _ in 0..100u8 {
        if let Some(end) = put_next(&mut spelling, reader) {
            let is_whole = end.is_some() || spelling.rest.is_empty();
            return (spelling.is_right && is_whole).then_some(end);
        }
    }
    None
}

/// The same of a stream in pieces of this size, behind which the source fails or ends. The end comes again, twice.
fn told_end(heap: &Heap, text: &[u8], piece: usize, fails: bool, spelled: &[u8]) -> Option<End>
    requires { 0 < piece }
{
    let mut reader = CommandReader::new(heap, Bytes::new(text, piece, fails));
    let end = end_of(&mut reader, spelled);
    let is_kept = end_of(&mut reader, b"") == end && end_of(&mut reader, b"") == end;
    drop(reader);
    if is_kept { end } else { None }
}

#[test]
fn commands_have_their_parts_in_pieces_of_any_size(rt: HostRuntime) {
    let heap = Heap::new(rt.alloc(), 0);
    for piece in 1..65usize {
        assert!(rt;
            told_end(&heap, STREAM, piece, false, COMMANDS) == Some(None),
            "{piece}"
        );
    }
    let late = Some(Some(CommandFault::LateOption));
    let spelled = b"feature date-format=raw;feature force;done;";
    let text = b"feature date-format=raw\nfeature force\ndone\n";
    assert!(rt; told_end(&heap, text, 1, false, spelled) == Some(None));
    let text = b"checkpoint\nfeature force\n";
    assert!(rt; told_end(&heap, text, 1, false, b"checkpoint;") == late);
}

#[test]
fn failed_read_keeps_the_commands_before_it(rt: HostRuntime) {
    let heap = Heap::new(rt.alloc(), 0);
    let failed = Some(Some(CommandFault::ReadFailed));
    for count in 0..STREAM.len() - 4 {
        assert!(rt;
            told_end(&heap, &STREAM[..count], 7, true, COMMANDS) == failed,
            "{count}"
        );
    }
}

/// How many growths are refused, one after the other, until the stream is read. None where another answer came.
fn refused_growths(heap: &Heap) -> Option<u64> {
    for nth in 1..1000u64 {
        heap.arm(nth);
        let end = told_end(heap, STREAM, 5, false, COMMANDS)?;
        if heap.is_waiting() {
            return if end.is_none() { Some(nth - 1) } else { None };
        }
        if end != Some(CommandFault::OutOfMemory) {
            return None;
        }
    }
    None
}

#[test]
fn refused_growth_is_out_of_memory(rt: HostRuntime) {
    let heap = Heap::new(rt.alloc(), 0);
    assert!(rt; refused_growths(&heap).unwrap_or(0) > 40);
}

//! Texts of stores. Source: this project's own formats, and git's names of objects.

use gx_growing_parts::Ending;

/// The growing text with no object and no ref.
pub(crate) const EMPTY: &[u8] = b"gxstore 3\na\n\
00000000000000000262 00000000000000000244 \
adb75895df009d6af652e3e2686b8d561b10c7e4b0c7c84e20c13de012fb0597\n\
00000000000000000000 00000000000000000000 \
0000000000000000000000000000000000000000000000000000000000000000\n\
objects 0\nrows 0\n\nruns 0\nrefs 0\nend\n";

/// The same with a segment behind it that brings nothing, to which the second slot leads.
pub(crate) const TWICE: &[u8] = b"gxstore 3\nb\n\
00000000000000000262 00000000000000000244 \
adb75895df009d6af652e3e2686b8d561b10c7e4b0c7c84e20c13de012fb0597\n\
00000000000000000298 00000000000000000280 \
adb75895df009d6af652e3e2686b8d561b10c7e4b0c7c84e20c13de012fb0597\n\
objects 0\nrows 0\n\nruns 0\nrefs 0\nend\n\
objects 0\nrows 0\n\nruns 0\nrefs 0\nend\n";

/// How the empty text ends.
pub(crate) const ENDING: Ending<'static> = Ending {
    is_first: true,
    ends: 262,
    runs: &[],
};

/// The text of version 2 with a commit of no files, which a branch holds.
const COMMITTED: &[u8] = b"gxstore 2\nobjects 2\n\
tree 0 4b825dc642cb6eb9a060e54bf8d69288fbee4904\n\n\
commit 98 09c9dfe00ddfa1db2b5ba1953e2536a5e84b21da\n\
tree 4b825dc642cb6eb9a060e54bf8d69288fbee4904\n\
author A <a@b> 0 +0000\n\
committer A <a@b> 0 +0000\n\
\n\
m\n\n\
refs 1\n\
09c9dfe00ddfa1db2b5ba1953e2536a5e84b21da refs/heads/main\n\
end\n";

/// The same with three blobs and a ref more.
const GROWN: &[u8] = b"gxstore 2\nobjects 5\n\
tree 0 4b825dc642cb6eb9a060e54bf8d69288fbee4904\n\n\
commit 98 09c9dfe00ddfa1db2b5ba1953e2536a5e84b21da\n\
tree 4b825dc642cb6eb9a060e54bf8d69288fbee4904\n\
author A <a@b> 0 +0000\n\
committer A <a@b> 0 +0000\n\
\n\
m\n\n\
blob 1 f76dd238ade08917e6712764a16a22005a50573d\n\0\n\
blob 1 6b2aaa7640726588bcd3d57e1de4b1315b7f315e\n\x01\n\
blob 1 25cb955ba23571f6fefd57cecf5f67454210bbc8\n\x02\n\
refs 2\n\
09c9dfe00ddfa1db2b5ba1953e2536a5e84b21da refs/heads/main\n\
09c9dfe00ddfa1db2b5ba1953e2536a5e84b21da refs/heads/next\n\
end\n";

/// The lines of its refs.
pub(crate) const LINES: &[u8] = b"09c9dfe00ddfa1db2b5ba1953e2536a5e84b21da refs/heads/main\n\
09c9dfe00ddfa1db2b5ba1953e2536a5e84b21da refs/heads/next\n";

/// The text of version 2 of the commit, or of what it has grown to.
pub(crate) fn version_2(has_grown: bool) -> &'static [u8] {
    if has_grown { GROWN } else { COMMITTED }
}

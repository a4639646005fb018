//! What git printed of a small repository: its refs, and each object with its line.

/// The two refs, as `git for-each-ref` prints them.
pub const REFS: &[u8] = b"1f3ff2374420d3927cfbd573c5751dc67c4630ea refs/heads/main
eea6a719312f52a8c870ca5b7039e102179299b3 refs/tags/v1
";

pub const COMMIT: &[u8] = b"tree f3330bb188e45b11b32cba7918a7d8cc7c15d9ed
author A <a@x> 1000000000 +0000
committer A <a@x> 1000000000 +0000

m
";

pub const TAG: &[u8] = b"object 1f3ff2374420d3927cfbd573c5751dc67c4630ea
type commit
tag v1
tagger A <a@x> 1000000000 +0000

t
";

pub const TREE: &[u8] =
    b"100644 a\x002\xf9\\\x0d\x12D\xa7\x8b+\xe1\xba\xb8\xde\x17\x90o\xab\xb2\xc4\xa8";

pub const BLOB: &[u8] = b"hi";

/// The lines that `git cat-file --batch` prints before these.
pub const COMMIT_LINE: &[u8] = b"1f3ff2374420d3927cfbd573c5751dc67c4630ea commit 116\n";

pub const TAG_LINE: &[u8] = b"eea6a719312f52a8c870ca5b7039e102179299b3 tag 102\n";

pub const TREE_LINE: &[u8] = b"f3330bb188e45b11b32cba7918a7d8cc7c15d9ed tree 29\n";

pub const BLOB_LINE: &[u8] = b"32f95c0d1244a78b2be1bab8de17906fabb2c4a8 blob 2\n";

pub const LF: &[u8] = b"\n";

/// The names of these four.
pub const COMMIT_DIGITS: &[u8] = b"1f3ff2374420d3927cfbd573c5751dc67c4630ea";

pub const TAG_DIGITS: &[u8] = b"eea6a719312f52a8c870ca5b7039e102179299b3";

pub const TREE_DIGITS: &[u8] = b"f3330bb188e45b11b32cba7918a7d8cc7c15d9ed";

pub const BLOB_DIGITS: &[u8] = b"32f95c0d1244a78b2be1bab8de17906fabb2c4a8";

//! What the bodies of objects name.

use crate::printed::*;
use gx_links::{Link, LinksFault, links_of};
use gx_object::{Kind, Name};
use std::alloc::Global;

/// Whether just these are named: a kind and the digits of a name each.
fn names(alloc: Global, kind: Kind, body: &[u8], wanted: &[(Kind, &[u8])]) -> bool {
    match links_of(alloc, kind, body) {
        Ok(links) => are(&links, wanted),
        Err(_) => false,
    }
}

fn are(links: &[Link], wanted: &[(Kind, &[u8])]) -> bool {
    for (link, (kind, digits)) in links.iter().zip(wanted) {
        if link.kind != *kind || Some(link.name) != Name::read(digits) {
            return false;
        }
    }
    links.len() == wanted.len()
}

/// A commit with two parents.
const MERGE: &[u8] = b"tree f3330bb188e45b11b32cba7918a7d8cc7c15d9ed
parent 1f3ff2374420d3927cfbd573c5751dc67c4630ea
parent eea6a719312f52a8c870ca5b7039e102179299b3
author A <a@x> 1000000000 +0000
committer A <a@x> 1000000000 +0000

m
";

/// A directory and a gitlink, each with a name of letters.
const FOLDER: &[u8] = b"40000 a\x00aaaaaaaaaaaaaaaaaaaa160000 b\x00bbbbbbbbbbbbbbbbbbbb";

#[test]
fn links_stand_in_the_order_of_the_body(rt: HostRuntime) {
    let alloc = rt.alloc();
    assert!(rt; names(alloc, Kind::Blob, BLOB, &[]));
    assert!(rt; names(alloc, Kind::Tree, TREE, &[(Kind::Blob, BLOB_DIGITS)]));
    assert!(rt; names(alloc, Kind::Commit, COMMIT, &[(Kind::Tree, TREE_DIGITS)]));
    assert!(rt; names(alloc, Kind::Commit, SIGNED, &[(Kind::Tree, TREE_DIGITS)]));
    assert!(rt; names(alloc, Kind::Tag, TAG, &[(Kind::Commit, COMMIT_DIGITS)]));
    let merged = [
        (Kind::Tree, TREE_DIGITS),
        (Kind::Commit, COMMIT_DIGITS),
        (Kind::Commit, TAG_DIGITS),
    ];
    assert!(rt; names(alloc, Kind::Commit, MERGE, &merged));
}

#[test]
fn gitlink_is_no_link(rt: HostRuntime) {
    let letters: &[u8] = b"6161616161616161616161616161616161616161";
    assert!(rt; names(rt.alloc(), Kind::Tree, FOLDER, &[(Kind::Tree, letters)]));
}

/// A commit with a header that no stream can say.
const SIGNED: &[u8] = b"tree f3330bb188e45b11b32cba7918a7d8cc7c15d9ed
author A <a@x> 1000000000 +0000
committer A <a@x> 1000000000 +0000
gpgsig x
 y

m
";

/// A commit without a message, which no repository holds.
const BARE: &[u8] = b"tree f3330bb188e45b11b32cba7918a7d8cc7c15d9ed
author A <a@x> 1000000000 +0000
committer A <a@x> 1000000000 +0000
";

/// A tag of a tree, which no repository holds.
const TAG_OF_TREE: &[u8] = b"object f3330bb188e45b11b32cba7918a7d8cc7c15d9ed
type tree
tag v1
tagger A <a@x> 1000000000 +0000

t
";

#[test]
fn other_bodies_are_bad(rt: HostRuntime) {
    let bodies = [
        (Kind::Tree, BLOB),
        (Kind::Commit, TAG),
        (Kind::Tag, COMMIT),
        (Kind::Commit, BARE),
        (Kind::Tag, TAG_OF_TREE),
    ];
    for (kind, body) in bodies {
        assert!(rt; links_of(rt.alloc(), kind, body).err() == Some(LinksFault::BadBody));
    }
}

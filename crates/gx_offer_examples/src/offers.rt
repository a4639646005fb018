//! What texts of refs and objects offer.

use crate::printed::*;
use gx_object::{Kind, Name, Sha1Namer};
use gx_offered::{ItemFault, OfferFault, Offered, offer_in, read_offer};
use gx_store::Text;
use gx_text::Bytes;
use std::alloc::Global;

/// These texts, one behind the other; none where memory runs out.
fn joined(alloc: Global, parts: &[&[u8]]) -> Vec<u8> {
    let mut text = Vec::new(alloc);
    let mut fits = true;
    for part in parts {
        fits = fits && text.extend_from_slice(part).is_ok();
    }
    if fits { text } else { Vec::new(alloc) }
}

/// What an item tells: the digits of its name, its kind where it is an object, and its bytes.
type Told = (&'static [u8], Option<Kind>, &'static [u8]);

fn tells(item: &Offered<Global>, told: Told) -> bool {
    let (digits, kind, bytes) = told;
    match item {
        Offered::Ref(it) => {
            kind.is_none() && Name::read(digits) == Some(it.object) && it.name.as_slice() == bytes
        }
        Offered::Object(it) => {
            kind == Some(it.kind)
                && Name::read(digits) == Some(it.name)
                && it.body.as_slice() == bytes
        }
    }
}

fn tell(items: &[Offered<Global>], told: &[Told]) -> bool {
    for (item, told) in items.iter().zip(told) {
        if !tells(item, *told) {
            return false;
        }
    }
    items.len() == told.len()
}

const PRINTED: [Told; 6] = [
    (COMMIT_DIGITS, None, b"refs/heads/main"),
    (TAG_DIGITS, None, b"refs/tags/v1"),
    (COMMIT_DIGITS, Some(Kind::Commit), COMMIT),
    (TAG_DIGITS, Some(Kind::Tag), TAG),
    (TREE_DIGITS, Some(Kind::Tree), TREE),
    (BLOB_DIGITS, Some(Kind::Blob), BLOB),
];

/// What git printed.
fn printed(alloc: Global) -> Vec<u8> {
    joined(
        alloc,
        &[
            REFS,
            COMMIT_LINE,
            COMMIT,
            LF,
            TAG_LINE,
            TAG,
            LF,
            TREE_LINE,
            TREE,
            LF,
            BLOB_LINE,
            BLOB,
            LF,
        ],
    )
}

#[test]
fn items_stand_as_git_prints_them(rt: HostRuntime) {
    let alloc = rt.alloc();
    let text = printed(alloc);
    for piece in [1, 7, 100_000] {
        match read_offer(alloc, &Sha1Namer, Bytes::new(&text, piece, false)) {
            Ok(items) => assert!(rt; tell(&items, &PRINTED), "{piece}"),
            Err(_) => assert!(rt; false, "{piece}"),
        }
    }
}

#[test]
fn items_share_their_text(rt: HostRuntime) {
    let alloc = rt.alloc();
    let Ok(text) = Text::new(alloc, printed(alloc)) else {
        assert!(rt; false);
        return;
    };
    match offer_in(alloc, &Sha1Namer, &text) {
        Ok(items) => assert!(rt; tell(&items, &PRINTED)),
        Err(_) => assert!(rt; false),
    }
}

#[test]
fn nothing_offers_nothing(rt: HostRuntime) {
    match read_offer(rt.alloc(), &Sha1Namer, Bytes::new(b"", 1, false)) {
        Ok(items) => assert!(rt; items.is_empty()),
        Err(_) => assert!(rt; false),
    }
}

/// Why a text is refused, and at which item.
fn refusal(alloc: Global, text: &[u8], fails: bool) -> Option<OfferFault> {
    read_offer(alloc, &Sha1Namer, Bytes::new(text, 5, fails)).err()
}

#[test]
fn failed_source_is_no_end(rt: HostRuntime) {
    let alloc = rt.alloc();
    assert!(rt; refusal(alloc, REFS, true) == Some(OfferFault::ReadFailed));
    assert!(rt; refusal(alloc, b"x\n", true) == Some(OfferFault::ReadFailed));
}

/// What stands behind two refs, and why it isn't read.
const FAULTS: [(&[u8], ItemFault); 17] = [
    (b"32f95c", ItemFault::TruncatedData),
    (
        b"32f95c0d1244a78b2be1bab8de17906fabb2c4a8 blob 2\nhi",
        ItemFault::TruncatedData,
    ),
    (
        b"32f95c0d1244a78b2be1bab8de17906fabb2c4a8 blob 3\nhi\n",
        ItemFault::TruncatedData,
    ),
    (
        b"32f95c0d1244a78b2be1bab8de17906fabb2c4a8 blob 18446744073709551615\nhi\n",
        ItemFault::TruncatedData,
    ),
    (b"\n", ItemFault::BadLine),
    (
        b"32f95c0d1244a78b2be1bab8de17906fabb2c4a8\n",
        ItemFault::BadLine,
    ),
    (
        b"32F95C0D1244A78B2BE1BAB8DE17906FABB2C4A8 blob 2\nhi\n",
        ItemFault::BadLine,
    ),
    (
        b"32f95c0d1244a78b2be1bab8de17906fabb2c4a refs/heads/x\n",
        ItemFault::BadLine,
    ),
    (
        b"32f95c0d1244a78b2be1bab8de17906fabb2c4a8 blub 2\nhi\n",
        ItemFault::BadLine,
    ),
    (
        b"32f95c0d1244a78b2be1bab8de17906fabb2c4a8 blob 1\nhi\n",
        ItemFault::BadLine,
    ),
    (
        b"32f95c0d1244a78b2be1bab8de17906fabb2c4a8 blob 02\nhi\n",
        ItemFault::BadNumber,
    ),
    (
        b"32f95c0d1244a78b2be1bab8de17906fabb2c4a8 blob 2 \nhi\n",
        ItemFault::BadNumber,
    ),
    (
        b"32f95c0d1244a78b2be1bab8de17906fabb2c4a8 blob 18446744073709551616\nhi\n",
        ItemFault::BadNumber,
    ),
    (
        b"32f95c0d1244a78b2be1bab8de17906fabb2c4a8 missing\n",
        ItemFault::Missing,
    ),
    (
        b"32f95c0d1244a78b2be1bab8de17906fabb2c4a8 a..b\n",
        ItemFault::BadRefName,
    ),
    (
        b"32f95c0d1244a78b2be1bab8de17906fabb2c4a8 \n",
        ItemFault::BadRefName,
    ),
    (
        b"32f95c0d1244a78b2be1bab8de17906fabb2c4a8 blob 2\nho\n",
        ItemFault::NameMismatch,
    ),
];

#[test]
fn first_fault_is_told_with_its_item(rt: HostRuntime) {
    let alloc = rt.alloc();
    for (text, fault) in FAULTS {
        let whole = joined(alloc, &[REFS, text, b"\n\n"]);
        let cut = joined(alloc, &[REFS, text]);
        let told = match fault {
            ItemFault::TruncatedData => refusal(alloc, &cut, false),
            _ => refusal(alloc, &whole, false),
        };
        assert!(rt; told == Some(OfferFault::Item(3, fault)), "{fault}");
    }
}

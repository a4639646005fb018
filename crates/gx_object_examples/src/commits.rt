//! Commits with further headers, as Git has them. The bodies are those of gitformat-signature(5), shortened.

use gx_object::{
    AnyCommitParts, CommitParts, Name, decode_any_commit, decode_commit, encode_any_commit,
    encode_commit,
};
use gx_text::Ident;
use std::alloc::Global;
use std::test::Fail;

const FRONT: &[u8] = b"tree 1f1f1f1f1f1f1f1f1f1f1f1f1f1f1f1f1f1f1f1f
parent a0a0a0a0a0a0a0a0a0a0a0a0a0a0a0a0a0a0a0a0
author A U Thor <author@example.com> 1465981137 +0000
committer nobody
";

const SIGNATURE: &[u8] = b"gpgsig -----BEGIN PGP SIGNATURE-----
 
 iQEcBAABAgAGBQJXYRhOAAoJEGEJLoW3InGJklkIAIcnhL7RwEb/+QeX9enkXhxn
 -----END PGP SIGNATURE-----
";

/// A commit's body with this end.
fn body_of(alloc: Global, ends: &[&[u8]]) -> Vec<u8> {
    let mut body = Vec::new(alloc);
    let mut fits = body.extend_from_slice(FRONT).is_ok();
    for end in ends {
        fits = fits && body.extend_from_slice(end).is_ok();
    }
    if fits { body } else { Vec::new(alloc) }
}

/// Whether a commit's body with this end has these parts, and these parts encode it.
fn has(alloc: Global, ends: &[&[u8]], headers: &[u8], message: Option<&[u8]>) -> bool {
    let body = body_of(alloc, ends);
    let Ok(commit) = decode_any_commit(&body) else {
        return false;
    };
    let Some(parent) = commit.parents.get(0) else {
        return false;
    };
    let parts = AnyCommitParts {
        tree: commit.tree,
        parents: &[parent],
        author: commit.author,
        committer: commit.committer,
        headers: commit.headers,
        message: commit.message,
    };
    let Ok(again) = encode_any_commit(alloc, &parts) else {
        return false;
    };
    commit.parents.len() == 1
        && commit.tree == Name { bytes: [31; 20] }
        && commit.committer == b"nobody".as_slice()
        && commit.headers == headers
        && commit.message == message
        && again.as_slice() == body.as_slice()
}

/// Whether a body with this end is no commit's.
fn is_bad(alloc: Global, ends: &[&[u8]]) -> bool {
    decode_any_commit(&body_of(alloc, ends)).is_err()
}

#[test]
fn signature_is_kept(rt: HostRuntime) -> Result<(), Fail> {
    let alloc = rt.alloc();
    assert!(rt;
        has(
            alloc,
            &[SIGNATURE, b"\nsigned\n"],
            SIGNATURE,
            Some(b"signed\n")
        )
    );
    Ok(())
}

#[test]
fn message_may_be_absent(rt: HostRuntime) -> Result<(), Fail> {
    let alloc = rt.alloc();
    assert!(rt; has(alloc, &[], b"", None));
    assert!(rt; has(alloc, &[b"\n"], b"", Some(b"")));
    assert!(rt; has(alloc, &[SIGNATURE], SIGNATURE, None));
    Ok(())
}

const IDENTITY: &[u8] = b"A U Thor <author@example.com> 1465981137 +0000";

/// The body of a commit by identities, with this end.
fn own_body_of(alloc: Global, end: &[u8]) -> Vec<u8> {
    let mut body = Vec::new(alloc);
    let mut fits = true;
    for part in [
        b"tree 1f1f1f1f1f1f1f1f1f1f1f1f1f1f1f1f1f1f1f1f\nauthor ".as_slice(),
        IDENTITY,
        b"\ncommitter ",
        IDENTITY,
        b"\n",
        end,
    ] {
        fits = fits && body.extend_from_slice(part).is_ok();
    }
    if fits { body } else { Vec::new(alloc) }
}

/// Whether a commit by identities with this end has these headers, this encoding and this message, and whether it is encoded by
/// them.
fn has_own(
    alloc: Global,
    end: &[u8],
    headers: &[u8],
    encoding: Option<&[u8]>,
    message: &[u8],
) -> bool {
    let body = own_body_of(alloc, end);
    let Ok(commit) = decode_commit(&body) else {
        return false;
    };
    let Ok(author) = Ident::read(commit.author()) else {
        return false;
    };
    let none: Option<&[u8]> = None;
    let whole = CommitParts {
        tree: commit.tree(),
        parents: &[],
        author,
        committer: author,
        encoding: none,
        further: commit.headers(),
        message: commit.message(),
    };
    let Ok(again) = encode_commit(alloc, &whole) else {
        return false;
    };
    commit.headers() == headers
        && commit.encoding() == encoding
        && commit.message() == message
        && again.as_slice() == body.as_slice()
}

#[test]
fn first_header_tells_the_encoding(rt: HostRuntime) -> Result<(), Fail> {
    let alloc = rt.alloc();
    assert!(rt; has_own(alloc, b"\nm", b"", None, b"m"));
    assert!(rt;
        has_own(
            alloc,
            b"encoding x\nHG:extra y\n\n\nm\n",
            b"encoding x\nHG:extra y\n",
            Some(b"x"),
            b"\nm\n"
        )
    );
    assert!(rt;
        has_own(
            alloc,
            b"HG:extra y\nencoding x\n\n",
            b"HG:extra y\nencoding x\n",
            None,
            b""
        )
    );
    assert!(rt; has_own(alloc, b"encoding \n\n", b"encoding \n", None, b""));
    assert!(rt; has_own(alloc, b"encodings x\n\n", b"encodings x\n", None, b""));
    Ok(())
}

#[test]
fn commit_without_a_message_is_none_of_the_profile(rt: HostRuntime) -> Result<(), Fail> {
    let alloc = rt.alloc();
    assert!(rt; decode_commit(&own_body_of(alloc, b"")).is_err());
    assert!(rt; decode_commit(&own_body_of(alloc, SIGNATURE)).is_err());
    assert!(rt; decode_commit(&own_body_of(alloc, b"gpgsig x")).is_err());
    Ok(())
}

#[test]
fn header_without_an_end_is_bad(rt: HostRuntime) -> Result<(), Fail> {
    let alloc = rt.alloc();
    assert!(rt; is_bad(alloc, &[b"gpgsig x"]));
    assert!(rt; is_bad(alloc, &[b"encoding x"]));
    assert!(rt; decode_any_commit(b"").is_err());
    assert!(rt; decode_any_commit(b"tree 1f1f1f1f1f1f1f1f1f1f1f1f1f1f1f1f1f1f1f1f\n\n").is_err());
    Ok(())
}

//! Refs that a growing text may have, and those that no repository has together.

use crate::looks::look_into;
use std::alloc::Global;

/// The first slot, and the refs, of a text with one blob. Source: this project's own format.
#[derive(Drop)]
struct Refs<'a> {
    slot: &'a [u8],
    lines: &'a [u8],
}

/// What stands before the slot.
const FRONT: &[u8] = b"gxstore 3\na\n";

/// What stands between the slot and the refs.
const MIDDLE: &[u8] = b"\n\
00000000000000000000 00000000000000000000 \
0000000000000000000000000000000000000000000000000000000000000000\n\
objects 1\n\
blob 3 43dd47ea691c90a5fa7827892c70241913351963\n\
one\n\
rows 1\n\
\x43\xdd\x47\xea\x69\x1c\x90\xa5\xfa\x78\x27\x89\x2c\x70\x24\x19\x13\x35\x19\x63\
\0\0\0\0\0\0\0\xec\
\xda\xf1\xa2\x3e\xa8\xa1\x9d\x1c\xcf\x5c\xf9\x6c\xba\x11\x8b\xd2\
\x7d\x53\xc3\xa6\xec\xda\xb9\xe9\xab\x2c\x4e\x43\xf2\x08\x74\x27\n\
runs 1\n\
295 1 876825292a1d0bcc7c79b427d29d079a573a8dd273d6d1e5b535dd1bae3fa451\n";

/// Two refs in their order.
const ORDERED: Refs<'static> = Refs {
    slot: b"00000000000000000553 00000000000000000356 \
abef70f7c4eeb0cf602c8fe7469ed7f6d4f0974223d8f8c9f6ec36310f2eb186",
    lines: b"refs 2\n\
43dd47ea691c90a5fa7827892c70241913351963 refs/heads/a\n\
43dd47ea691c90a5fa7827892c70241913351963 refs/heads/b\n\
end\n",
};

/// Names that no repository has for refs together: some aren't ref names, others aren't in order or stand twice, and one of them
/// makes a line more than there are refs.
const UNSOUND: [Refs<'static>; 8] = [
    Refs {
        slot: b"00000000000000000487 00000000000000000356 \
ad16451658ed24aaf2ea7a363bf92fac6452d6502ae62842df4901d4164a9938",
        lines: b"refs 1\n\
43dd47ea691c90a5fa7827892c70241913351963 \n\
end\n",
    },
    Refs {
        slot: b"00000000000000000501 00000000000000000356 \
8ac78d30ec9b0a8a6a6dad80675d1f2c2291825dac9d9a16e75779f71dddccbf",
        lines: b"refs 1\n\
43dd47ea691c90a5fa7827892c70241913351963 refs/heads/a b\n\
end\n",
    },
    Refs {
        slot: b"00000000000000000502 00000000000000000356 \
b429667c131907221d7145cbf866d12a2f2722dd55d9b3a9a0ddef50eac3eb40",
        lines: b"refs 1\n\
43dd47ea691c90a5fa7827892c70241913351963 refs/heads/a..b\n\
end\n",
    },
    Refs {
        slot: b"00000000000000000503 00000000000000000356 \
ae491cdca4fe0a8420c1e2001c6653891c01124dd96fe97cbd29ff41404d7646",
        lines: b"refs 1\n\
43dd47ea691c90a5fa7827892c70241913351963 refs/heads/\x1b[31m\n\
end\n",
    },
    Refs {
        slot: b"00000000000000000500 00000000000000000356 \
e41c64bb5b00698f0a0edb4c5d687ea020ab57465bd351780247fef32fb2e37f",
        lines: b"refs 1\n\
43dd47ea691c90a5fa7827892c70241913351963 refs/heads/a\0\n\
end\n",
    },
    Refs {
        slot: b"00000000000000000553 00000000000000000356 \
7689daaf9d917fd08f3f418b5c4c684d483f54f1eec3f3de07aecb27ea5e05b3",
        lines: b"refs 2\n\
43dd47ea691c90a5fa7827892c70241913351963 refs/heads/b\n\
43dd47ea691c90a5fa7827892c70241913351963 refs/heads/a\n\
end\n",
    },
    Refs {
        slot: b"00000000000000000553 00000000000000000356 \
79304f49639717783c69b171e01e6e6fd22457d58d71ff6ab6c2d490590f80b4",
        lines: b"refs 2\n\
43dd47ea691c90a5fa7827892c70241913351963 refs/heads/a\n\
43dd47ea691c90a5fa7827892c70241913351963 refs/heads/a\n\
end\n",
    },
    Refs {
        slot: b"00000000000000000553 00000000000000000356 \
046389b941f72855488f97c6bebe9bdafdb5ed114306ee92b21ebc6e8a7bf065",
        lines: b"refs 1\n\
43dd47ea691c90a5fa7827892c70241913351963 refs/heads/a\n\
43dd47ea691c90a5fa7827892c70241913351963 refs/heads/b\n\
end\n",
    },
];

/// Whether a text with these refs can be opened.
fn is_opened(alloc: Global, refs: &Refs<'_>) -> Option<bool> {
    let mut text = Vec::new(alloc);
    for part in [FRONT, refs.slot, MIDDLE, refs.lines] {
        text.extend_from_slice(part).ok()?;
    }
    Some(look_into(alloc, text.as_slice(), 1_000).is_ok())
}

#[test]
fn lines_that_no_repository_has_for_refs_are_damaged(rt: HostRuntime) {
    assert!(rt; is_opened(rt.alloc(), &ORDERED) == Some(true));
    for refs in &UNSOUND {
        assert!(rt; is_opened(rt.alloc(), refs) == Some(false));
    }
}

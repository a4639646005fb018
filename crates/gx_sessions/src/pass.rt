//! The ways in which each command is run: how its input comes, and how its store is opened.

use gx_text::Bytes;
use std::hash::RandomState;

/// The pieces in which an input comes.
#[derive(Clone, Copy)]
enum Pieces {
    Whole,
    Blocks,
    Bytes,
}

/// A way in which commands are run.
#[derive(Clone, Copy)]
pub(crate) struct Pass {
    /// How it is told.
    pub(crate) name: &'static str,
    pieces: Pieces,
    /// Stores are opened as texts of the first version.
    pub(crate) is_first_version: bool,
    /// The store's text is given to the command, and not lent.
    pub(crate) is_given: bool,
    pub(crate) has_short_names: bool,
    pub(crate) state: RandomState,
}

impl Pass {
    /// The source that gives an input, and then its end or a failure.
    pub(crate) fn source<'a>(&self, input: &'a [u8], fails: bool) -> Bytes<'a> {
        match self.pieces {
            Pieces::Whole => Bytes::new(input, usize::MAX, fails),
            Pieces::Blocks => Bytes::new(input, 4096, fails),
            Pieces::Bytes => Bytes::new(input, 1, fails),
        }
    }
}

/// All ways: inputs in pieces of each kind, and stores of both versions, whose texts are lent in half of them and given in the others.
pub(crate) fn passes(has_short_names: bool, state: RandomState) -> [Pass; 6] {
    let whole = Pass {
        name: "whole inputs, stores of version 2",
        pieces: Pieces::Whole,
        is_first_version: false,
        is_given: false,
        has_short_names,
        state,
    };
    let blocks = Pass {
        name: "inputs in pieces of 4096 bytes, stores of version 2",
        pieces: Pieces::Blocks,
        is_given: true,
        ..whole
    };
    let bytes = Pass {
        name: "inputs byte by byte, stores of version 2",
        pieces: Pieces::Bytes,
        ..whole
    };
    [
        whole,
        blocks,
        bytes,
        Pass {
            name: "whole inputs, stores of version 1",
            is_first_version: true,
            is_given: true,
            ..whole
        },
        Pass {
            name: "inputs in pieces of 4096 bytes, stores of version 1",
            is_first_version: true,
            is_given: false,
            ..blocks
        },
        Pass {
            name: "inputs byte by byte, stores of version 1",
            is_first_version: true,
            is_given: true,
            ..bytes
        },
    ]
}

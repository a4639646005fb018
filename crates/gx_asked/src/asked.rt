//! What a stream asks of the repository that it begins with, and what it brings. Source: git-fast-import(1), "Commands".

ghost use Rattle.std.specs.Prelude.{IfErr, IfOk, OnOk};
ghost use Rattle.gx_asked.specs.Asking.{AskAmong, HasNoFault, IsCause, texts_of};

use crate::AskedFault;
use gx_command::{CommandReader, Features};
use gx_object::{Name, Namer};
use gx_stream::LIMIT;
use gx_text::{Bytes, PIECE};
use std::alloc::Allocator;
use std::collections::BTreeSet;

/// What the commands of a stream ask for, and the blobs that they bring.
#[derive(Drop)]
pub struct Asked<A: Allocator> {
    pub(crate) alloc: A,
    /// The texts that name commits, and are revisions.
    pub texts: BTreeSet<Vec<u8, A>, A>,
    /// The bases of these, and the digits that name blobs.
    pub bases: BTreeSet<Vec<u8, A>, A>,
    /// The branches that are set.
    pub branches: BTreeSet<Vec<u8, A>, A>,
    /// The names of blobs whose bytes come.
    pub brought: BTreeSet<Name, A>,
}

impl<A: Allocator + Copy> Asked<A> {
    /// What the commands of a stream ask for, where these features are asked for; the stream fails after its last byte, or ends.
    ///
    /// A text that isn't a revision asks for nothing, and neither does a submodule's commit. `StandsForAnother` where a blob or a
    /// message of the stream begins as what stands for another object does; `Unread` with the fault of the stream.
    ///
    /// Cost: the stream's bytes, and a name for each blob. Memory: what is asked for, each text once, 20 bytes for each blob that
    /// comes, and one command. Source: git-fast-import(1), "Commands".
    pub fn read<N: Namer>(
        alloc: A,
        namer: &N,
        stream: &[u8],
        fails: bool,
        features: Features,
    ) -> Result<Asked<A>, AskedFault>
        ensures asked { IfOk result (λ asked. AskAmong (texts_of asked.branches.keys)
            (texts_of asked.bases.keys) features stream.now fails) }
        ensures whole { OnOk result (HasNoFault features stream.now fails) }
        ensures fault { IfErr result (IsCause features stream.now fails) }
    {
        // A reader hears no more; memory holds no such text.
        if stream.len() > LIMIT {
            return Err(AskedFault::OutOfMemory);
        }
        let mut asked = Asked {
            alloc,
            texts: BTreeSet::new(alloc),
            bases: BTreeSet::new(alloc),
            branches: BTreeSet::new(alloc),
            brought: BTreeSet::new(alloc),
        };
        let source = Bytes::new(stream, PIECE, fails);
        let mut reader = CommandReader::asking(alloc, source, features);
        while let Some(command) = reader.next()? {
            asked.enter(namer, command)?;
        }
        Ok(asked)
    }
}

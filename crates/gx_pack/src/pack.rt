//! A pack on its way to a sink. Source: gitformat-pack(5).

ghost use Rattle.std.specs.Prelude.{◌≡◌, []};
ghost use Rattle.sha1.specs.Sha1.{Holds};
ghost use Rattle.gx_pack.specs.Packs.{entry_text, pack_head};
ghost use Rattle.gx_pack.specs.Writing.{Writes, WritesDigest};

use crate::entry::write_entry;
use crate::output::Output;
use gx_model::Kind;
use gx_text::{Failed, Sink};
use std::marker::Model;

/// A pack of version 2 whose objects aren't compressed, on its way to a sink: its head, an entry for each object, and its end.
/// Nothing of it is kept but the state of a digest. Once the sink has failed, each call answers `Failed`.
#[derive(Drop)]
pub struct Pack<'a, W: Sink> {
    output: Output<'a, W>,
}

impl<'a, W: Sink> Model for Pack<'a, W> {
    ghost use Rattle.gx_pack.specs.Writing.{Sent};

    ghost Value = { Sent };

    ghost view = { λ pack. pack.output };
}

impl<'a, W: Sink> Pack<'a, W> {
    /// Nothing of the pack went out yet.
    pub fn new(sink: &'a mut W) -> Pack<'a, W>
        ensures name { result.name ≡ sink.entry.ghost_name }
        ensures taken { result.taken ≡ W.taken sink.old }
        ensures digested { Holds result.hasher [] }
    {
        Pack {
            output: Output::new(sink),
        }
    }

    /// Writes the head of a pack of so many objects. Takes no memory.
    #[tactic(auto, unfolding(crate::specs::Packs::pack_head))]
    pub fn write_head(&mut self, count: u32) -> Result<(), Failed>
        ensures { Writes self.old self.new (pack_head count) result }
    {
        let mut head = *b"PACK\0\0\0\x02\0\0\0\0";
        head[8..].copy_from_slice(&count.to_be_bytes());
        self.output.write(&head)
    }

    /// Writes the entry of an object of this kind and body.
    ///
    /// Cost: two passes over the body, one for each checksum. Takes no memory.
    pub fn write_object(&mut self, kind: Kind, body: &[u8]) -> Result<(), Failed>
        ensures { Writes self.old self.new (entry_text (kind, body.now)) result }
    {
        write_entry(&mut self.output, kind, body)
    }

    /// Writes the end of the pack: the digest of all that went out. Takes no memory.
    pub fn write_end(&mut self) -> Result<(), Failed>
        ensures { WritesDigest self.old self.new result }
    {
        self.output.write_digest()
    }

    /// Gives the sink back.
    pub fn into_sink(self) -> &'a mut W
        ensures name { result.ghost_name ≡ self.entry.name }
        ensures taken { W.taken result.now ≡ self.entry.taken }
    {
        let Pack { output } = self;
        output.into_sink()
    }
}
